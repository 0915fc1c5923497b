use items::Items;

/// A key and its value.
#[derive(Drop)]
pub struct Entry {
    /// Its order is that of its bytes.
    pub key: Items<u8>,
    /// Any bytes.
    pub value: Items<u8>,
}

/// A child of an inner page: the least key that may stand under it, and its page.
#[derive(Drop)]
pub struct Branch {
    pub key: Items<u8>,
    pub child: u32,
}

/// Where a search starts.
#[derive(Clone, Copy, PartialEq, Eq)]
pub enum Start {
    /// At a key, or behind it where it is not there.
    At,
    /// Behind a key.
    Behind,
}
