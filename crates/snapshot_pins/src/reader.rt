/// Who reads, and the number of the commit that it found.
#[derive(Clone, Copy, PartialEq, Eq)]
pub struct Reader {
    pub reader: u64,
    pub number: u64,
}
