use items::Items;
use sqlval::Value;

/// A record of the catalogue: the values of its key, and those that stand under it.
#[derive(Drop)]
pub struct Record {
    /// The name of a table, the kind of the record, and its number among those of its kind.
    pub key: Items<Value>,
    pub row: Items<Value>,
}
