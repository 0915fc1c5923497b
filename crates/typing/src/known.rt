//! What is known of a table.

use items::Items;
use sqlval::Column;

/// A key of a table: the columns of a PRIMARY KEY or a UNIQUE, by their places.
#[derive(Drop)]
pub struct KnownKey {
    pub is_primary: bool,
    pub columns: Items<usize>,
}

/// A table's columns, its keys, and how many indexes it has.
#[derive(Drop)]
pub struct KnownTable {
    pub columns: Items<Column>,
    pub keys: Items<KnownKey>,
    pub indexes: usize,
}

/// Columns of a table that is known, by their places.
#[derive(Drop)]
pub struct Meant {
    pub table: KnownTable,
    pub columns: Items<usize>,
}
