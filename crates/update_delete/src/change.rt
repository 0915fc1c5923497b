//! What becomes of a row, and the trees of an UPDATE.

use algebra::{Condition, Expression};
use denote::Row;
use items::Items;

/// What becomes of a row.
#[derive(Drop)]
pub enum RowChange {
    Stays,
    Goes,
    Becomes(Row),
}

/// The trees of an UPDATE. In each row that it touches the column at the n-th of `columns` gets the
/// value of the n-th of `sources`.
#[derive(Drop)]
pub struct RowUpdate {
    /// It touches the rows at which this is true; without one, every row.
    pub filter: Option<Condition>,
    pub columns: Items<usize>,
    pub sources: Items<Expression>,
}
