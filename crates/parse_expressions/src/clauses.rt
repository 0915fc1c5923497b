//! What a SELECT may have behind its tables.

use ast::{Column, Condition};
use items::{Boxed, Items};

/// The clauses of a SELECT after its tables.
#[derive(Drop)]
pub struct Clauses {
    /// WHERE
    pub filter: Option<Boxed<Condition>>,
    /// GROUP BY
    pub groups: Items<Column>,
    /// HAVING
    pub having: Option<Boxed<Condition>>,
}
