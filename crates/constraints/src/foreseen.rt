//! What is known of a table to which rows come or have come.

use items::Text;

/// What can be said of a table to which rows come, or have come, and which violates no constraint
/// without them.
#[derive(Drop)]
pub enum Foreseen {
    /// It violates none with them.
    Fits,
    /// It violates the constraint of this name with them.
    Violates(Text),
    /// Nothing is said: the table has to be looked at as a whole with its new rows.
    Open,
}
