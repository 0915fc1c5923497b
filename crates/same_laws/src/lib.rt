//! Laws of what may stand for a tree. Each clause is a law; the bodies are empty.
#![tactic(auto)]

mod columns;
mod kept;
mod row_widths;

pub use columns::moved_conditions_mean_the_same;
pub use kept::keeping_composes;
pub use row_widths::rows_are_as_wide_as_told;
