//! Tables kept in the pages of one file: a store in versions.
#![tactic(auto)]

mod counting;
mod keeping;
mod laws;
mod many_rows;
mod paged;
mod seen;
mod undoing;
mod writing;

pub use laws::no_page_is_lost;
pub use paged::Paged;
