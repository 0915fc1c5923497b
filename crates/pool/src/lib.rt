//! Versions of the pages of a file, by the numbers of commits.
#![tactic(auto)]

mod commits;
mod error;
mod found;
mod images;
mod page_set;
mod pins;
mod pool;
mod slot;
mod steps;
mod table;
mod zeros;

pub use error::PoolError;
pub use page_set::PageSet;
pub use pool::{CloseRefused, Pool};
pub use zeros::ends_in_zeros;
