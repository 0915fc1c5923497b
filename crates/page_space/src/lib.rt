//! A space of numbered pages that trees read and change.
#![tactic(auto)]

mod error;
mod space;

pub use error::SpaceError;
pub use space::{PageReader, PageSpace};

/// The bytes of a page.
pub const PAGE_SIZE: usize = 4096;

/// A page.
pub type Page = [u8; PAGE_SIZE];
