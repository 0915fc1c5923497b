//! The pages that a transaction has written, over a version of a pool.
#![tactic(auto)]

mod changed;
mod commits;
mod first_page;
mod frees;
mod layers;
mod roots;
mod snapshot;
mod space;
mod takes;
mod uses;
mod version;
mod write_set;
mod writes;

pub use changed::Changed;
pub use commits::commit;
pub use first_page::read_header;
pub use frees::free_page;
pub use roots::set_catalog_root;
pub use snapshot::Snapshot;
pub use space::Overlay;
pub use takes::allocate_page;
pub use write_set::WriteSet;
pub use writes::replace_page;

/// How many pages a transaction may have written, page 0 among them.
pub const PRIVATE_PAGES: usize = 1_024;
