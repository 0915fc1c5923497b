//! Who reads a pool of pages, and at which commit: each reader holds one pin of what it found.
#![tactic(auto)]

mod laws;
mod reader;
mod readers;

pub use laws::found_is_pinned;
pub use reader::Reader;
pub use readers::Readers;
