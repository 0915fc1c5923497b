//! A space of pages in memory.
#![tactic(auto)]

mod space;

pub use space::MemorySpace;
