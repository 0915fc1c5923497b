//! Some pages in memory, at most so many.
#![tactic(auto)]

mod cache;
mod frame;

pub use cache::PageCache;
pub use frame::Frame;
