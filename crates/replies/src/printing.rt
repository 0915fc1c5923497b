//! Replies as text.

mod put;
mod reply;
mod row;

pub use reply::print_reply;
