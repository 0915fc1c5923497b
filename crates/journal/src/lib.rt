//! A journal for a file of pages: commits that survive a crash, and the recovery that reads them.
#![tactic(auto)]

mod committing;
mod creating;
mod examine;
mod found;
mod gate;
mod header;
mod image;
mod laws;
mod list;
mod places;
mod reading;
mod recovery;
mod staging;

pub use committing::commit;
pub use creating::{create, first_page};
pub use found::{Format, Found, Gate};
pub use gate::{open_gate, shut_gate};
pub use image::Image;
pub use laws::found_after_a_crash;
pub use places::{put_all, put_back, put_one, shut_behind};
pub use recovery::recover;
pub use staging::stage;
