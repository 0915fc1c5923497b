//! The database in a version of a pool, with a transaction's pages over it: read, changed, opened
//! and closed.
#![tactic(auto)]

mod blocks;
mod causes;
mod closing;
mod crashes;
mod laws;
mod looking;
mod naming;
mod opening;
mod reading;
mod rows;
mod schema;

pub use blocks::{some_rows_of, some_rows_sought, some_rows_within};
pub use causes::of_pool;
pub use closing::close_pool;
pub use crashes::last_commit_is_left;
pub use laws::{each_page_has_its_place, saved_files_end_in_zeros};
pub use looking::{row_beyond, rows_sought, rows_within};
pub use opening::pool_over;
pub use reading::{row_after, rows_of, schema_of};
pub use rows::{append_rows, delete_row, replace_row};
pub use schema::{create_index, create_table, drop_index, drop_table};
