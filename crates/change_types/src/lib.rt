//! Names and types of the statements that change rows or indexes: what each stands for over a
//! schema.
#![tactic(auto)]

mod drops;
mod indexes;
mod inserts;
mod names;
mod sources;
mod targets;
mod updates;

pub use drops::{typed_drop_index, typed_drop_table};
pub use indexes::typed_create_index;
pub use inserts::typed_insert;
pub use updates::{typed_delete, typed_update};
