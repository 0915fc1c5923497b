//! Names and types of CREATE TABLE: what it stands for over a schema.
#![tactic(auto)]

mod checks;
mod columns;
mod constraints;
mod headings;
mod known_tables;
mod names;
mod references;
mod rules;
mod tables;

pub use checks::typed_check;
pub use tables::typed_create_table;
