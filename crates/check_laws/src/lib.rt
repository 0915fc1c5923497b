//! Laws of what a CREATE TABLE or a CREATE INDEX keeps: texts of CHECKs, and places of columns.
//! Nothing of it runs.
#![tactic(auto)]

mod laws;

pub use laws::{
    a_check_is_one_condition, declared_columns_are_there, kept_checks_can_be_read,
    what_is_referenced_is_there,
};
