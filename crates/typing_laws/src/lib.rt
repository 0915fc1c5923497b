//! Laws of names and types: reasons of refusals, well typed trees, set functions, and values of
//! their types. Nothing of it runs.
#![tactic(auto)]

mod column_laws;
mod set_function_laws;
mod type_laws;
mod value_laws;

pub use column_laws::{
    typed_parts_are_well_typed, typed_queries_are_well_typed, typed_statements_are_well_typed,
};
pub use set_function_laws::{set_functions_are_listed, set_functions_stand_in_place};
pub use type_laws::refusals_have_reasons;
pub use value_laws::{
    columns_keep_what_they_are_given, expressions_have_their_types,
    good_databases_hold_their_types, queries_have_rows_of_their_types,
};
