//! Laws of the rules of names and types: there are some, all agree, and what holds by all of them
//! is what an engine does. Nothing of it runs.
#![tactic(auto)]

mod theorems;

pub use theorems::{
    a_text_stands_for_a_condition, good_databases_are_good_by_every_reading, premises_can_be_met,
    rules_agree, there_are_rules, there_is_a_reading, what_holds_by_all_rules_is_of_an_engine,
    what_is_of_an_engine_holds_by_all_rules,
};
