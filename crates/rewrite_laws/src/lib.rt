//! Laws of rules over operator trees. Each clause is a law; the bodies are empty.
#![tactic(auto)]

mod certain;
mod outcomes;
mod single;

pub use certain::{rules_answer_at_the_end_of_a_path, rules_answer_where_certain};
pub use outcomes::{answers_stay, good_databases_fit, rules_keep_the_outcome};
pub use single::{
    filters_move_where_nothing_raises, joins_become_others, known_tables_spare_work,
    look_ups_stand_for_scans, subqueries_become_joins,
};
