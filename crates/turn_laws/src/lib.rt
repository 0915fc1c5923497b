//! Laws of a query in turns: what one call of the whole text could have been told, whatever other
//! sessions do between its turns. Nothing of it runs.
#![tactic(auto)]

mod laws;

pub use laws::{
    other_events_leave_the_session, parts_of_runs_are_runs, turns_answer_the_query,
    turns_close_the_query,
};
