//! Laws that follow from the definitions of sessions, runs and scripts, and of scripts over a
//! device that is closed and opened again. Nothing of it runs.
#![tactic(auto)]

mod life_laws;
mod runs;

pub use life_laws::{no_reply_is_damaged, reopened_runs_are_runs, stopped_scripts_are_runs};
pub use runs::{
    committed_databases_form_one_list, databases_stay_good, refusals_leave_the_world,
    runs_are_serializable, scripts_are_runs, sessions_stand_until_they_end, worlds_stay_sound,
};
