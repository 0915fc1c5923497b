//! What the programs do: their command lines, and a script's way to its printed replies.
#![tactic(auto)]

mod command_line;
mod options;
mod over;
mod program;
mod run;
mod words;

pub use command_line::settings;
pub use endings::EndedRun;
pub use frame_count::{DEFAULT_FRAMES, Frames, GREATEST_FRAMES, LEAST_FRAMES};
pub use options::Settings;
pub use program::{run_over_pages, sqlsh};
pub use run::run_to_end;
