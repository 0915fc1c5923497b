//! Words for people: what a refusal means, and how many records there were so far.
#![tactic(auto)]

mod command_words;
mod meanings;
mod records;
mod reply_lines;
mod script_lines;

pub use command_words::without_verbose;
pub use records::{RecordReader, RecordWriter};
pub use reply_lines::ReplyWriter;
pub use script_lines::{ScriptReader, StatementLine};
