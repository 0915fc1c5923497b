//! Tables from and to CSV: the rows of a text put into a table, and the rows of a table written.
#![tactic(auto)]

mod batches;
mod cut;
mod dumping;
mod finding;
mod form;
mod formed;
mod formed_dumping;
mod formed_loading;
mod formed_text;
mod header;
mod loading;
mod query_text;
mod record;
mod table_name;
mod writing;

pub use batches::{LoadedBatches, load_batches};
pub use dumping::dump;
pub use form::Form;
pub use formed_dumping::dump_formed;
pub use formed_loading::{load_formed, load_formed_batches};
pub use loading::load;
pub use writing::put;
