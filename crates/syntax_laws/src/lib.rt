//! Laws of the definitions of tokens and of the grammar. Nothing of it runs.
#![tactic(auto)]

mod token_laws;
mod tree_laws;

pub use token_laws::a_text_has_tokens_or_a_fault;
pub use tree_laws::{texts_have_at_most_one_tree, tokens_have_at_most_one_tree};
