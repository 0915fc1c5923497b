//! Tokens.
#![tactic(auto)]

mod gaps;
mod identifiers;
mod kinds;
mod names;
mod numbers;
mod printing;
mod recognition;
mod scan;
mod strings;
mod support;
mod symbols;
mod words;

pub use kinds::{Kind, Symbol, Token};
pub use names::Name;
pub use numbers::Number;
pub use printing::{print_kind, print_kinds};
pub use recognition::is_made_of;
pub use scan::tokens;
pub use support::first_unsupported;
pub use words::{Support, WORDS, Word, reserved_word};
