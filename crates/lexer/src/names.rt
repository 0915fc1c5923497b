ghost use Rattle.std.specs.Prelude.{◌≡◌, length, IsTrue, IfOk};
ghost use Rattle.std.specs.List.{list_all};
ghost use Rattle.lexer.specs.Name.{as_name, begins_name, is_identifier, is_name, is_name_character};

use crate::words::reserved_word;
use items::Text;
use std::alloc::{AllocError, Global};
use std::marker::Model;

/// An identifier, in upper case: a letter, then letters, digits and underscores, 1 to 64 characters
/// in all, and no reserved word. Contracts see it as the list of its codes.
#[derive(Drop)]
pub struct Name {
    text: Text,
}

impl Model for Name {
    ghost use Rattle.std.specs.Prelude.{ℕ, List, IsTrue};
    ghost use Rattle.lexer.specs.Name.{is_name};
    ghost use Rattle.std.specs.Coded.{coded_ℕ, coded_list};

    ghost Value = { List ℕ };

    ghost coded = { coded_list coded_ℕ };

    ghost view = { λ name. name.text };

    ghost invariant = { λ name. IsTrue (is_name name.text) };
}

impl Name {
    /// The greatest number of characters.
    pub const MAXIMUM_LENGTH: usize = 64;

    /// The name of this text, without taking memory; `None` exactly where it is no name.
    pub fn from_text(text: Text) -> Option<Name>
        ensures { result ≡ as_name text }
    {
        if is_name_of(text.as_slice()) {
            Some(Name { text })
        } else {
            None
        }
    }

    /// The name as a text.
    pub fn as_text(&self) -> &Text
        ensures text { result.now ≡ self.now }
        ensures name { IsTrue (is_name self.now) }
    {
        &self.text
    }

    /// The name as a text, without taking memory.
    pub fn into_text(self) -> Text
        ensures text { result ≡ self }
        ensures name { IsTrue (is_name self) }
    {
        let Name { text } = self;
        text
    }

    /// A copy. Refuses for want of memory alone.
    pub fn copy(&self, alloc: Global) -> Result<Name, AllocError>
        ensures copied { IfOk result (λ name. name ≡ self.now) }
        ensures name { IsTrue (is_name self.now) }
    {
        let text = self.text.copy(alloc)?;
        Ok(Name { text })
    }
}

fn is_name_of(text: &[u8]) -> bool
    ensures { result ≡ is_name text.now }
{
    text.len() <= Name::MAXIMUM_LENGTH && is_identifier_of(text) && reserved_word(text).is_none()
}

fn is_identifier_of(text: &[u8]) -> bool
    ensures { result ≡ is_identifier text.now }
{
    begins_name_at(text) && has_name_characters(text)
}

fn begins_name_at(text: &[u8]) -> bool
    ensures { result ≡ begins_name text.now }
{
    match text {
        [first, ..] => first.is_ascii_uppercase(),
        [] => false,
    }
}

fn has_name_characters(text: &[u8]) -> bool
    ensures { result ≡ list_all is_name_character text.now }
{
    text.iter().all(|code| is_name_character_at(*code))
}

fn is_name_character_at(code: u8) -> bool
    ensures { result ≡ is_name_character code }
{
    code.is_ascii_uppercase() || code.is_ascii_digit() || code == b'_'
}
