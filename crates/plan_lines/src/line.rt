//! A line that is being put together.

ghost use Rattle.std.specs.Prelude.{◌≡◌, ◌++◌, [], take, decimal, IsTrue, IfOk, OnOk};
ghost use Rattle.std.specs.List.{list_all};
ghost use Rattle.items.specs.Text.{is_character};

use items::{Items, Text};
use itoa::Buffer;
use std::alloc::{AllocError, Global};
use std::marker::Model;

/// Characters of the language, however many. Contracts see it as the list of its codes.
#[derive(Drop)]
pub(crate) struct Line {
    codes: Items<u8>,
}

impl Model for Line {
    ghost use Rattle.std.specs.Prelude.{ℕ, List, IsTrue};
    ghost use Rattle.std.specs.List.{list_all};
    ghost use Rattle.items.specs.Text.{is_character};
    ghost use Rattle.std.specs.Coded.{coded_ℕ, coded_list};

    ghost Value = { List ℕ };

    ghost coded = { coded_list coded_ℕ };

    ghost view = { λ line. line.codes };

    ghost invariant = { λ line. IsTrue (list_all is_character line.codes) };
}

impl Line {
    /// The empty line.
    pub(crate) fn new(alloc: Global) -> Line
        ensures { result ≡ [] }
    {
        Line {
            codes: Items::new(alloc),
        }
    }

    /// A copy.
    pub(crate) fn copy(&self, alloc: Global) -> Result<Line, AllocError>
        ensures { IfOk result (λ line. line ≡ self.now) }
    {
        let codes = Items::from_slice(alloc, self.codes.as_slice())?;
        Ok(Line { codes })
    }

    /// Puts characters at the end.
    pub(crate) fn put(&mut self, characters: &[u8]) -> Result<(), AllocError>
        requires characters { IsTrue (list_all is_character characters.now) }
        ensures { OnOk result (self.new ≡ self.old ++ characters.now) }
    {
        self.codes.extend_from_slice(characters)
    }

    /// Puts a number in decimal at the end.
    pub(crate) fn put_number(&mut self, number: usize) -> Result<(), AllocError>
        ensures { OnOk result (self.new ≡ self.old ++ decimal number) }
    {
        let mut buffer = Buffer::new();
        self.put(buffer.format(number).as_bytes())
    }

    /// Its first 1,000 characters as a text, without taking memory.
    pub(crate) fn into_text(self) -> Text
        ensures { result ≡ take 1000 self }
    {
        let Line { mut codes } = self;
        codes.truncate(Text::MAXIMUM_LENGTH);
        match Text::from_items(codes) {
            Some(text) => text,
            None => unreachable!(),
        }
    }
}
