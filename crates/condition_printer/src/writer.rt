//! The list of tokens that is written.

ghost use Rattle.std.specs.Prelude.{◌≡◌, ◌∷◌, [], map, OnOk};
ghost use Rattle.typing.specs.Tokens.{if_written, listed, maybe};
ghost use Rattle.condition_printer.specs.Trees.{Puts};

use items::{Items, Text};
use lexer::{Kind, Name, Number, Symbol, Word};
use std::alloc::{AllocError, Global};
use std::marker::Model;

/// Writes tokens at the end of a list. Contracts see it as that list. After a refusal, which is for
/// want of memory alone, some tokens of the part may be in it.
#[derive(Drop)]
pub struct Writer {
    alloc: Global,
    kinds: Items<Kind>,
}

impl Model for Writer {
    ghost use Rattle.std.specs.Prelude.{List};
    ghost use Rattle.lexer.specs.declared.kinds.Kind.{Kind};

    ghost Value = { List Kind };

    ghost view = { λ writer. writer.kinds };
}

/// A part that holds no tree, and its tokens.
pub trait Part {
    ghost use Rattle.ast.specs.Notation.{Tokens};

    ghost tokens: { Self → Tokens };

    /// Writes the tokens of the part.
    fn write(&self, writer: &mut Writer) -> Result<(), AllocError>
        ensures { OnOk result (Puts (tokens self.now) writer.old writer.new) };
}

impl Writer {
    /// A writer of no tokens.
    pub fn new(alloc: Global) -> Writer
        ensures { result ≡ [] }
    {
        Writer {
            alloc,
            kinds: Items::new(alloc),
        }
    }

    /// What was written.
    pub fn into_kinds(self) -> Items<Kind>
        ensures { result ≡ self }
    {
        let Writer { kinds, .. } = self;
        kinds
    }

    fn push(&mut self, kind: Kind) -> Result<(), AllocError>
        ensures { OnOk result (Puts (kind ∷ []) self.old self.new) }
    {
        self.kinds.push(kind)
    }

    /// Writes a word.
    pub fn word(&mut self, word: Word) -> Result<(), AllocError>
        ensures { OnOk result (Puts (Kind.Word word ∷ []) self.old self.new) }
    {
        self.push(Kind::Word(word))
    }

    /// Writes a symbol.
    pub fn symbol(&mut self, symbol: Symbol) -> Result<(), AllocError>
        ensures { OnOk result (Puts (Kind.Symbol symbol ∷ []) self.old self.new) }
    {
        self.push(Kind::Symbol(symbol))
    }

    /// Writes a number.
    pub fn number(&mut self, number: Number) -> Result<(), AllocError>
        ensures { OnOk result (Puts (Kind.Number number ∷ []) self.old self.new) }
    {
        self.push(Kind::Number(number))
    }

    /// Writes a name.
    pub fn name(&mut self, name: &Name) -> Result<(), AllocError>
        ensures { OnOk result (Puts (Kind.Name name.now ∷ []) self.old self.new) }
    {
        let name = name.copy(self.alloc)?;
        self.push(Kind::Name(name))
    }

    /// Writes a string.
    pub fn text(&mut self, text: &Text) -> Result<(), AllocError>
        ensures { OnOk result (Puts (Kind.Text text.now ∷ []) self.old self.new) }
    {
        let text = text.copy(self.alloc)?;
        self.push(Kind::Text(text))
    }

    /// Writes a word that may be left out.
    pub fn word_if(&mut self, is_written: bool, word: Word) -> Result<(), AllocError>
        ensures { OnOk result (Puts (if_written is_written (Kind.Word word)) self.old self.new) }
    {
        if is_written { self.word(word) } else { Ok(()) }
    }

    /// Writes a part that may be left out.
    pub fn maybe<P: Part>(&mut self, part: &Option<P>) -> Result<(), AllocError>
        ensures { OnOk result (Puts (maybe P.tokens part.now) self.old self.new) }
    {
        match part {
            None => Ok(()),
            Some(part) => part.write(self),
        }
    }

    /// Writes parts with commas between them.
    pub fn list<P: Part>(&mut self, parts: &[P]) -> Result<(), AllocError>
        ensures { OnOk result (Puts (listed (map P.tokens parts.now)) self.old self.new) }
    {
        if let [first, others @ ..] = parts {
            first.write(self)?;
            for part in others {
                self.symbol(Symbol::Comma)?;
                part.write(self)?;
            }
        }
        Ok(())
    }
}
