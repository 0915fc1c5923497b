ghost use Rattle.std.specs.Prelude.{◌≡◌, [], ◌∷◌, ◌++◌, IfOk};
ghost use Rattle.script_pieces.specs.PieceMeaning.{text_of_call};

use std::alloc::{AllocError, Global};
use std::marker::Model;

/// The greatest number of bytes that a buffer keeps: one more than a statement may have.
pub(crate) const CAPACITY: usize = 65_537;

/// The first bytes of a text, at most 65,537 of them, in memory that is taken once.
#[derive(Drop)]
pub(crate) struct TextBuffer {
    bytes: Vec<u8>,
    length: usize,
}

impl Model for TextBuffer {
    ghost use Rattle.std.specs.Prelude.{◌≡◌, ◌≤◌, ℕ, List, take, vec_len};
    ghost use Rattle.std.specs.Coded.{coded_ℕ, coded_list};

    ghost Value = { List ℕ };

    ghost coded = { coded_list coded_ℕ };

    ghost view = { λ buffer. take buffer.length buffer.bytes.items };

    ghost invariant = { λ buffer. (vec_len buffer.bytes ≡ 65537) × (buffer.length ≤ 65537) };
}

impl TextBuffer {
    /// An empty buffer. Refuses for want of memory alone.
    pub(crate) fn new(alloc: Global) -> Result<TextBuffer, AllocError>
        ensures { IfOk result (λ buffer. buffer ≡ []) }
    {
        Ok(TextBuffer {
            bytes: vec![in alloc; 0; CAPACITY]?,
            length: 0,
        })
    }

    /// Puts a byte at the end, unless the buffer is full.
    pub(crate) fn push(&mut self, byte: u8)
        ensures { self.new ≡ text_of_call (self.old ++ byte ∷ []) }
    {
        if self.length < CAPACITY {
            self.bytes[self.length] = byte;
            self.length += 1;
        }
    }

    /// Drops all bytes.
    pub(crate) fn clear(&mut self)
        ensures { self.new ≡ [] }
    {
        self.length = 0;
    }

    /// The bytes.
    pub(crate) fn as_slice(&self) -> &[u8]
        ensures { result.now ≡ text_of_call self.now }
    {
        &self.bytes[..self.length]
    }
}
