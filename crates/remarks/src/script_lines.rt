//! The line at which the statement that is read begins.
ghost use Rattle.std.specs.Prelude.{◌≡◌, IfOk};

use script_pieces::Cutter;
use std::alloc::{AllocError, Global};
use std::cell::Cell;
use std::io;
use std::io::Read;

/// The line of a script, from 1, at which the statement begins whose bytes were read last. A
/// `ScriptReader` keeps it, and a `ReplyWriter` says it. By default none has begun.
#[derive(Default, Drop)]
pub struct StatementLine {
    /// 0 where no statement has begun.
    number: Cell<u64>,
}

impl StatementLine {
    /// The line, where a statement has begun.
    pub(crate) fn get(&self) -> Option<u64> {
        match self.number.get() {
            0 => None,
            number => Some(number),
        }
    }
}

/// Hands on the bytes of a script, one in each read, and keeps the line at which the statement
/// begins to which they belong. So whoever answers each statement before it reads on has its line
/// meanwhile.
///
/// A piece begins at its first byte that is no white space and in no comment, and one that chooses
/// a session at the end of its choice.
#[derive(Drop)]
pub struct ScriptReader<'a, R> {
    reader: R,
    place: Place<'a>,
}

impl<'a, R: Drop> ScriptReader<'a, R> {
    /// Over a script of which nothing was read. Refuses for want of memory alone.
    pub fn new(
        alloc: Global,
        reader: R,
        statement: &'a StatementLine,
    ) -> Result<ScriptReader<'a, R>, AllocError>
        ensures { IfOk result (λ made. made.reader ≡ reader) }
    {
        match Place::new(alloc, statement) {
            Ok(place) => Ok(ScriptReader { reader, place }),
            Err(error) => Err(error),
        }
    }
}

impl<'a, R: Read> Read for ScriptReader<'a, R> {
    ghost remaining = { λ s. R.remaining s.reader };

    fn read(&mut self, buf: &mut [u8]) -> io::Result<usize> {
        if buf.is_empty() {
            return Ok(0);
        }
        match self.reader.read(&mut buf[..1]) {
            Ok(count) => {
                self.place.pass(&buf[..count]);
                Ok(count)
            }
            Err(error) => Err(error),
        }
    }
}

/// How far a script was read.
#[derive(Drop)]
struct Place<'a> {
    statement: &'a StatementLine,
    cutter: Cutter,
    /// Whether the byte that was read last ended its piece.
    is_over: bool,
    /// The line of the next byte, from 1.
    line: u64,
}

impl<'a> Place<'a> {
    /// At the beginning of a script.
    fn new(alloc: Global, statement: &'a StatementLine) -> Result<Place<'a>, AllocError> {
        match Cutter::new(alloc) {
            Ok(cutter) => Ok(Place {
                statement,
                cutter,
                is_over: false,
                line: 1,
            }),
            Err(error) => Err(error),
        }
    }

    /// Goes on by what was read: some bytes, or none at the end.
    fn pass(&mut self, read: &[u8]) {
        if read.is_empty() {
            self.leave();
        }
        for byte in read {
            self.leave();
            self.take(*byte);
        }
    }

    /// Leaves the piece, where it is over.
    fn leave(&mut self) {
        if self.is_over {
            self.is_over = false;
            self.cutter.clear();
            self.statement.number.set(0);
        }
    }

    /// Goes on by a byte.
    fn take(&mut self, byte: u8) {
        self.is_over = self.cutter.take(byte).is_some();
        let has_begun = self.is_over || !self.cutter.text().is_empty();
        if has_begun && self.statement.get().is_none() {
            self.statement.number.set(self.line);
        }
        if byte == b'\n' {
            self.line = self.line.saturating_add(1);
        }
    }
}
