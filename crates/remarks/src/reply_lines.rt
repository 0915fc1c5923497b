//! The refusals among replies, and what is said of each.
ghost use Rattle.std.specs.Prelude.{◌≡◌, ◌≤◌};

use crate::meanings::meaning_of;
use crate::script_lines::StatementLine;
use std::io;
use std::io::Write;

/// What stands before a refusal. No row begins so: a text stands in quotes.
const REFUSED: &[u8] = b"ERROR ";

/// How many bytes of a line are kept: more than a refusal has.
const KEPT: usize = 200;

/// Hands on the text of replies, and says of each refusal in it what it means, with the line at
/// which its statement begins. Where that cannot be said, it is not.
#[derive(Drop)]
pub struct ReplyWriter<'a, W, P> {
    writer: W,
    watch: Watch<'a, P>,
}

impl<'a, W, P> ReplyWriter<'a, W, P> {
    /// Says it on the errors of this runtime.
    pub fn new(writer: W, errors: P, statement: &'a StatementLine) -> ReplyWriter<'a, W, P>
        ensures { result.writer ≡ writer }
    {
        let watch = Watch {
            errors,
            statement,
            line: [0; KEPT],
            length: 0,
        };
        ReplyWriter { writer, watch }
    }
}

impl<'a, W: Write, P: Eprint> Write for ReplyWriter<'a, W, P> {
    ghost contents = { λ s. W.contents s.writer };

    fn write(&mut self, buf: &[u8]) -> io::Result<usize> {
        match self.writer.write(buf) {
            Ok(count) => {
                self.watch.pass(&buf[..count]);
                Ok(count)
            }
            Err(error) => Err(error),
        }
    }

    fn flush(&mut self) -> io::Result<()> {
        self.writer.flush()
    }
}

/// The beginning of the line that is written.
#[derive(Drop)]
struct Watch<'a, P> {
    errors: P,
    statement: &'a StatementLine,
    line: [u8; KEPT],
    length: usize,
    ghost kept: { length ≤ 200 },
}

impl<'a, P: Eprint> Watch<'a, P> {
    /// Goes on by bytes that were written.
    fn pass(&mut self, written: &[u8]) {
        for byte in written {
            self.take(*byte);
        }
    }

    /// Goes on by a byte.
    fn take(&mut self, byte: u8) {
        if byte == b'\n' {
            self.tell();
            self.length = 0;
        } else if self.length < KEPT {
            self.line[self.length] = byte;
            self.length += 1;
        }
    }

    /// Says what the line means, where it is a refusal.
    fn tell(&self) {
        let line = &self.line[..self.length];
        let Some(refusal) = line.strip_prefix(REFUSED) else {
            return;
        };
        let Ok(refusal) = str::from_utf8(refusal) else {
            return;
        };
        let meaning = meaning_of(refusal);
        let _ = match self.statement.get() {
            Some(number) => eprintln!(self.errors; "line {number}: {refusal}: {meaning}"),
            None => eprintln!(self.errors; "{refusal}: {meaning}"),
        };
    }
}
