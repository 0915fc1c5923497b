//! The records of a CSV, counted while they are read or written.
ghost use Rattle.std.specs.Prelude.{◌≡◌, ◌≤◌, length};

use std::io;
use std::io::{Read, Write};
use std::time::{Clock, Instant};

/// How many bytes are written at once where records are counted.
const PIECE: usize = 65_536;

/// Hands on the bytes of a CSV, and says now and then how many of its records were read.
#[derive(Drop)]
pub struct RecordReader<R, P> {
    reader: R,
    records: Records<P>,
}

impl<R, P: Eprint + Clock> RecordReader<R, P> {
    /// Says it on the errors of this runtime, where it is asked for.
    pub fn new(reader: R, rt: P, is_verbose: bool) -> RecordReader<R, P>
        ensures { result.reader ≡ reader }
    {
        RecordReader {
            reader,
            records: Records::new(rt, "read", is_verbose),
        }
    }
}

impl<R: Read, P: Eprint + Clock> Read for RecordReader<R, P> {
    ghost remaining = { λ s. R.remaining s.reader };

    fn read(&mut self, buf: &mut [u8]) -> io::Result<usize> {
        match self.reader.read(buf) {
            Ok(count) => {
                self.records.pass(&buf[..count]);
                Ok(count)
            }
            Err(error) => Err(error),
        }
    }
}

/// Hands on the bytes of a CSV, and says now and then how many of its records were written.
#[derive(Drop)]
pub struct RecordWriter<W, P> {
    writer: W,
    records: Records<P>,
}

impl<W, P: Eprint + Clock> RecordWriter<W, P> {
    /// Says it on the errors of this runtime, where it is asked for.
    pub fn new(writer: W, rt: P, is_verbose: bool) -> RecordWriter<W, P>
        ensures { result.writer ≡ writer }
    {
        RecordWriter {
            writer,
            records: Records::new(rt, "written", is_verbose),
        }
    }
}

impl<W: Write, P: Eprint + Clock> Write for RecordWriter<W, P> {
    ghost contents = { λ s. W.contents s.writer };

    fn write(&mut self, buf: &[u8]) -> io::Result<usize> {
        let most = self.records.most_at_once(buf);
        match self.writer.write(&buf[..most]) {
            Ok(count) => {
                self.records.pass(&buf[..count]);
                Ok(count)
            }
            Err(error) => Err(error),
        }
    }

    fn flush(&mut self) -> io::Result<()> {
        self.writer.flush()
    }
}

/// How many records there were so far.
#[derive(Drop)]
struct Records<P> {
    rt: P,
    /// What was done with them.
    done: &'static str,
    /// When it was said last, or the count began; none where nothing is to be said.
    told: Option<Instant>,
    count: u64,
    is_quoted: bool,
}

impl<P: Eprint + Clock> Records<P> {
    /// None so far. Where the clock refuses, nothing is said.
    fn new(rt: P, done: &'static str, is_verbose: bool) -> Records<P> {
        let told = if is_verbose { now(&rt) } else { None };
        Records {
            rt,
            done,
            told,
            count: 0,
            is_quoted: false,
        }
    }

    /// How many of these bytes are written at once.
    fn most_at_once(&self, bytes: &[u8]) -> usize
        ensures { result ≤ length bytes.now }
    {
        if self.told.is_some() {
            bytes.len().min(PIECE)
        } else {
            bytes.len()
        }
    }

    /// Goes on by bytes that were read or written, and says how many records there were, where it
    /// was not said for a second.
    fn pass(&mut self, bytes: &[u8]) {
        let Some(told) = self.told else {
            return;
        };
        for byte in bytes {
            self.take(*byte);
        }
        if let Some(now) = now(&self.rt) {
            if now.duration_since(told).as_secs() >= 1 {
                let (count, done) = (self.count, self.done);
                let _ = eprintln!(self.rt; "{count} records {done}");
                self.told = Some(now);
            }
        }
    }

    /// Goes on by a byte: a line feed outside quotes ends a record.
    fn take(&mut self, byte: u8) {
        if byte == b'"' {
            self.is_quoted = !self.is_quoted;
        } else if byte == b'\n' && !self.is_quoted {
            self.count = self.count.saturating_add(1);
        }
    }
}

/// The time, where the clock gives it.
fn now<C: Clock>(clock: &C) -> Option<Instant> {
    match Instant::now(clock) {
        Ok(now) => Some(now),
        Err(_) => None,
    }
}
