use super::buffer::TextBuffer;
use super::place::Place;
use super::request::Request;
use super::stage::{Stage, request_at_end, stage_after};
use std::alloc::{AllocError, Global};

/// Reads an input byte by byte and finds its pieces.
#[derive(Drop)]
pub struct Cutter {
    place: Place,
    stage: Stage,
    text: TextBuffer,
}

impl Cutter {
    ghost use Rattle.std.specs.Prelude.{◌≡◌, [], true, IfOk, IfSome, IfNone};
    ghost use Rattle.script_pieces.specs.Pieces.{semicolon};
    ghost use Rattle.script_pieces.specs.Place.{is_outside};
    ghost use Rattle.script_pieces.specs.Cutter.{HasRead, call_text, MayGoOn, GoesOn, EndsAt, EndsWithout};

    /// At the beginning of a piece. Refuses for want of memory alone.
    pub fn new(alloc: Global) -> Result<Cutter, AllocError>
        ensures { IfOk result (HasRead []) }
    {
        Ok(Cutter {
            place: Place::Outside,
            stage: Stage::Blank,
            text: TextBuffer::new(alloc)?,
        })
    }

    /// The text of the call that the piece asks for: its first 65,537 bytes.
    pub fn text(&self) -> &[u8]
        ensures { result.now ≡ call_text self.now }
    {
        self.text.as_slice()
    }

    /// Begins a new piece.
    pub fn clear(&mut self)
        ensures { HasRead [] self.new }
    {
        self.place = Place::Outside;
        self.stage = Stage::Blank;
        self.text.clear();
    }

    /// Takes the next byte, and says what the piece asks for where this byte ends it; `text` is
    /// then the text of its call.
    pub fn take(&mut self, byte: u8) -> Option<Request>
        ensures goes_on { IfNone result (GoesOn self.old byte self.new) }
        ensures ends { IfSome result (λ request. EndsAt self.old byte request self.new) }
    {
        if byte == b';' && self.place.is_outside() {
            return Some(self.end());
        }
        self.step(byte);
        None
    }

    /// Ends the piece with a semicolon, which belongs to a call's text.
    fn end(&mut self) -> Request
        requires { is_outside self.old.place ≡ true }
        ensures { EndsAt self.old semicolon result self.new }
    {
        let request = request_at_end(self.place, self.stage, &mut self.text);
        self.text.push(b';');
        request
    }

    fn step(&mut self, byte: u8)
        requires { MayGoOn self.old.place byte }
        ensures { GoesOn self.old byte self.new }
    {
        self.stage = stage_after(self.place, self.stage, &mut self.text, byte);
        self.place = self.place.after(byte);
    }

    /// What the last piece asks for, which no semicolon ends.
    pub fn finish(&mut self) -> Request
        ensures { EndsWithout self.old result self.new }
    {
        request_at_end(self.place, self.stage, &mut self.text)
    }
}
