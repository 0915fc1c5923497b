ghost use Rattle.std.specs.Prelude.{◌≡◌, ◌≢◌, ◌≤◌, ◌↔◌, ◌+◌, ◌*◌, ◌-◌, ◌++◌, List, ℕ, IsTrue, min};
ghost use Rattle.script_pieces.specs.declared.place.Place.{Place};
ghost use Rattle.script_pieces.specs.PieceMeaning.{IsDigit, text_of_call};
ghost use Rattle.script_pieces.specs.Cutter.{Steps, IsEnd, WouldAsk, asked, MayGoOn};

use super::buffer::TextBuffer;
use super::place::Place;
use super::request::Request;

/// How far a piece has been understood.
#[derive(Clone, Copy, PartialEq, Eq)]
pub(crate) enum Stage {
    /// White space and comments.
    Blank,
    /// `@`.
    At,
    /// `@` and digits of this value, where it is at most 65.
    Digits(usize),
    /// `@` and so many letters of `flush`, from 1 to 4.
    Flush(usize),
    /// `@flush`, and then white space and comments.
    AfterFlush,
    /// This session is chosen; then white space and comments.
    BlankText(usize),
    /// The text of a call, and the session that is chosen before it.
    Text(Option<usize>),
    /// It begins with `@` and asks for nothing that there is.
    Wrong,
}

const FLUSH: &[u8] = b"flush";

/// The greatest number of a session.
const GREATEST_SESSION: usize = 64;

/// The stage after a byte that does not end the piece, which goes to the text where it belongs to a
/// call's.
pub(crate) fn stage_after(place: Place, stage: Stage, text: &mut TextBuffer, byte: u8) -> Stage
    requires { MayGoOn place byte }
    ensures { Steps place stage text.old byte result text.new }
{
    match stage {
        Stage::Blank => after_blank(place, text, byte),
        Stage::At => after_at(byte),
        Stage::Digits(value) => after_digits(place, value, text, byte),
        Stage::Flush(letters) => after_letters(letters, byte),
        Stage::AfterFlush => after_flush(place, byte),
        Stage::BlankText(session) => after_session(place, session, text, byte),
        Stage::Text(session) => {
            text.push(byte);
            Stage::Text(session)
        }
        Stage::Wrong => Stage::Wrong,
    }
}

fn after_blank(place: Place, text: &mut TextBuffer, byte: u8) -> Stage
    requires { MayGoOn place byte }
    ensures { Steps place Stage.Blank text.old byte result text.new }
{
    if place.goes_on_blank(byte) {
        return Stage::Blank;
    }
    match place {
        Place::AfterMinus => text.push(b'-'),
        _ if byte == b'@' => return Stage::At,
        _ => {}
    }
    text.push(byte);
    Stage::Text(None)
}

fn after_at(byte: u8) -> Stage
    ensures { (place : Place) (text : List ℕ) → MayGoOn place byte → Steps place Stage.At text byte result text }
{
    if byte.is_ascii_digit() {
        Stage::Digits(with_digit(0, byte))
    } else if byte == b'f' {
        Stage::Flush(1)
    } else {
        Stage::Wrong
    }
}

fn after_digits(place: Place, value: usize, text: &mut TextBuffer, byte: u8) -> Stage
    requires { MayGoOn place byte }
    ensures { Steps place (Stage.Digits value) text.old byte result text.new }
{
    if byte.is_ascii_digit() {
        return Stage::Digits(with_digit(value, byte));
    }
    if byte.is_ascii_alphabetic() || byte == b'_' {
        return Stage::Wrong;
    }
    if is_session(value) {
        after_session(place, value, text, byte)
    } else {
        Stage::Wrong
    }
}

fn after_letters(letters: usize, byte: u8) -> Stage
    ensures { (place : Place) (text : List ℕ) → MayGoOn place byte
        → Steps place (Stage.Flush letters) text byte result text }
{
    if letters >= FLUSH.len() {
        return Stage::Wrong;
    }
    let letter = FLUSH[letters];
    if letter != byte {
        Stage::Wrong
    } else if letters < 4 {
        Stage::Flush(letters + 1)
    } else {
        Stage::AfterFlush
    }
}

fn after_flush(place: Place, byte: u8) -> Stage
    requires { MayGoOn place byte }
    ensures { (text : List ℕ) → Steps place Stage.AfterFlush text byte result text }
{
    if place.goes_on_blank(byte) {
        Stage::AfterFlush
    } else {
        Stage::Wrong
    }
}

fn after_session(place: Place, session: usize, text: &mut TextBuffer, byte: u8) -> Stage
    requires { MayGoOn place byte }
    ensures { Steps place (Stage.BlankText session) text.old byte result text.new }
{
    text.push(byte);
    if place.goes_on_blank(byte) {
        Stage::BlankText(session)
    } else {
        Stage::Text(Some(session))
    }
}

/// What the piece asks for where it ends here: a minus at its end is none of a comment.
pub(crate) fn request_at_end(place: Place, stage: Stage, text: &mut TextBuffer) -> Request
    ensures { (tail : List ℕ) → IsEnd place tail
        → WouldAsk place stage text.old tail (asked result (text_of_call (text.new ++ tail))) }
{
    if place.is_after_minus() {
        request_after_minus(place, stage, text)
    } else {
        request_after(place, stage)
    }
}

fn request_after_minus(place: Place, stage: Stage, text: &mut TextBuffer) -> Request
    requires { place ≡ Place.AfterMinus }
    ensures { (tail : List ℕ) → IsEnd place tail
        → WouldAsk place stage text.old tail (asked result (text_of_call (text.new ++ tail))) }
{
    match stage {
        Stage::Blank => {
            text.push(b'-');
            Request::Calls(None)
        }
        Stage::AfterFlush => Request::Wrong,
        Stage::BlankText(session) => Request::Calls(Some(session)),
        Stage::Text(session) => Request::Calls(session),
        Stage::At | Stage::Digits(_) | Stage::Flush(_) | Stage::Wrong => Request::Wrong,
    }
}

fn request_after(place: Place, stage: Stage) -> Request
    requires { place ≢ Place.AfterMinus }
    ensures { (text tail : List ℕ) → IsEnd place tail
        → WouldAsk place stage text tail (asked result (text_of_call (text ++ tail))) }
{
    match stage {
        Stage::Blank => Request::Nothing,
        Stage::Digits(value) => choice(value),
        Stage::At => Request::Wrong,
        Stage::Flush(_) => Request::Wrong,
        Stage::Wrong => Request::Wrong,
        Stage::AfterFlush => Request::Flushes,
        Stage::BlankText(session) => Request::Chooses(session),
        Stage::Text(session) => Request::Calls(session),
    }
}

/// The choice of the session of this number.
fn choice(number: usize) -> Request
    ensures { (place : Place) (text tail call : List ℕ) → IsEnd place tail
        → WouldAsk place (Stage.Digits number) text tail (asked result call) }
{
    if is_session(number) {
        Request::Chooses(number)
    } else {
        Request::Wrong
    }
}

/// The value of the digits with one more digit, or 65 where it is greater than 64.
fn with_digit(value: usize, digit: u8) -> usize
    requires { IsDigit digit }
    ensures { result ≡ min 65 (value * 10 + (digit - 48)) }
{
    if value > GREATEST_SESSION {
        return GREATEST_SESSION + 1;
    }
    let next = 10 * value + usize::from(digit - b'0');
    next.min(GREATEST_SESSION + 1)
}

/// Whether there may be a session of this number.
fn is_session(number: usize) -> bool
    ensures { IsTrue result ↔ ((1 ≤ number) × (number ≤ 64)) }
{
    1 <= number && number <= GREATEST_SESSION
}
