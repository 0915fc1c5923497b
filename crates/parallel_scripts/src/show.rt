//! What is printed of scripts.
ghost use Rattle.std.specs.Prelude.{◌≡◌, ℕ, List, [], ◌∷◌, is_ok, IfOk, MatchOption};
ghost use Rattle.std.specs.Vec.Iter.{into_iter_items};
ghost use Rattle.replies.specs.Writes.{Writes};
ghost use Rattle.parallel_scripts.specs.declared.part.Part.{Part as Kind};
ghost use Rattle.parallel_scripts.specs.Shown.{has_refusal, printed_number, printed_replies, printed_script, printed_scripts, replies_to, reply_of, some_refused};

use crate::part::Part;
use crate::put::put_three;
use itoa::Buffer;
use refusals::{Reason, Refusal};
use replies::{Reply, print_reply};
use shared::Answers;
use std::io;
use std::io::Write;
use std::vec::IntoIter;

/// Prints for each script a line with its number, from 1, and the replies to its pieces, in order.
/// Tells whether one of them is a refusal.
pub(crate) fn show_all<W: Write>(
    parts: &[Vec<Part>],
    all: Vec<Answers>,
    writer: &mut W,
) -> io::Result<bool>
    ensures writes { Writes (W.contents writer.old) (W.contents writer.new) (is_ok result) (printed_scripts 1 parts.now all.items) }
    ensures refused { IfOk result (λ refused. refused ≡ some_refused parts.now all.items) }
{
    let mut refused = false;
    let mut left = all.into_iter();
    for place in 0..parts.len() {
        let Some(answers) = next_answers(&mut left) else {
            return Ok(refused);
        };
        let one = show_script(place as u64 + 1, parts[place].as_slice(), answers, writer)?;
        refused = refused || one;
    }
    Ok(refused)
}

/// The answers to the next script.
fn next_answers(left: &mut IntoIter<Answers>) -> Option<Answers>
    ensures { MatchOption result (into_iter_items left.old ≡ []) (λ answers. into_iter_items left.old ≡ answers ∷ into_iter_items left.new) }
{
    left.next()
}

/// Prints the line of a script, and the replies to its pieces. Tells whether one of them is a
/// refusal.
fn show_script<W: Write>(
    number: u64,
    parts: &[Part],
    answers: Answers,
    writer: &mut W,
) -> io::Result<bool>
    ensures writes { Writes (W.contents writer.old) (W.contents writer.new) (is_ok result) (printed_script number parts.now answers.items) }
    ensures refused { IfOk result (λ refused. refused ≡ has_refusal (replies_to parts.now answers.items)) }
{
    show_number(number, writer)?;
    show(parts, answers, writer)
}

/// Prints the line of a script.
fn show_number<W: Write>(number: u64, writer: &mut W) -> io::Result<()>
    ensures { Writes (W.contents writer.old) (W.contents writer.new) (is_ok result) (printed_number number) }
{
    put_three(
        b"-- ",
        Buffer::new().format(number).as_bytes(),
        b"\n",
        writer,
    )
}

/// Prints the replies to the pieces of a script: a call's answer, or `session` for a piece that is
/// wrong. Tells whether one is a refusal.
fn show<W: Write>(parts: &[Part], answers: Answers, writer: &mut W) -> io::Result<bool>
    ensures writes { Writes (W.contents writer.old) (W.contents writer.new) (is_ok result) (printed_replies (replies_to parts.now answers.items)) }
    ensures refused { IfOk result (λ refused. refused ≡ has_refusal (replies_to parts.now answers.items)) }
{
    let mut refused = false;
    let mut left = answers.into_iter();
    for part in parts {
        let reply = next_reply(*part, &mut left);
        refused = refused || reply.is_refused();
        print_reply(&reply, writer)?;
    }
    Ok(refused)
}

/// The reply to a piece: the next answer, where it is a call.
fn next_reply(part: Part, answers: &mut IntoIter<Result<Reply, Refusal>>) -> Reply
    ensures { (parts : List Kind)
        → replies_to (part ∷ parts) (into_iter_items answers.old) ≡ result ∷ replies_to parts (into_iter_items answers.new) }
{
    match part {
        Part::Wrong => Reply::Refused(Refusal::Invalid(Reason::Session)),
        Part::Calls => match answers.next() {
            Some(answer) => reply_of(answer),
            None => Reply::Refused(Refusal::Invalid(Reason::Session)),
        },
    }
}

/// The reply to a text: where no session was made for it, the refusal.
fn reply_of(answer: Result<Reply, Refusal>) -> Reply
    ensures { result ≡ reply_of answer }
{
    match answer {
        Ok(reply) => reply,
        Err(refusal) => Reply::Refused(refusal),
    }
}
