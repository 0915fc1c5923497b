//! A script: the pieces of an input, carried out in order.
ghost use Rattle.std.specs.Prelude.{◌≡◌, ◌≤◌, ◌<◌, ◌-◌, ◌++◌, ℕ, false, List, length, is_ok, Option, IfOk, IfErr, IfSome, MatchResult};
ghost use Rattle.std.specs.Io.KnownBytes.{Consumes, Keeps, ReadConsumes};
ghost use Rattle.replies.specs.Writes.{IsNoInterruption};
ghost use Rattle.script_pieces.specs.PieceMeaning.{Asks};
ghost use Rattle.script_pieces.specs.Pieces.{AreEnded};
ghost use Rattle.script_pieces.specs.Cutter.{asked, call_text};
ghost use Rattle.session_definitions.specs.Rules.{Rules, AreRules};
ghost use Rattle.session_definitions.specs.Script.{EndsSessions, Performs, Plays, RepliesToFlush};
ghost use Rattle.sessions.specs.OfCore.{IsSound, world_of};
ghost use Rattle.transactions.specs.Refused.{Counts, IfRefused, TellsReached};
ghost use Rattle.scripts.specs.Settled.{HasNoSession, HoldAll, IsCommitted, IsKept, IsKeptBy, IsSettled, store_of};
ghost use Rattle.scripts.specs.ToldLimits.{Ever, TextReaches, RequestReaches, UpTo};
ghost use Rattle.scripts.specs.Played.{between, IsNotInterrupted, RunsInPart, RunsWhole};
ghost use Rattle.scripts.specs.Shown.{Prints, ShowsEarly, ShowsWhole};
ghost use Rattle.scripts.specs.Playing.{AfterTurn, AreLive, FindsNone, FindsSession, HasEnded, HasFailed, HasFinished, HasStopped, IsCarriedOut, IsPlaying, IsReading, IsReady, Start, numbers_of, scene_of};

use refusals::{Reason, Refusal};
use replies::{Reply, print_reply};
use script_pieces::{Cutter, Request};
use session_laws::databases_stay_good;
use sessions::{Changes, Core, Language, SessionId};
use std::alloc::Global;
use std::io;
use std::io::{ErrorKind, Read, Write};
use store::Store;
use thiserror::Error;

/// The greatest number of a session of a script.
const SESSIONS: usize = 64;

/// Bytes that are asked of the reader at once.
const CHUNK: usize = 4_096;

/// What ended a script before its end.
#[derive(Debug, Drop, Error)]
pub enum ScriptFault {
    /// There was no memory for the text of a statement.
    #[error("no memory for the text of a statement")]
    Memory,
    /// The reader refused.
    #[error("the input was refused: {0}")]
    Reader(io::Error),
    /// The writer refused.
    #[error("the output was refused: {0}")]
    Writer(io::Error),
}

/// The sessions of a script, the one that is chosen, and whether a reply was a refusal.
#[derive(Drop)]
struct Sessions {
    standing: [Option<SessionId>; SESSIONS],
    /// Its place among them, one less than its number.
    chosen: usize,
    refused: bool,
}

/// Reads a script, makes the calls of its pieces in order and prints each reply; then ends its
/// sessions.
///
/// The answer tells whether a reply was a refusal. After a fault of the reader only the pieces that
/// ended before it were carried out, and after one of the writer no later piece; of the text of the
/// replies a beginning was then written. Without memory nothing is read, written or called. A read
/// or a write that was interrupted is tried again. However it ends, what is not committed is rolled
/// back: where no session stood before, none stands after it. Each reply X0002 has a call of its
/// own that the device refused; the limits `pages`, `private` and `kept` are told only of a change,
/// or of a COMMIT.
pub fn run<S: Store, L: Language + Changes<S>, R: Read, W: Write>(
    alloc: Global,
    core: &mut Core<S, L>,
    reader: &mut R,
    writer: &mut W,
) -> Result<bool, ScriptFault>
    ensures shows { MatchResult result (λ refused. ShowsWhole (between (R.remaining reader.old) (R.remaining reader.new) (W.contents writer.old) (W.contents writer.new))
        (S.refused (store_of core.old)) refused (S.refused (store_of core.new)))
        (λ fault. ShowsEarly (between (R.remaining reader.old) (R.remaining reader.new) (W.contents writer.old) (W.contents writer.new))
        (S.refused (store_of core.old)) fault (S.refused (store_of core.new))) }
    ensures plays { (rules : Rules) → AreRules rules → IsSettled S.is_sound S.shows rules.check core.old
        → IfOk result (λ refused. RunsWhole rules (between (R.remaining reader.old) (R.remaining reader.new) (W.contents writer.old) (W.contents writer.new)) (world_of S.shows core.old)
        (S.refused (store_of core.old)) refused (world_of S.shows core.new) (S.refused (store_of core.new))) }
    ensures stopped { (rules : Rules) → AreRules rules → IsSettled S.is_sound S.shows rules.check core.old
        → IfErr result (λ fault. RunsInPart rules (between (R.remaining reader.old) (R.remaining reader.new) (W.contents writer.old) (W.contents writer.new)) (world_of S.shows core.old)
        (S.refused (store_of core.old)) fault (world_of S.shows core.new) (S.refused (store_of core.new))) }
    ensures untouched { IfErr result (λ fault. fault ≡ ScriptFault.Memory
        → (reader.new ≡ reader.old) × (writer.new ≡ writer.old) × (core.new ≡ core.old)) }
    ensures tried_again { IfErr result IsNotInterrupted }
    ensures ended { HasNoSession (world_of S.shows core.old) → HasNoSession (world_of S.shows core.new) }
    ensures settled { (rules : Rules) → AreRules rules → IsSettled S.is_sound S.shows rules.check core.old
        → IsSettled S.is_sound S.shows rules.check core.new }
    ensures committed { (rules : Rules) → AreRules rules → IsSettled S.is_sound S.shows rules.check core.old
        → IsCommitted S.shows core.new }
    ensures counts { S.refused (store_of core.old) ≤ S.refused (store_of core.new) }
{
    let mut cutter = match Cutter::new(alloc) {
        Ok(cutter) => cutter,
        Err(_) => return Err(ScriptFault::Memory),
    };
    let mut sessions = Sessions {
        standing: [None; SESSIONS],
        chosen: 0,
        refused: false,
    };
    let mut waits = false;
    let outcome = play(core, &mut cutter, &mut sessions, reader, writer, &mut waits);
    sessions.end(core);
    match outcome {
        Ok(()) => Ok(sessions.refused),
        Err(fault) => Err(fault),
    }
}

/// Carries out all the pieces that the reader gives. `waits` is whether the writer may hold text
/// that it has not passed on: never where the reader is asked for more, nor at the end.
fn play<S: Store, L: Language + Changes<S>, R: Read, W: Write>(
    core: &mut Core<S, L>,
    cutter: &mut Cutter,
    sessions: &mut Sessions,
    reader: &mut R,
    writer: &mut W,
    waits: &mut bool,
) -> Result<(), ScriptFault>
    requires { waits.old ≡ false }
    ensures flushed { IfOk result (λ _. waits.new ≡ false) }
    ensures plays { (start : Start) → IsKeptBy S.is_sound S.shows start.known core.old
        → IsReading start (R.remaining reader.old) (world_of S.shows core.old) cutter.old sessions.old (W.contents writer.old) (S.refused (store_of core.old))
        → MatchResult result (λ _. HasEnded start (R.remaining reader.new) (world_of S.shows core.new) sessions.new (W.contents writer.new) (S.refused (store_of core.new)))
        (λ fault. HasFailed start fault (R.remaining reader.new) (world_of S.shows core.new) sessions.new (W.contents writer.new) (S.refused (store_of core.new))) }
    ensures tried_again { IfErr result IsNotInterrupted }
    ensures kept { (rules : Rules) → AreRules rules → IsKept S.is_sound S.shows rules.check core.old
        → IsKept S.is_sound S.shows rules.check core.new }
    ensures held { HoldAll sessions.old.standing (world_of S.shows core.old)
        → HoldAll sessions.new.standing (world_of S.shows core.new) }
    ensures counts { S.refused (store_of core.old) ≤ S.refused (store_of core.new) }
{
    let mut chunk = [0u8; CHUNK];
    for _ in 0..u64::MAX {
        match turn(core, cutter, sessions, reader, writer, waits, &mut chunk) {
            Ok(true) => {}
            Ok(false) => return Ok(()),
            Err(fault) => return Err(fault),
        }
    }
    Err(ScriptFault::Reader(io::Error::from(ErrorKind::TimedOut)))
}

/// Reads once, and carries out the pieces that end in what was read. The answer is whether the
/// input may go on.
fn turn<S: Store, L: Language + Changes<S>, R: Read, W: Write>(
    core: &mut Core<S, L>,
    cutter: &mut Cutter,
    sessions: &mut Sessions,
    reader: &mut R,
    writer: &mut W,
    waits: &mut bool,
    chunk: &mut [u8],
) -> Result<bool, ScriptFault>
    requires { (0 < length chunk.old) × (waits.old ≡ false) }
    ensures flushed { IfOk result (λ _. waits.new ≡ false) }
    ensures plays { (start : Start) → IsKeptBy S.is_sound S.shows start.known core.old
        → IsReading start (R.remaining reader.old) (world_of S.shows core.old) cutter.old sessions.old (W.contents writer.old) (S.refused (store_of core.old))
        → MatchResult result
        (λ goes_on. AfterTurn goes_on start (R.remaining reader.new) (world_of S.shows core.new) cutter.new sessions.new (W.contents writer.new) (S.refused (store_of core.new)))
        (λ fault. HasFailed start fault (R.remaining reader.new) (world_of S.shows core.new) sessions.new (W.contents writer.new) (S.refused (store_of core.new))) }
    ensures tried_again { IfErr result IsNotInterrupted }
    ensures room { length chunk.new ≡ length chunk.old }
    ensures kept { (rules : Rules) → AreRules rules → IsKept S.is_sound S.shows rules.check core.old
        → IsKept S.is_sound S.shows rules.check core.new }
    ensures held { HoldAll sessions.old.standing (world_of S.shows core.old)
        → HoldAll sessions.new.standing (world_of S.shows core.new) }
    ensures counts { S.refused (store_of core.old) ≤ S.refused (store_of core.new) }
{
    match read_some(reader, chunk) {
        Err(error) => Err(ScriptFault::Reader(error)),
        Ok(0) => match play_last(core, cutter, sessions, writer, waits) {
            Ok(()) => Ok(false),
            Err(error) => Err(ScriptFault::Writer(error)),
        },
        Ok(count) => match play_bytes(core, cutter, sessions, &chunk[..count], writer, waits) {
            Ok(()) => Ok(true),
            Err(error) => Err(ScriptFault::Writer(error)),
        },
    }
}

/// Carries out the last piece, which may lack its semicolon.
fn play_last<S: Store, L: Language + Changes<S>, W: Write>(
    core: &mut Core<S, L>,
    cutter: &mut Cutter,
    sessions: &mut Sessions,
    writer: &mut W,
    waits: &mut bool,
) -> io::Result<()>
    ensures flushed { IfOk result (λ _. waits.new ≡ false) }
    ensures plays { (start : Start) (input : List ℕ) → IsKeptBy S.is_sound S.shows start.known core.old
        → IsPlaying start input (world_of S.shows core.old) cutter.old sessions.old (W.contents writer.old) (S.refused (store_of core.old))
        → HasFinished start input (is_ok result) (world_of S.shows core.new) sessions.new (W.contents writer.new) (S.refused (store_of core.new)) }
    ensures tried_again { IfErr result IsNoInterruption }
    ensures kept { (rules : Rules) → AreRules rules → IsKept S.is_sound S.shows rules.check core.old
        → IsKept S.is_sound S.shows rules.check core.new }
    ensures held { HoldAll sessions.old.standing (world_of S.shows core.old)
        → HoldAll sessions.new.standing (world_of S.shows core.new) }
    ensures counts { S.refused (store_of core.old) ≤ S.refused (store_of core.new) }
{
    let last = cutter.finish();
    match carry_out_piece(core, cutter, sessions, last, writer, waits) {
        Ok(()) => pass_on(writer, waits),
        Err(error) => Err(error),
    }
}

/// Reads at least one byte, or none at the end.
fn read_some<R: Read>(reader: &mut R, chunk: &mut [u8]) -> io::Result<usize>
    ensures count { IfOk result (λ count. count ≤ length chunk.new) }
    ensures bytes { ReadConsumes (R.remaining reader.old) (R.remaining reader.new) result chunk.new }
    ensures tried_again { IfErr result IsNoInterruption }
    ensures room { length chunk.new ≡ length chunk.old }
{
    for _ in 0..u64::MAX {
        match reader.read(chunk) {
            Ok(count) => return Ok(count),
            Err(error) => {
                if error.kind() != ErrorKind::Interrupted {
                    return Err(error);
                }
            }
        }
    }
    Err(io::Error::from(ErrorKind::TimedOut))
}

/// Has the writer pass on what it took.
fn pass_on<W: Write>(writer: &mut W, waits: &mut bool) -> io::Result<()>
    ensures flushed { IfOk result (λ _. waits.new ≡ false) }
    ensures bytes { Keeps (W.contents writer.old) (W.contents writer.new) }
    ensures tried_again { IfErr result IsNoInterruption }
{
    for _ in 0..u64::MAX {
        match writer.flush() {
            Ok(()) => {
                *waits = false;
                return Ok(());
            }
            Err(error) => {
                if error.kind() != ErrorKind::Interrupted {
                    return Err(error);
                }
            }
        }
    }
    Err(io::Error::from(ErrorKind::TimedOut))
}

/// Carries out the pieces that end in these bytes.
fn play_bytes<S: Store, L: Language + Changes<S>, W: Write>(
    core: &mut Core<S, L>,
    cutter: &mut Cutter,
    sessions: &mut Sessions,
    bytes: &[u8],
    writer: &mut W,
    waits: &mut bool,
) -> io::Result<()>
    ensures flushed { IfOk result (λ _. waits.new ≡ false) }
    ensures plays { (start : Start) (input : List ℕ) → IsKeptBy S.is_sound S.shows start.known core.old
        → IsPlaying start input (world_of S.shows core.old) cutter.old sessions.old (W.contents writer.old) (S.refused (store_of core.old))
        → MatchResult result
        (λ _. IsPlaying start (input ++ bytes.now) (world_of S.shows core.new) cutter.new sessions.new (W.contents writer.new) (S.refused (store_of core.new)))
        (λ _. HasStopped start (AreEnded (input ++ bytes.now)) (world_of S.shows core.new) sessions.new (W.contents writer.new) (S.refused (store_of core.new))) }
    ensures tried_again { IfErr result IsNoInterruption }
    ensures kept { (rules : Rules) → AreRules rules → IsKept S.is_sound S.shows rules.check core.old
        → IsKept S.is_sound S.shows rules.check core.new }
    ensures held { HoldAll sessions.old.standing (world_of S.shows core.old)
        → HoldAll sessions.new.standing (world_of S.shows core.new) }
    ensures counts { S.refused (store_of core.old) ≤ S.refused (store_of core.new) }
{
    for byte in bytes {
        if let Some(request) = cutter.take(*byte) {
            match carry_out_piece(core, cutter, sessions, request, writer, waits) {
                Ok(()) => cutter.clear(),
                Err(error) => return Err(error),
            }
        }
    }
    pass_on(writer, waits)
}

/// Carries out what a piece asks for, and prints the reply where there is one.
fn carry_out_piece<S: Store, L: Language + Changes<S>, W: Write>(
    core: &mut Core<S, L>,
    cutter: &Cutter,
    sessions: &mut Sessions,
    request: Request,
    writer: &mut W,
    waits: &mut bool,
) -> io::Result<()>
    ensures told { waits.new ≡ false → writer.new ≡ writer.old }
    ensures carries_out { (known : Option Rules) (piece : List ℕ) → IsKeptBy S.is_sound S.shows known core.old
        → Asks piece (asked request (call_text cutter.now))
        → IsCarriedOut known piece (world_of S.shows core.old) sessions.old (world_of S.shows core.new) sessions.new (W.contents writer.old) (W.contents writer.new)
        (S.refused (store_of core.old)) (S.refused (store_of core.new)) (is_ok result) }
    ensures tried_again { IfErr result IsNoInterruption }
    ensures kept { (rules : Rules) → AreRules rules → IsKept S.is_sound S.shows rules.check core.old
        → IsKept S.is_sound S.shows rules.check core.new }
    ensures held { HoldAll sessions.old.standing (world_of S.shows core.old)
        → HoldAll sessions.new.standing (world_of S.shows core.new) }
    ensures counts { S.refused (store_of core.old) ≤ S.refused (store_of core.new) }
{
    match reply_to(core, cutter, sessions, request) {
        None => Ok(()),
        Some(reply) => {
            sessions.note(&reply);
            *waits = true;
            print_reply(&reply, writer)
        }
    }
}

/// Carries out what a piece asks for; a choice of a session alone has no reply. After a flush that
/// is not refused nothing is left to write. A reply is X0002 only where the device refused a call,
/// and a limit of what the store counts is told only of a change or a COMMIT.
fn reply_to<S: Store, L: Language + Changes<S>>(
    core: &mut Core<S, L>,
    cutter: &Cutter,
    sessions: &mut Sessions,
    request: Request,
) -> Option<Reply>
    ensures prints { Prints (asked request (call_text cutter.now)) result }
    ensures performs { (rules : Rules) (piece : List ℕ) → AreRules rules
        → IsKept S.is_sound S.shows rules.check core.old
        → IsReady (world_of S.shows core.old) sessions.old → Asks piece (asked request (call_text cutter.now))
        → Performs rules (scene_of (world_of S.shows core.old) sessions.old) (asked request (call_text cutter.now)) result (scene_of (world_of S.shows core.new) sessions.new)
        × IsReady (world_of S.shows core.new) sessions.new }
    ensures flushes { request ≡ Request.Flushes
        → IfSome result (λ reply. reply ≡ Reply.Done → S.unwritten (store_of core.new) ≡ 0) }
    ensures refused { sessions.new.refused ≡ sessions.old.refused }
    ensures device { IfSome result (λ reply. Counts reply (S.refused (store_of core.old)) (S.refused (store_of core.new))) }
    ensures limits { IfSome result (λ reply. IfRefused reply (TellsReached (RequestReaches Ever (asked request (call_text cutter.now))))) }
    ensures within { (rules : Rules) → AreRules rules → IsKept S.is_sound S.shows rules.check core.old
        → IfSome result (λ reply. IfRefused reply (TellsReached (RequestReaches (UpTo (world_of S.shows core.new).commits) (asked request (call_text cutter.now))))) }
    ensures kept { (rules : Rules) → AreRules rules → IsKept S.is_sound S.shows rules.check core.old
        → IsKept S.is_sound S.shows rules.check core.new }
    ensures held { HoldAll sessions.old.standing (world_of S.shows core.old)
        → HoldAll sessions.new.standing (world_of S.shows core.new) }
    ensures counts { S.refused (store_of core.old) ≤ S.refused (store_of core.new) }
{
    match request {
        Request::Nothing => None,
        Request::Chooses(session) => {
            sessions.choose(session);
            None
        }
        Request::Calls(None) => Some(sessions.call(core, cutter.text())),
        Request::Calls(Some(session)) => {
            sessions.choose(session);
            Some(sessions.call(core, cutter.text()))
        }
        Request::Flushes => Some(flush_all(core)),
        Request::Wrong => Some(Reply::Refused(Refusal::Invalid(Reason::Session))),
    }
}

/// Flushes until no page is left, or until a flush is refused.
fn flush_all<S: Store, L: Language + Changes<S>>(core: &mut Core<S, L>) -> Reply
    ensures replies { RepliesToFlush result }
    ensures flushed { result ≡ Reply.Done → S.unwritten (store_of core.new) ≡ 0 }
    ensures device { Counts result (S.refused (store_of core.old)) (S.refused (store_of core.new)) }
    ensures same { world_of S.shows core.new ≡ world_of S.shows core.old }
    ensures kept { (rules : Rules) → IsKept S.is_sound S.shows rules.check core.old
        → IsKept S.is_sound S.shows rules.check core.new }
    ensures counts { S.refused (store_of core.old) ≤ S.refused (store_of core.new) }
{
    let mut left = match core.flush() {
        Ok(left) => left,
        Err(refusal) => return Reply::Refused(refusal),
    };
    while left > 0 {
        match core.flush() {
            Ok(now) => left = now,
            Err(refusal) => return Reply::Refused(refusal),
        }
    }
    Reply::Done
}

impl Sessions {
    ghost use Rattle.std.specs.Prelude.{◌||◌, ◌≢◌, zero};
    ghost use Rattle.refusals.specs.declared.refusal.Refusal.TheVariants.{Disk};
    ghost use Rattle.replies.specs.Refused.{is_refusal};
    ghost use Rattle.transactions.specs.Refused.{TellsNoLimit};

    /// Chooses the session of this number, from 1 to 64.
    fn choose(&mut self, session: usize)
        ensures { self.new ≡ record self.old { chosen = session - 1 } }
    {
        self.chosen = session.saturating_sub(1);
    }

    /// Keeps whether a reply was a refusal.
    fn note(&mut self, reply: &Reply)
        ensures { self.new ≡ record self.old { refused = self.old.refused || is_refusal reply.now } }
    {
        self.refused = self.refused || reply.is_refused();
    }

    /// Calls the chosen session, which is made where it does not stand; where that is refused, the
    /// refusal is the reply.
    fn call<S: Store, L: Language + Changes<S>>(
        &mut self,
        core: &mut Core<S, L>,
        text: &[u8],
    ) -> Reply
        ensures plays { (rules : Rules) → AreRules rules → IsKept S.is_sound S.shows rules.check core.old
            → IsReady (world_of S.shows core.old) self.old
            → Plays rules (scene_of (world_of S.shows core.old) self.old) text.now result (scene_of (world_of S.shows core.new) self.new)
            × IsReady (world_of S.shows core.new) self.new }
        ensures refused { self.new.refused ≡ self.old.refused }
        ensures device { Counts result (S.refused (store_of core.old)) (S.refused (store_of core.new)) }
        ensures limits { IfRefused result (TellsReached (TextReaches Ever text.now)) }
        ensures within { (rules : Rules) → AreRules rules → IsKept S.is_sound S.shows rules.check core.old
            → IfRefused result (TellsReached (TextReaches (UpTo (world_of S.shows core.new).commits) text.now)) }
        ensures kept { (rules : Rules) → AreRules rules → IsKept S.is_sound S.shows rules.check core.old
            → IsKept S.is_sound S.shows rules.check core.new }
        ensures held { HoldAll self.old.standing (world_of S.shows core.old)
            → HoldAll self.new.standing (world_of S.shows core.new) }
        ensures counts { S.refused (store_of core.old) ≤ S.refused (store_of core.new) }
    {
        databases_stay_good();
        match self.session(core) {
            Ok(session) => core.step(session, text),
            Err(refusal) => Reply::Refused(refusal),
        }
    }

    /// The chosen session.
    fn session<S: Store, L: Language + Changes<S>>(
        &mut self,
        core: &mut Core<S, L>,
    ) -> Result<SessionId, Refusal>
        ensures finds { IsSound S.is_sound S.shows core.old → self.old.chosen < 64
            → MatchResult result (λ session. FindsSession (world_of S.shows core.old) self.old session (world_of S.shows core.new) self.new)
            (λ refusal. FindsNone (world_of S.shows core.old) self.old refusal (world_of S.shows core.new) self.new) }
        ensures refused { self.new.refused ≡ self.old.refused }
        ensures device { IfErr result (λ refusal. refusal ≢ Disk) }
        ensures limits { IfErr result TellsNoLimit }
        ensures kept { (rules : Rules) → AreRules rules → IsKept S.is_sound S.shows rules.check core.old
            → IsKept S.is_sound S.shows rules.check core.new }
        ensures held { HoldAll self.old.standing (world_of S.shows core.old)
            → HoldAll self.new.standing (world_of S.shows core.new) }
        ensures counts { S.refused (store_of core.old) ≤ S.refused (store_of core.new) }
    {
        if self.chosen >= SESSIONS {
            return Err(Refusal::Invalid(Reason::Session));
        }
        if let Some(session) = self.standing[self.chosen] {
            return Ok(session);
        }
        match core.new_session() {
            Ok(session) => {
                self.standing[self.chosen] = Some(session);
                Ok(session)
            }
            Err(refusal) => Err(refusal),
        }
    }

    /// Ends all sessions.
    fn end<S: Store, L: Language + Changes<S>>(&self, core: &mut Core<S, L>)
        ensures ends { AreLive (world_of S.shows core.old) (numbers_of self.now.standing)
            → EndsSessions (world_of S.shows core.old) (numbers_of self.now.standing) (world_of S.shows core.new) }
        ensures kept { (rules : Rules) → AreRules rules → IsKept S.is_sound S.shows rules.check core.old
            → IsKept S.is_sound S.shows rules.check core.new }
        ensures ended { HoldAll self.now.standing (world_of S.shows core.old)
            → HasNoSession (world_of S.shows core.new) }
        ensures counts { S.refused (store_of core.old) ≤ S.refused (store_of core.new) }
    {
        for slot in &self.standing {
            if let Some(session) = slot {
                core.end_session(*session);
            }
        }
    }
}
