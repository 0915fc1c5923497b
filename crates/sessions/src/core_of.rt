//! A core and its calls.
ghost use Rattle.std.specs.Prelude.{◌≡◌, ◌≢◌, ℕ, ◌≤◌, ◌<◌, ◌⊎◌, [], ◌∷◌, true, false, Ok, Err, IfOk, IfErr, OnOk, MatchResult};

use crate::calling::{call, settle};
use crate::changes::Changes;
use crate::inserting::insert_rows;
use crate::language::Language;
use crate::query_calls::{close_query, is_query, open_query, take_rows};
use crate::slots::{Slots, new_slot};
use denote::Rows;
use items::Text;
use refusals::{Limit, Reason, Refusal};
use replies::Reply;
use sqlval::Schema;
use std::alloc::Global;
use store::{Returned, Store};
use transactions::{drop_session, refusal_of, view_of};

/// A session of a core, from `new_session` to `end_session`: the least number that no other had
/// when it was made.
#[derive(Clone, Copy, PartialEq, Eq)]
pub struct SessionId {
    number: u64,
}

/// A refusal, and what the call was given.
#[derive(Drop)]
pub struct Refused<T> {
    /// Why the call was refused.
    pub refusal: Refusal,
    /// What it was given.
    pub value: T,
}

/// Sessions over a store, with what reads and types their statements.
#[derive(Drop)]
pub struct Core<S: Store, L: Language + Changes<S>> {
    alloc: Global,
    language: L,
    store: S,
    /// Of each session that stands, by its number, what is kept of it.
    slots: Slots,
    /// The session that has written, until its transaction ends.
    writer: Option<u64>,
}

impl<S: Store, L: Language + Changes<S>> Core<S, L> {
    ghost use Rattle.std.specs.FinMap.{empty as no_tables};
    ghost use Rattle.session_definitions.specs.Rules.{Rules, AreRules};
    ghost use Rattle.session_definitions.specs.Refusals.{IsReserved, StopsFlush};
    ghost use Rattle.session_definitions.specs.Run.{MakesSession, DropsSession, FlushesPages, without_sessions};
    ghost use Rattle.session_definitions.specs.Asked.{Asked};
    ghost use Rattle.session_definitions.specs.Step.{Step, StepOf};
    ghost use Rattle.session_definitions.specs.World.{is_live, is_session, opened};
    ghost use Rattle.denote.specs.Database.{Database, IsGood};
    ghost use Rattle.denote.specs.SchemaOf.{IsSchemaOf};
    ghost use Rattle.store.specs.Errors.{HasRisen};
    ghost use Rattle.store.specs.Going.{Going};
    ghost use Rattle.transactions.specs.Refused.{Counts, IfRefused, TellsDamage, TellsNoLimit, TellsReached};
    ghost use Rattle.refusals.specs.declared.limit.Limit.TheVariants as limit;
    ghost use Rattle.ast.specs.declared.statement.OrderedQuery.{OrderedQuery};
    ghost use Rattle.ast.specs.declared.statement.Statement.{Statement as Tree};
    ghost use Rattle.ast.specs.declared.statement.Statement.TheVariants as asks;
    ghost use Rattle.statement_definitions.specs.Reading.{IsRead};
    ghost use Rattle.statement_definitions.specs.Rollback.{IsRollback};
    ghost use Rattle.refusals.specs.declared.reason.Reason.TheVariants as reason;
    ghost use Rattle.refusals.specs.declared.refusal.Refusal.TheVariants.{CursorState, Damaged, Disk, Exceeded, Invalid, SerializationFailure};
    ghost use Rattle.sessions.specs.Committing.{CommitsAsWriter};
    ghost use Rattle.sessions.specs.Explained.{IfLines, ShowsLines};
    ghost use Rattle.std.specs.Prelude.{IsTrue};
    ghost use Rattle.sessions.specs.Kinds.{IsFetchText, IsQueryText, is_change, is_of_transaction};
    ghost use Rattle.sessions.specs.Turned.{TellsOpening, TellsRows};
    ghost use Rattle.sessions.specs.Limits.{CallReaches};
    ghost use Rattle.sessions.specs.ToldLimits.{GivenTell, IsActive, IsSaidBetween, StatementTells};
    ghost use Rattle.sessions.specs.Seen.{seen_in};
    ghost use Rattle.sessions.specs.Opening.{Stays};
    ghost use Rattle.sessions.specs.OfCore.{IsSound, OthersStay, StandAlike, StandBeside, number_of, world_of};

    /// Carries out a statement of this session, and answers its reply. A call of a session that has
    /// ended is refused by `session`, and nothing changes.
    ///
    /// ROLLBACK takes no memory and always succeeds. COMMIT, ROLLBACK and SET TRANSACTION are X0004
    /// just where the store answered that it is damaged. A refusal other than 40001, and of another
    /// statement than FETCH, leaves the world as it was, also over a damaged store. It is that of
    /// the device only where a call of the device was refused. A limit of what the store counts
    /// (pages, private pages, kept page images) is told only of a change, where a store on the way
    /// counts that it is reached or row numbers end, or of a COMMIT where the store reaches it.
    /// Only a COMMIT of the session that writes may write on the device, and it writes nothing
    /// where nothing was changed. The lines of an EXPLAIN show a plan of its query over the schema
    /// that the session sees. That the database which the statement sees is good is a law of runs;
    /// a change and a query rely on it.
    pub fn step(&mut self, session: SessionId, text: &[u8]) -> Reply
        ensures step { (rules : Rules) → AreRules rules → IsSound S.is_sound S.shows self.old
            → is_live (world_of S.shows self.old) (number_of session) ≡ true
            → IsGood rules.check (seen_in (S.shows self.old.store) self.old.writer (number_of session))
            → Step rules (world_of S.shows self.old) (number_of session) text.now result (world_of S.shows self.new) }
        ensures sound { (rules : Rules) → AreRules rules → IsSound S.is_sound S.shows self.old
            → IsGood rules.check (seen_in (S.shows self.old.store) self.old.writer (number_of session))
            → IsSound S.is_sound S.shows self.new }
        ensures explained { (x : OrderedQuery) → IsRead text.now (asks.Explain x) → S.is_sound self.old.store
            → IfLines result (ShowsLines (seen_in (S.shows self.old.store) self.old.writer (number_of session)) x) }
        ensures rolled_back { IsRollback text.now → is_live (world_of S.shows self.old) (number_of session) ≡ true
            → result ≡ Reply.Done }
        ensures ended { is_live (world_of S.shows self.old) (number_of session) ≡ false
            → (result ≡ Reply.Refused (Invalid reason.Session)) × (self.new ≡ self.old) }
        ensures live { StandAlike (world_of S.shows self.old) (world_of S.shows self.new) }
        ensures device { Counts result (S.refused self.old.store) (S.refused self.new.store) }
        ensures limits { IfRefused result (TellsReached (CallReaches (S.counted self.old.store) (S.shows self.old.store).commits text.now)) }
        ensures reached { (x : Tree) → IsRead text.now x → is_change x ≡ true
            → IfRefused result (IsSaidBetween S.goes_on (IsActive (S.shows self.old.store) (number_of session)) self.old.store self.new.store (λ middle.
            TellsReached (StatementTells (S.counted middle) (S.is_sound self.old.store) (S.shows self.old.store).working x))) }
        ensures damage { (x : Tree) → IsRead text.now x → is_of_transaction x ≡ true
            → TellsDamage result (S.damaged self.old.store) (S.damaged self.new.store) }
        ensures kept { IfRefused result (λ refusal. refusal ≢ SerializationFailure → (IsFetchText text.now → ⊥)
            → world_of S.shows self.new ≡ world_of S.shows self.old) }
        ensures idle { S.unchanged self.old.store → S.writes self.new.store ≡ S.writes self.old.store }
        ensures goes { S.goes_on self.old.store self.new.store (Going.writes ((S.shows self.old.store).working ∷ [])) }
        ensures commits { S.goes_on self.old.store self.new.store Going.changes
            ⊎ CommitsAsWriter text.now (is_session (number_of session) self.old.writer) }
        ensures counts { S.refused self.old.store ≤ S.refused self.new.store }
    {
        if !self.slots.stands(session.number) {
            return Reply::Refused(Refusal::Invalid(Reason::Session));
        }
        let mut slot = self.slots.take(self.alloc, session.number);
        let reply = call(
            self.alloc,
            &self.language,
            &mut self.store,
            &mut self.writer,
            &mut slot,
            session.number,
            text,
        );
        settle(&self.store, &mut slot, session.number);
        self.slots.set(session.number, Some(slot));
        reply
    }

    /// Whether the text is a query. It says no for want of memory too.
    pub fn is_query(&self, text: &[u8]) -> bool
        ensures { IsTrue result → IsQueryText text.now }
    {
        is_query(self.alloc, &self.language, text)
    }

    /// Opens the query in this text as the cursor without a name: another statement is refused by
    /// `syntax`, and 24000 where it is open. It begins a transaction. While it is open a change is
    /// 24000. That the database which it sees is good is a law of runs; it relies on it.
    pub fn open_query(&mut self, session: SessionId, text: &[u8]) -> Reply
        ensures step { (rules : Rules) → AreRules rules → IsSound S.is_sound S.shows self.old
            → is_live (world_of S.shows self.old) (number_of session) ≡ true
            → IsGood rules.check (seen_in (S.shows self.old.store) self.old.writer (number_of session))
            → StepOf rules (world_of S.shows self.old) (number_of session) (Asked.Query text.now) result (world_of S.shows self.new) }
        ensures sound { (rules : Rules) → AreRules rules → IsSound S.is_sound S.shows self.old
            → IsGood rules.check (seen_in (S.shows self.old.store) self.old.writer (number_of session))
            → IsSound S.is_sound S.shows self.new }
        ensures ended { is_live (world_of S.shows self.old) (number_of session) ≡ false
            → (result ≡ Reply.Refused (Invalid reason.Session)) × (self.new ≡ self.old) }
        ensures live { StandAlike (world_of S.shows self.old) (world_of S.shows self.new) }
        ensures device { Counts result (S.refused self.old.store) (S.refused self.new.store) }
        ensures limits { IfRefused result TellsNoLimit }
        ensures told { TellsOpening result }
        ensures kept { IfRefused result (λ refusal. world_of S.shows self.new ≡ world_of S.shows self.old) }
        ensures goes { S.goes_on self.old.store self.new.store Going.keeps }
        ensures counts { S.refused self.old.store ≤ S.refused self.new.store }
    {
        if !self.slots.stands(session.number) {
            return Reply::Refused(Refusal::Invalid(Reason::Session));
        }
        let mut slot = self.slots.take(self.alloc, session.number);
        let reply = open_query(
            self.alloc,
            &self.language,
            &mut self.store,
            self.writer,
            &mut slot,
            session.number,
            text,
        );
        settle(&self.store, &mut slot, session.number);
        self.slots.set(session.number, Some(slot));
        reply
    }

    /// So many of the next rows of the query that was opened, or fewer and then the end is reached;
    /// 24000 where none is open. A refusal stands in place of its rows, and closes it. It reads,
    /// and changes nothing of the store; the writer and other sessions stay as they were, also over
    /// a damaged store.
    pub fn take_rows(&mut self, session: SessionId, count: u64) -> Reply
        ensures step { (rules : Rules) → IsSound S.is_sound S.shows self.old
            → is_live (world_of S.shows self.old) (number_of session) ≡ true
            → StepOf rules (world_of S.shows self.old) (number_of session) (Asked.Rows count) result (world_of S.shows self.new) }
        ensures sound { IsSound S.is_sound S.shows self.old → IsSound S.is_sound S.shows self.new }
        ensures ended { is_live (world_of S.shows self.old) (number_of session) ≡ false
            → (result ≡ Reply.Refused (Invalid reason.Session)) × (self.new ≡ self.old) }
        ensures live { StandAlike (world_of S.shows self.old) (world_of S.shows self.new) }
        ensures device { Counts result (S.refused self.old.store) (S.refused self.new.store) }
        ensures limits { IfRefused result TellsNoLimit }
        ensures told { TellsRows count result }
        ensures others { OthersStay (number_of session) (world_of S.shows self.old) (world_of S.shows self.new) }
        ensures goes { S.goes_on self.old.store self.new.store Going.reads }
        ensures counts { S.refused self.old.store ≤ S.refused self.new.store }
    {
        if !self.slots.stands(session.number) {
            return Reply::Refused(Refusal::Invalid(Reason::Session));
        }
        let mut slot = self.slots.take(self.alloc, session.number);
        let reply = take_rows(
            self.alloc,
            &mut self.store,
            self.writer,
            &mut slot,
            session.number,
            count,
        );
        settle(&self.store, &mut slot, session.number);
        self.slots.set(session.number, Some(slot));
        reply
    }

    /// Closes the query that was opened; 24000 where none is open. Takes no memory. The writer and
    /// other sessions stay as they were, also over a damaged store.
    pub fn close_query(&mut self, session: SessionId) -> Reply
        ensures step { (rules : Rules) → IsSound S.is_sound S.shows self.old
            → is_live (world_of S.shows self.old) (number_of session) ≡ true
            → StepOf rules (world_of S.shows self.old) (number_of session) Asked.Close result (world_of S.shows self.new) }
        ensures sound { IsSound S.is_sound S.shows self.old → IsSound S.is_sound S.shows self.new }
        ensures ended { is_live (world_of S.shows self.old) (number_of session) ≡ false
            → (result ≡ Reply.Refused (Invalid reason.Session)) × (self.new ≡ self.old) }
        ensures live { StandAlike (world_of S.shows self.old) (world_of S.shows self.new) }
        ensures refused { is_live (world_of S.shows self.old) (number_of session) ≡ true
            → IfRefused result (λ refusal. refusal ≡ CursorState) }
        ensures others { OthersStay (number_of session) (world_of S.shows self.old) (world_of S.shows self.new) }
        ensures untouched { self.new.store ≡ self.old.store }
    {
        if !self.slots.stands(session.number) {
            return Reply::Refused(Refusal::Invalid(Reason::Session));
        }
        let mut slot = self.slots.take(self.alloc, session.number);
        let reply = close_query(&mut slot);
        settle(&self.store, &mut slot, session.number);
        self.slots.set(session.number, Some(slot));
        reply
    }

    /// The INSERT of these rows into all columns of the table of this name, in order: a change, as
    /// one that a statement asks for. Where no table has that name it is refused by `name`; where a
    /// row has another number of values than there are columns, by `columns`; and where a value has
    /// another type than its column, by `type`. No rows are `02000 0`. That the database which it
    /// sees is good is a law of runs; it relies on it.
    pub fn insert_rows(&mut self, session: SessionId, table: &Text, rows: Rows) -> Reply
        ensures step { (rules : Rules) → AreRules rules → IsSound S.is_sound S.shows self.old
            → is_live (world_of S.shows self.old) (number_of session) ≡ true
            → IsGood rules.check (seen_in (S.shows self.old.store) self.old.writer (number_of session))
            → StepOf rules (world_of S.shows self.old) (number_of session) (Asked.Insert table.now rows) result (world_of S.shows self.new) }
        ensures sound { (rules : Rules) → AreRules rules → IsSound S.is_sound S.shows self.old
            → IsGood rules.check (seen_in (S.shows self.old.store) self.old.writer (number_of session))
            → IsSound S.is_sound S.shows self.new }
        ensures ended { is_live (world_of S.shows self.old) (number_of session) ≡ false
            → (result ≡ Reply.Refused (Invalid reason.Session)) × (self.new ≡ self.old) }
        ensures live { StandAlike (world_of S.shows self.old) (world_of S.shows self.new) }
        ensures reached { IfRefused result (IsSaidBetween S.goes_on (IsActive (S.shows self.old.store) (number_of session)) self.old.store self.new.store (λ middle.
            TellsReached (GivenTell (S.counted middle) (S.is_sound self.old.store) (S.shows self.old.store).working table.now rows))) }
        ensures device { Counts result (S.refused self.old.store) (S.refused self.new.store) }
        ensures kept { IfRefused result (λ refusal. refusal ≢ SerializationFailure
            → world_of S.shows self.new ≡ world_of S.shows self.old) }
        ensures goes { S.goes_on self.old.store self.new.store Going.changes }
        ensures counts { S.refused self.old.store ≤ S.refused self.new.store }
    {
        if !self.slots.stands(session.number) {
            return Reply::Refused(Refusal::Invalid(Reason::Session));
        }
        let mut slot = self.slots.take(self.alloc, session.number);
        let writer = &mut self.writer;
        let reply = insert_rows(
            self.alloc,
            &self.language,
            &mut self.store,
            writer,
            &slot,
            session.number,
            table,
            rows,
        );
        settle(&self.store, &mut slot, session.number);
        self.slots.set(session.number, Some(slot));
        reply
    }

    /// Makes the schema ready that a statement of this session sees: of its transaction, or of the
    /// last commit where it has none. It begins no transaction, and the world stays as it was. It
    /// is refused as damaged just where the store answered so.
    pub fn prepare_schema(&mut self, session: SessionId) -> Result<(), Refusal>
        ensures prepared { OnOk result (IsSound S.is_sound S.shows self.old
            → IsSchemaOf (S.prepared self.new.store) (seen_in (S.shows self.old.store) self.old.writer (number_of session))) }
        ensures refused { IfErr result (λ refusal. IsSound S.is_sound S.shows self.old
            → is_live (world_of S.shows self.old) (number_of session) ≡ true → IsReserved refusal) }
        ensures ended { is_live (world_of S.shows self.old) (number_of session) ≡ false
            → (result ≡ Err (Invalid reason.Session)) × (self.new ≡ self.old) }
        ensures kept { world_of S.shows self.new ≡ world_of S.shows self.old }
        ensures sound { IsSound S.is_sound S.shows self.old → IsSound S.is_sound S.shows self.new }
        ensures device { IfErr result (λ refusal. refusal ≡ Disk
            → HasRisen (S.refused self.old.store) (S.refused self.new.store)) }
        ensures limits { IfErr result TellsNoLimit }
        ensures damage { OnOk result (S.damaged self.new.store ≡ S.damaged self.old.store)
            × IfErr result (λ refusal. TellsDamage (Reply.Refused refusal) (S.damaged self.old.store) (S.damaged self.new.store)) }
        ensures goes { S.goes_on self.old.store self.new.store Going.keeps }
    {
        if !self.slots.stands(session.number) {
            return Err(Refusal::Invalid(Reason::Session));
        }
        match self.store.prepare(view_of(self.writer, session.number)) {
            Ok(()) => Ok(()),
            Err(error) => Err(refusal_of(error)),
        }
    }

    /// The schema that was made ready last, by `prepare_schema` or by a statement.
    pub fn schema(&self) -> &Schema
        ensures { result.now ≡ S.prepared self.now.store }
    {
        self.store.schema()
    }

    /// A new session without a transaction. Refused by the limit `sessions` exactly where 64 stand,
    /// and nothing changes then.
    pub fn new_session(&mut self) -> Result<SessionId, Refusal>
        ensures makes { IsSound S.is_sound S.shows self.old
            → MatchResult result (λ session. MakesSession (world_of S.shows self.old) (Ok (number_of session)) (world_of S.shows self.new))
            (λ refusal. MakesSession (world_of S.shows self.old) (Err refusal) (world_of S.shows self.new)) }
        ensures refused { IfErr result (λ refusal. (refusal ≡ Exceeded limit.Sessions) × (self.new ≡ self.old)) }
        ensures free { IfOk result (λ session. is_live (world_of S.shows self.old) (number_of session) ≡ false) }
        ensures live { IfOk result (λ session. (is_live (world_of S.shows self.new) (number_of session) ≡ true)
            × StandBeside (number_of session) (world_of S.shows self.old) (world_of S.shows self.new)) }
        ensures sound { IsSound S.is_sound S.shows self.old → IsSound S.is_sound S.shows self.new }
        ensures untouched { self.new.store ≡ self.old.store }
        ensures counts { S.refused self.new.store ≡ S.refused self.old.store }
    {
        let Some(number) = self.slots.first_free() else {
            return Err(Refusal::Exceeded(Limit::Sessions));
        };
        self.slots.set(number, Some(new_slot(self.alloc)));
        Ok(SessionId { number })
    }

    /// Rolls back the session's transaction, and ends the session. Takes no memory. Where the
    /// session has ended already, nothing changes.
    pub fn end_session(&mut self, session: SessionId)
        ensures drops { is_live (world_of S.shows self.old) (number_of session) ≡ true
            → DropsSession (world_of S.shows self.old) (number_of session) (world_of S.shows self.new) }
        ensures ended { is_live (world_of S.shows self.old) (number_of session) ≡ false → self.new ≡ self.old }
        ensures live { (is_live (world_of S.shows self.new) (number_of session) ≡ false)
            × StandBeside (number_of session) (world_of S.shows self.old) (world_of S.shows self.new) }
        ensures sound { IsSound S.is_sound S.shows self.old → IsSound S.is_sound S.shows self.new }
        ensures damage { S.damaged self.new.store ≡ S.damaged self.old.store }
        ensures goes { S.goes_on self.old.store self.new.store Going.keeps }
        ensures counts { S.refused self.old.store ≤ S.refused self.new.store }
    {
        if !self.slots.stands(session.number) {
            return;
        }
        drop_session(&mut self.store, &mut self.writer, session.number);
        self.slots.set(session.number, None);
    }

    /// Writes some of what is committed and not on the device yet, and answers how many pages are
    /// left: less than before, or none. It is refused for want of memory or by the device alone.
    pub fn flush(&mut self) -> Result<u32, Refusal>
        ensures flushes { MatchResult result (λ left. FlushesPages (world_of S.shows self.old) (Ok left) (world_of S.shows self.new))
            (λ refusal. FlushesPages (world_of S.shows self.old) (Err refusal) (world_of S.shows self.new)) }
        ensures left { IfOk result (λ left. left ≡ S.unwritten self.new.store) }
        ensures less { OnOk result (0 < S.unwritten self.old.store
            → S.unwritten self.new.store < S.unwritten self.old.store) }
        ensures same { (self.new.slots.all ≡ self.old.slots.all) × (self.new.writer ≡ self.old.writer)
            × (S.shows self.new.store ≡ S.shows self.old.store) }
        ensures sound { IsSound S.is_sound S.shows self.old → IsSound S.is_sound S.shows self.new }
        ensures device { IfErr result (λ refusal. refusal ≡ Disk
            → HasRisen (S.refused self.old.store) (S.refused self.new.store)) }
        ensures damage { S.damaged self.new.store ≡ S.damaged self.old.store }
        ensures goes { S.goes_on self.old.store self.new.store (Going.writes []) }
        ensures counts { S.refused self.old.store ≤ S.refused self.new.store }
    {
        match self.store.flush() {
            Ok(left) => Ok(left),
            Err(error) => Err(refusal_of(error)),
        }
    }

    /// Ends all sessions, writes all that is committed, and hands back the device. A refusal is
    /// that of the device; it hands back the core, whose sessions have ended. Takes no memory.
    pub fn close(self) -> Result<S::Device, Refused<Core<S, L>>>
        ensures closed { IfOk result (λ device. IsSound S.is_sound S.shows self
            → S.saved device (world_of S.shows self).last) }
        ensures settled { IfOk result (λ device. S.settled device) }
        ensures counts { IfOk result (λ device. S.refused self.store ≤ S.calls_refused device) }
        ensures fails { IfErr result (λ back. (back.refusal ≡ Disk)
            × (world_of S.shows back.value ≡ without_sessions (world_of S.shows self))) }
        ensures sound { IfErr result (λ back. IsSound S.is_sound S.shows self → IsSound S.is_sound S.shows back.value) }
        ensures device { IfErr result (λ back. HasRisen (S.refused self.store) (S.refused back.value.store)) }
    {
        let Core {
            alloc,
            language,
            store,
            slots: _,
            writer: _,
        } = self;
        match store.close() {
            Ok(device) => Ok(device),
            Err(back) => {
                let Returned { error, value } = back;
                Err(Refused {
                    refusal: refusal_of(error),
                    value: Core {
                        alloc,
                        language,
                        store: value,
                        slots: Slots::new(),
                        writer: None,
                    },
                })
            }
        }
    }

    /// A core without sessions over the database that was saved on a device, with room for so many
    /// pages in memory. A device that cannot be read as a store's is refused. A refusal hands the
    /// device back: as damaged with the bytes that it had, any other with what was saved on it, or,
    /// where it was empty, one that opens as empty or is refused as damaged. Where a database was
    /// saved on it, the refusal is want of memory or the device, as of a flush.
    pub fn open(
        alloc: Global,
        language: L,
        device: S::Device,
        frames: usize,
    ) -> Result<Core<S, L>, Refused<S::Device>>
        requires { (16 ≤ frames) × (frames ≤ 4096) }
        ensures room { IfOk result (λ core. S.room core.store ≡ frames) }
        ensures opened { IfOk result (λ core. (db : Database) → S.saved device db
            → IsSound S.is_sound S.shows core × (world_of S.shows core ≡ opened db)) }
        ensures empty { IfOk result (λ core. (k : ℕ) → is_live (world_of S.shows core) k ≡ false) }
        ensures readable { IfOk result (λ core. S.readable device) }
        ensures counts { IfOk result (λ core. S.calls_refused device ≤ S.refused core.store) }
        ensures begun { S.is_begun device
            → IfOk result (λ core. IsSound S.is_sound S.shows core × (world_of S.shows core ≡ opened no_tables)) }
        ensures same { S.is_honest device → IfErr result (λ back. back.refusal ≡ Damaged → S.same device back.value) }
        ensures left { IfErr result (λ back. (db : Database) → S.saved device db
            → Stays S.saved S.is_new S.is_begun device back.value db) }
        ensures refused { IfErr result (λ back. (db : Database) → S.saved device db → IsReserved back.refusal) }
        ensures stops { IfErr result (λ back. (db : Database) → S.saved device db → StopsFlush back.refusal) }
        ensures device { IfErr result (λ back. back.refusal ≡ Disk
            → HasRisen (S.calls_refused device) (S.calls_refused back.value)) }
    {
        match S::open(alloc, device, frames) {
            Ok(store) => Ok(Core {
                alloc,
                language,
                store,
                slots: Slots::new(),
                writer: None,
            }),
            Err(back) => {
                let Returned { error, value } = back;
                Err(Refused {
                    refusal: refusal_of(error),
                    value,
                })
            }
        }
    }
}
