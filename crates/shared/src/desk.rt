//! What lies under the lock: a core, and the pass that knows the history of all that was called.
ghost use Rattle.std.specs.Prelude.{◌≡◌, ◌≢◌, ◌<◌, ◌≤◌, ℕ, ◌+◌, ◌%◌, ◌^◌, Some, None, List, [], true, false, is_some, length, IsTrue, IfOk, IfErr, OnOk};
ghost use Rattle.refusals.specs.declared.refusal.Refusal.TheVariants.{Disk, Exceeded};
ghost use Rattle.refusals.specs.declared.limit.Limit.TheVariants as limit;
ghost use mathlib.Core.List.{IsPrefix};
ghost use Rattle.crossbeam_utils.specs.Seq.{cell_view};
ghost use Rattle.session_definitions.specs.Refusals.{StopsFlush};
ghost use Rattle.session_definitions.specs.World.{is_live};
ghost use Rattle.sessions.specs.Kinds.{IsQueryText};
ghost use Rattle.sessions.specs.OfCore.{IsSound, world_of};
ghost use Rattle.sessions.specs.Turned.{TellsOpening, TellsRows};
ghost use Rattle.store.specs.Errors.{HasRisen};
ghost use Rattle.transactions.specs.Refused.{Counts};
ghost use Rattle.shared.specs.History.{event, calls_by, holder_of, AllOf, AreOwn, IsCounted, Stays};
ghost use Rattle.shared.specs.Scripts.{store_of};
ghost use Rattle.shared.specs.Views.{keeper as keeper_of, one_more, host, keeper_in, caller_in, extended, IsNew, May, Told, Extends, Said, Joined, TurnedAway, Left};
ghost use Rattle.shared.specs.Called.{act_of};
ghost use Rattle.shared.specs.Turned.{Turn};
ghost use Rattle.shared.specs.declared.event.Question.TheVariants as question;

use crate::callers::{Client, Session};
use crate::rule::{Asked, Call, Cell, Guest, Newcomer, Peek, Room, Spare, Token};
use refusals::Refusal;
use replies::Reply;
use session_laws::databases_stay_good;
use sessions::{Changes, Core, Language, SessionId};
use std::marker::{Brand, Model, PhantomData};
use std::mem::replace;
use std::sync::Wait;
use store::Store;

/// What a session was asked.
#[derive(Clone, Copy)]
pub(crate) enum Asking<'a> {
    Text(&'a [u8]),
    Query(&'a [u8]),
    Rows(u64),
    Close,
}

/// A call that was made under the lock, with what its caller is told.
#[derive(Clone, Copy)]
pub(crate) enum Called<'a> {
    Connects(SessionId),
    Refused(&'a Refusal),
    Says(SessionId, Asking<'a>, &'a Reply),
    Ends(SessionId),
}

/// A core, the number of calls modulo 2^64, and the pass that knows the history. The core is as
/// that history left it, and its device refused a call since where one was told X0002.
#[derive(Drop)]
pub struct Desk<S: Store, L: Language + Changes<S>, J: Room> {
    core: Core<S, L>,
    count: u64,
    keeper: Token,
    of: PhantomData<J>,
}

impl<S: Store, L: Language + Changes<S>, J: Room> Model for Desk<S, L, J> {
    ghost use Rattle.std.specs.Prelude.{◌≡◌};
    ghost use Rattle.crossbeam_utils.specs.Seq.{cell_view};
    ghost use Rattle.sessions.specs.OfCore.{IsSound, world_of};
    ghost use Rattle.shared.specs.History.{IsCounted};
    ghost use Rattle.shared.specs.Scripts.{store_of};
    ghost use Rattle.shared.specs.Views.{IsDesk, Locked, locked};

    ghost Value = { Locked };

    ghost view = { λ d. locked (cell_view d.keeper).log (S.refused (store_of d.core)) (S.unwritten (store_of d.core)) };

    ghost invariant = { λ d. (d.keeper.table_id ≡ J.table)
        × IsDesk J.premise J.start J.callers (IsSound S.is_sound S.shows d.core) (world_of S.shows d.core) d.count (cell_view d.keeper)
        × IsCounted J.refused (S.refused (store_of d.core)) (cell_view d.keeper).log };
}

impl<S: Store, L: Language + Changes<S>, J: Room> Desk<S, L, J> {
    /// A core without sessions, and the first pass of a cell, from which the callers' passes were
    /// cut.
    pub(crate) fn new(core: Core<S, L>, keeper: Token) -> Desk<S, L, J>
        requires core { (world_of S.shows core ≡ J.start) × ((id : ℕ) → is_live (world_of S.shows core) id ≡ false) }
        requires sound { J.premise → IsSound S.is_sound S.shows core }
        requires device { J.refused ≤ S.refused (store_of core) }
        requires keeper { (keeper.table_id ≡ J.table) × (cell_view keeper ≡ keeper_of (cell_view keeper).names []) }
        requires limit { (n : ℕ) → J.callers ≡ Some n → (cell_view keeper).names ≡ n }
        ensures { result.log ≡ [] }
    {
        Desk {
            core,
            count: 0,
            keeper,
            of: PhantomData,
        }
    }

    /// The core and the pass, once no thread has them.
    pub(crate) fn into_parts(self) -> (Core<S, L>, Token)
        ensures token { result.1.table_id ≡ J.table }
        ensures keeps { (cell_view result.1).keeps ≡ true }
        ensures all_of { (n : ℕ) → J.callers ≡ Some n → AllOf n (cell_view result.1).log }
        ensures own { AreOwn (cell_view result.1).log }
        ensures history { J.premise
            → Stays J.start (cell_view result.1).log (IsSound S.is_sound S.shows result.0) (world_of S.shows result.0) }
        ensures device { IsCounted J.refused (S.refused (store_of result.0)) (cell_view result.1).log }
        ensures live { (id : ℕ)
            → is_live (world_of S.shows result.0) id ≡ is_some (holder_of id (cell_view result.1).log) }
    {
        let Desk {
            core,
            count: _,
            keeper,
            of: _,
        } = self;
        (core, keeper)
    }

    /// One caller more, which has seen nothing yet.
    pub(crate) fn newcomer(&mut self, cell: &Cell) -> Client<J>
        requires cell { cell.now.table.shared.table_id ≡ J.table }
        requires any { J.callers ≡ None }
        ensures caller { (result.seen ≡ []) × (result.mine ≡ []) × (result.at ≡ None) }
        ensures same { self.new ≡ self.old }
    {
        newcomer(cell, &mut self.keeper)
    }

    /// Carries out a statement of the session. X0002 is told only where this call was refused by
    /// the device, and not where pages were written since the call before it.
    pub(crate) fn say<R: Wait>(
        &mut self,
        rt: &R,
        cell: &Cell,
        me: &mut Session<J>,
        text: &[u8],
    ) -> Reply
        requires { cell.now.table.shared.table_id ≡ J.table }
        ensures said { Said J.premise J.start J.refused me.old text.now result me.new }
        ensures device { Counts result self.old.refused self.new.refused }
    {
        databases_stay_good();
        take_in(rt, cell, &mut self.keeper, &mut me.token);
        let reply = self.core.step(me.id, text);
        self.count = self.count.wrapping_add(1);
        let call = Called::Says(me.id, Asking::Text(text), &reply);
        let keeper = &mut self.keeper;
        me.token = record::<S, L, Brand, R>(rt, cell, keeper, self.count, call, &self.core);
        reply
    }

    /// Whether the text is a query. It says no for want of memory too. It is no call.
    pub(crate) fn is_query(&self, text: &[u8]) -> bool
        ensures { IsTrue result → IsQueryText text.now }
    {
        self.core.is_query(text)
    }

    /// Opens the query in this text in the session. X0002 is told only where this call was refused
    /// by the device.
    pub(crate) fn open_query<R: Wait>(
        &mut self,
        rt: &R,
        cell: &Cell,
        me: &mut Session<J>,
        text: &[u8],
    ) -> Reply
        requires { cell.now.table.shared.table_id ≡ J.table }
        ensures turn { Turn J.premise J.start J.refused me.old (question.Query text.now) result me.new }
        ensures told { TellsOpening result }
        ensures device { Counts result self.old.refused self.new.refused }
    {
        databases_stay_good();
        take_in(rt, cell, &mut self.keeper, &mut me.token);
        let reply = self.core.open_query(me.id, text);
        self.count = self.count.wrapping_add(1);
        let call = Called::Says(me.id, Asking::Query(text), &reply);
        let keeper = &mut self.keeper;
        me.token = record::<S, L, Brand, R>(rt, cell, keeper, self.count, call, &self.core);
        reply
    }

    /// Takes so many of the next rows of the query that the session has open. X0002 is told only
    /// where this call was refused by the device.
    pub(crate) fn take_rows<R: Wait>(
        &mut self,
        rt: &R,
        cell: &Cell,
        me: &mut Session<J>,
        count: u64,
    ) -> Reply
        requires { cell.now.table.shared.table_id ≡ J.table }
        ensures turn { Turn J.premise J.start J.refused me.old (question.Rows count) result me.new }
        ensures told { TellsRows count result }
        ensures device { Counts result self.old.refused self.new.refused }
    {
        databases_stay_good();
        take_in(rt, cell, &mut self.keeper, &mut me.token);
        let reply = self.core.take_rows(me.id, count);
        self.count = self.count.wrapping_add(1);
        let call = Called::Says(me.id, Asking::Rows(count), &reply);
        let keeper = &mut self.keeper;
        me.token = record::<S, L, Brand, R>(rt, cell, keeper, self.count, call, &self.core);
        reply
    }

    /// Closes the query that the session has open.
    pub(crate) fn close_query<R: Wait>(&mut self, rt: &R, cell: &Cell, me: &mut Session<J>) -> Reply
        requires { cell.now.table.shared.table_id ≡ J.table }
        ensures { Turn J.premise J.start J.refused me.old question.Close result me.new }
    {
        databases_stay_good();
        take_in(rt, cell, &mut self.keeper, &mut me.token);
        let reply = self.core.close_query(me.id);
        self.count = self.count.wrapping_add(1);
        let call = Called::Says(me.id, Asking::Close, &reply);
        let keeper = &mut self.keeper;
        me.token = record::<S, L, Brand, R>(rt, cell, keeper, self.count, call, &self.core);
        reply
    }

    /// Makes the caller a session.
    pub(crate) fn connect<R: Wait>(
        &mut self,
        rt: &R,
        cell: &Cell,
        me: Client<J>,
    ) -> Result<Session<J>, (Refusal, Client<J>)>
        requires { cell.now.table.shared.table_id ≡ J.table }
        ensures ok { IfOk result (λ s. Joined J.premise J.start J.refused me s) }
        ensures err { IfErr result (λ e. TurnedAway J.premise J.start J.refused me e.0 e.1) }
        ensures full { IfErr result (λ e. e.0 ≡ Exceeded limit.Sessions) }
    {
        databases_stay_good();
        let Client { mut token, of } = me;
        take_in(rt, cell, &mut self.keeper, &mut token);
        self.count = self.count.wrapping_add(1);
        let (keeper, count) = (&mut self.keeper, self.count);
        match self.core.new_session() {
            Ok(id) => {
                let call = Called::Connects(id);
                let token = record::<S, L, Brand, R>(rt, cell, keeper, count, call, &self.core);
                Ok(Session { id, token, of })
            }
            Err(refusal) => {
                let call = Called::Refused(&refusal);
                let token = record::<S, L, Brand, R>(rt, cell, keeper, count, call, &self.core);
                Err((refusal, Client { token, of }))
            }
        }
    }

    /// Ends the session.
    pub(crate) fn end<R: Wait>(&mut self, rt: &R, cell: &Cell, me: Session<J>) -> Client<J>
        requires { cell.now.table.shared.table_id ≡ J.table }
        ensures { Left J.premise J.start J.refused me result }
    {
        databases_stay_good();
        let Session { id, mut token, of } = me;
        take_in(rt, cell, &mut self.keeper, &mut token);
        self.core.end_session(id);
        self.count = self.count.wrapping_add(1);
        let keeper = &mut self.keeper;
        let call = Called::Ends(id);
        let token = record::<S, L, Brand, R>(rt, cell, keeper, self.count, call, &self.core);
        Client { token, of }
    }

    /// Writes some of what is committed and not on the device yet, and answers how many pages are
    /// left: less than before, or none. It is no call: the history is as it was, and the core's
    /// world is one after it still.
    pub(crate) fn flush(&mut self) -> Result<u32, Refusal>
        ensures history { self.new.log ≡ self.old.log }
        ensures left { IfOk result (λ left. left ≡ self.new.unwritten) }
        ensures less { OnOk result (0 < self.old.unwritten → self.new.unwritten < self.old.unwritten) }
        ensures counts { self.old.refused ≤ self.new.refused }
        ensures stops { IfErr result StopsFlush }
        ensures device { IfErr result (λ refusal. refusal ≡ Disk → HasRisen self.old.refused self.new.refused) }
    {
        self.core.flush()
    }
}

/// One caller more. Its number is how many there were.
pub(crate) fn newcomer<J: Room>(cell: &Cell, keeper: &mut Token) -> Client<J>
    requires cell { (keeper.old.table_id ≡ cell.now.table.shared.table_id)
        × (cell.now.table.shared.table_id ≡ J.table) }
    requires view { (cell_view keeper.old).keeps ≡ true }
    ensures keeper { (keeper.new.table_id ≡ keeper.old.table_id)
        × (cell_view keeper.new ≡ one_more (cell_view keeper.old)) }
    ensures caller { IsNew (cell_view keeper.old).names result }
{
    let token = cell.split_pass::<Newcomer>(keeper);
    Client {
        token,
        of: PhantomData,
    }
}

/// The pass that knows the history takes a caller's in for good: its calls are those that it made,
/// it has seen a beginning of the history, and no session of it stands.
pub(crate) fn hear<J: Room, R: Wait>(rt: &R, cell: &Cell, keeper: &mut Token, client: Client<J>)
    requires cell { (keeper.old.table_id ≡ cell.now.table.shared.table_id)
        × (cell.now.table.shared.table_id ≡ J.table) }
    requires view { (cell_view keeper.old).keeps ≡ true }
    ensures keeper { (keeper.new.table_id ≡ keeper.old.table_id)
        × (cell_view keeper.new ≡ keeper_in (cell_view keeper.old)) }
    ensures made { calls_by client.who (cell_view keeper.old).log ≡ client.mine }
    ensures saw { IsPrefix client.seen (cell_view keeper.old).log }
    ensures idle { (id : ℕ) → holder_of id (cell_view keeper.old).log ≢ Some client.who }
{
    let Client { mut token, of: _ } = client;
    take_in(rt, cell, keeper, &mut token);
    let _parted = cell.split_pass::<Guest>(keeper);
}

/// The pass under the lock takes in the caller's, and learns that its calls in the history are
/// those that it made.
fn take_in<R: Wait>(rt: &R, cell: &Cell, keeper: &mut Token, caller: &mut Token)
    requires cell { (keeper.old.table_id ≡ cell.now.table.shared.table_id) × (caller.old.table_id ≡ keeper.old.table_id)
        × (caller.old.me.1 ≡ []) }
    requires views { ((cell_view keeper.old).keeps ≡ true) × ((cell_view caller.old).calls ≡ true) }
    ensures cell { (keeper.new.table_id ≡ keeper.old.table_id) × (caller.new.table_id ≡ keeper.old.table_id) }
    ensures view { cell_view keeper.new ≡ host (cell_view keeper.old) (cell_view caller.old) }
    ensures told { Told (cell_view keeper.new) }
{
    let spare = cell.split_pass::<Spare>(keeper);
    let guest = replace(caller, spare);
    cell.join_pass::<Guest>(keeper, guest);
    cell.load_as::<Peek, R>(rt, keeper);
}

/// Puts a call of the caller that was taken in at the end of the history, with what this core's
/// device has refused, and gives the caller its pass back, which has then seen all of the history.
fn record<S: Store, L: Language + Changes<S>, E: Asked, R: Wait>(
    rt: &R,
    cell: &Cell,
    keeper: &mut Token,
    count: u64,
    call: Called<'_>,
    _core: &Core<S, L>,
) -> Token
    requires cell { keeper.old.table_id ≡ cell.now.table.shared.table_id }
    requires views { ((cell_view keeper.old).keeps ≡ true) × ((cell_view keeper.old).calls ≡ true) }
    requires event { E.event ≡ event (cell_view keeper.old).who (act_of call) (S.refused (store_of _core.now)) }
    requires next { May (cell_view keeper.old) (act_of call) }
    requires count { count ≡ (length (cell_view keeper.old).log + 1) % 2 ^ 64 }
    ensures keeper { (keeper.new.table_id ≡ keeper.old.table_id)
        × (cell_view keeper.new ≡ keeper_in (extended E.event (cell_view keeper.old))) }
    ensures caller { (result.table_id ≡ keeper.old.table_id) × (result.me.1 ≡ [])
        × (cell_view result ≡ caller_in (extended E.event (cell_view keeper.old))) }
{
    cell.swap_as::<Call<E>, R>(rt, keeper, [count]);
    cell.split_pass::<Guest>(keeper)
}
