//! The calls of sessions, by any thread.
ghost use Rattle.std.specs.Prelude.{◌≡◌, ◌≤◌, ℕ, Some, None, [], false, IsTrue, IfOk, IfErr, OnOk};
ghost use Rattle.refusals.specs.declared.refusal.Refusal.TheVariants.{Exceeded};
ghost use Rattle.refusals.specs.declared.limit.Limit.TheVariants as limit;
ghost use Rattle.crossbeam_utils.specs.Seq.{cell_view};
ghost use Rattle.session_definitions.specs.Refusals.{StopsFlush};
ghost use Rattle.session_definitions.specs.World.{is_live};
ghost use Rattle.sessions.specs.Kinds.{IsQueryText};
ghost use Rattle.sessions.specs.OfCore.{IsSound, world_of};
ghost use Rattle.shared.specs.Scripts.{store_of};
ghost use Rattle.shared.specs.Views.{keeper as keeper_of, AreNew, Said, Joined, TurnedAway, Left, HasHistory};

use crate::callers::{Client, Session};
use crate::desk::{Desk, hear, newcomer};
use crate::rule::{Cell, Room, Token};
use refusals::Refusal;
use replies::Reply;
use sessions::{Changes, Core, Language};
use std::alloc::{AllocError, Global};
use std::sync::{Mutex, Wait};
use store::Store;

/// A core that threads share. Whenever the lock is free, the core is as the history of all calls
/// left it, and the cell holds the number of those calls modulo 2^64.
#[derive(Drop)]
pub struct Shared<S: Store, L: Language + Changes<S>, J: Room> {
    pub(crate) cell: Cell,
    pub(crate) desk: Mutex<Desk<S, L, J>>,
    pub ghost table: { cell.table.shared.table_id ≡ J.table },
}

impl<S: Store, L: Language + Changes<S>, J: Room> Shared<S, L, J> {
    /// A core in which no session stands, to be shared by callers that are not settled before. The
    /// cell and its pass are new.
    pub fn new(cell: Cell, keeper: Token, core: Core<S, L>) -> Shared<S, L, J>
        requires cell { (keeper.table_id ≡ cell.table.shared.table_id) × (cell.table.shared.table_id ≡ J.table) }
        requires view { cell_view keeper ≡ keeper_of 0 [] }
        requires core { (world_of S.shows core ≡ J.start) × ((id : ℕ) → is_live (world_of S.shows core) id ≡ false) }
        requires sound { J.premise → IsSound S.is_sound S.shows core }
        requires device { J.refused ≤ S.refused (store_of core) }
        requires any { J.callers ≡ None }
        ensures { result.cell ≡ cell }
    {
        Shared {
            cell,
            desk: Mutex::new(Desk::new(core, keeper)),
        }
    }

    /// A core in which no session stands, to be shared by so many callers, whose numbers are from
    /// 0, and by no others. The cell and its pass are new. Only want of memory is refused; the core
    /// is dropped then.
    pub fn with_callers(
        alloc: Global,
        cell: Cell,
        keeper: Token,
        core: Core<S, L>,
        count: usize,
    ) -> Result<(Shared<S, L, J>, Vec<Client<J>>), AllocError>
        requires cell { (keeper.table_id ≡ cell.table.shared.table_id) × (cell.table.shared.table_id ≡ J.table) }
        requires view { cell_view keeper ≡ keeper_of 0 [] }
        requires core { (world_of S.shows core ≡ J.start) × ((id : ℕ) → is_live (world_of S.shows core) id ≡ false) }
        requires sound { J.premise → IsSound S.is_sound S.shows core }
        requires device { J.refused ≤ S.refused (store_of core) }
        requires settled { J.callers ≡ Some count }
        ensures { IfOk result (λ r. AreNew count r.1.items) }
    {
        let mut keeper = keeper;
        let callers = newcomers::<J>(alloc, &cell, &mut keeper, count)?;
        let desk = Mutex::new(Desk::new(core, keeper));
        Ok((Shared { cell, desk }, callers))
    }

    /// The core, once no thread shares it: its world is the one after a legal history. Of each
    /// caller that is handed in this history has the calls that it made and no others, and it
    /// begins with all that the caller has seen. Where the callers were settled, no other made a
    /// call in it. The core counts as many refused calls as were told X0002 at least.
    pub fn into_core<R: Wait>(self, rt: &R, callers: Vec<Client<J>>) -> Core<S, L>
        ensures { HasHistory J.premise J.start J.refused J.callers callers.items (IsSound S.is_sound S.shows result) (world_of S.shows result) (S.refused (store_of result)) }
    {
        let Shared { cell, desk } = self;
        let (core, keeper) = desk.into_inner().into_parts();
        let mut keeper = keeper;
        for client in callers {
            hear(rt, &cell, &mut keeper, client);
        }
        core
    }

    /// One caller more, which has no session and has seen nothing yet.
    pub fn newcomer<R: Wait>(&self, rt: &R) -> Client<J>
        requires { J.callers ≡ None }
        ensures { (result.seen ≡ []) × (result.mine ≡ []) × (result.at ≡ None) }
    {
        self.desk.lock(rt).newcomer(&self.cell)
    }

    /// Makes the caller a session. Where that is refused, by the limit `sessions`, the caller comes
    /// back and may try again.
    pub fn connect<R: Wait>(
        &self,
        rt: &R,
        me: Client<J>,
    ) -> Result<Session<J>, (Refusal, Client<J>)>
        ensures ok { IfOk result (λ s. Joined J.premise J.start J.refused me s) }
        ensures err { IfErr result (λ e. TurnedAway J.premise J.start J.refused me e.0 e.1) }
        ensures full { IfErr result (λ e. e.0 ≡ Exceeded limit.Sessions) }
    {
        self.desk.lock(rt).connect(rt, &self.cell, me)
    }

    /// Whether the text is a query, which `execute_in_turns` asks in turns. It says no for want of
    /// memory too. It is no call of the history.
    pub fn is_query<R: Wait>(&self, rt: &R, text: &[u8]) -> bool
        ensures { IsTrue result → IsQueryText text.now }
    {
        self.desk.lock(rt).is_query(text)
    }

    /// Writes some of what is committed and not on the device yet, and answers how many pages are
    /// left. It is no call of the history. Only want of memory and the device refuse it; what was
    /// not written then is written later.
    pub fn flush<R: Wait>(&self, rt: &R) -> Result<u32, Refusal>
        ensures { IfErr result StopsFlush }
    {
        self.desk.lock(rt).flush()
    }
}

/// A cell of no calls, and its pass, of which those of callers are cut.
pub fn new_cell(alloc: Global) -> Result<(Cell, Token), AllocError>
    ensures { IfOk result (λ r. (r.1.table_id ≡ r.0.table.shared.table_id) × (cell_view r.1 ≡ keeper_of 0 [])) }
{
    Cell::ruled(alloc, [0])
}

/// So many callers that have made no call, by their numbers.
fn newcomers<J: Room>(
    alloc: Global,
    cell: &Cell,
    keeper: &mut Token,
    count: usize,
) -> Result<Vec<Client<J>>, AllocError>
    requires cell { (keeper.old.table_id ≡ cell.now.table.shared.table_id)
        × (cell.now.table.shared.table_id ≡ J.table) }
    requires view { cell_view keeper.old ≡ keeper_of 0 [] }
    ensures keeper { OnOk result ((keeper.new.table_id ≡ keeper.old.table_id)
        × (cell_view keeper.new ≡ keeper_of count [])) }
    ensures callers { IfOk result (λ v. AreNew count v.items) }
{
    let mut callers = Vec::new(alloc);
    for _number in 0..count {
        let caller = newcomer::<J>(cell, keeper);
        callers.push(caller)?;
    }
    Ok(callers)
}

impl<J: Room> Session<J> {
    /// Carries out a statement, and answers its reply: the one that a step of the core gives there,
    /// in one legal history of the calls of all callers. That history begins with all that this
    /// caller had seen, and ends with this call; its calls in it are those that it made. X0002 is
    /// told only where the device refused a call, and ROLLBACK always succeeds.
    pub fn execute<S: Store, L: Language + Changes<S>, R: Wait>(
        &mut self,
        rt: &R,
        shared: &Shared<S, L, J>,
        text: &[u8],
    ) -> Reply
        ensures { Said J.premise J.start J.refused self.old text.now result self.new }
    {
        shared.desk.lock(rt).say(rt, &shared.cell, self, text)
    }

    /// Rolls back the session's transaction and ends the session.
    pub fn end<S: Store, L: Language + Changes<S>, R: Wait>(
        self,
        rt: &R,
        shared: &Shared<S, L, J>,
    ) -> Client<J>
        ensures { Left J.premise J.start J.refused self result }
    {
        shared.desk.lock(rt).end(rt, &shared.cell, self)
    }
}
