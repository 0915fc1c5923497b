//! A query in turns: the lock is taken anew for every so many of its rows.
ghost use Rattle.std.specs.Prelude.{◌≡◌, ◌<◌, ◌≤◌, ◌⊎◌, [], ◌++◌, length, IfOk, IfErr, IfSome};
ghost use Rattle.lexer.specs.Token.{Bytes};
ghost use Rattle.shared.specs.Turned.{HasCome, HasTaken, InAllTurns, SaidInTurns};
ghost use Rattle.shared.specs.Views.{Past, Said};

use crate::callers::Session;
use crate::lock::Shared;
use crate::rule::Room;
use denote::Rows;
use items::Items;
use refusals::Refusal;
use replies::Reply;
use sessions::{Changes, Language};
use std::alloc::Global;
use std::sync::Wait;
use store::Store;

impl<J: Room> Session<J> {
    /// Carries out a statement as `execute` does, but a query in turns, so that others make their
    /// calls between: one opens it, further ones take so many of its rows each, and the last closes
    /// it. Each is a call of the history. The reply is all rows, or the first refusal, or want of
    /// memory to keep them; the query is closed then, and a transaction that it began stays. A
    /// query is carried out as `execute` does for want of memory to see that it is one.
    pub fn execute_in_turns<S: Store, L: Language + Changes<S>, R: Wait>(
        &mut self,
        rt: &R,
        alloc: Global,
        shared: &Shared<S, L, J>,
        text: &[u8],
        count: u64,
    ) -> Reply
        requires { 0 < count }
        ensures { Said J.premise J.start J.refused self.old text.now result self.new
            ⊎ SaidInTurns J.premise J.start J.refused self.old text.now count result self.new }
    {
        if shared.is_query(rt, text) {
            query_in_turns(rt, alloc, shared, self, text, count)
        } else {
            self.execute(rt, shared, text)
        }
    }
}

/// All turns of a query, which it opens first.
fn query_in_turns<S: Store, L: Language + Changes<S>, J: Room, R: Wait>(
    rt: &R,
    alloc: Global,
    shared: &Shared<S, L, J>,
    me: &mut Session<J>,
    text: &[u8],
    count: u64,
) -> Reply
    ensures { InAllTurns J.premise J.start J.refused me.old text.now count result me.new }
{
    let opening = shared.desk.lock(rt).open_query(rt, &shared.cell, me, text);
    match opening {
        Reply::Done => rows_in_turns(rt, alloc, shared, me, count),
        refused => refused,
    }
}

/// The rows of the query that was opened, until a turn gives fewer than it might.
fn rows_in_turns<S: Store, L: Language + Changes<S>, J: Room, R: Wait>(
    rt: &R,
    alloc: Global,
    shared: &Shared<S, L, J>,
    me: &mut Session<J>,
    count: u64,
) -> Reply
    ensures { (v : Past) (text : Bytes) → HasTaken J.premise J.start J.refused v text count [] me.old
        → InAllTurns J.premise J.start J.refused v text count result me.new }
{
    let mut found = Items::new(alloc);
    'taken: for _ in rt.forever() {
        match turn(rt, shared, me, count, found) {
            Ok(more) => found = more,
            Err(reply) => return reply,
        }
    }
    unreachable!()
}

/// One turn: the rows that came before with those of this turn behind them, or the reply, where the
/// query is closed.
fn turn<S: Store, L: Language + Changes<S>, J: Room, R: Wait>(
    rt: &R,
    shared: &Shared<S, L, J>,
    me: &mut Session<J>,
    count: u64,
    found: Rows,
) -> Result<Rows, Reply>
    ensures goes { IfOk result (λ rows. (v : Past) (text : Bytes)
        → HasTaken J.premise J.start J.refused v text count found me.old
        → HasTaken J.premise J.start J.refused v text count rows me.new) }
    ensures ends { IfErr result (λ reply. (v : Past) (text : Bytes)
        → HasTaken J.premise J.start J.refused v text count found me.old
        → InAllTurns J.premise J.start J.refused v text count reply me.new) }
{
    let taken = shared.desk.lock(rt).take_rows(rt, &shared.cell, me, count);
    match taken {
        Reply::Rows(rows) => put_behind(rt, shared, me, count, found, rows),
        refused => Err(refused),
    }
}

/// The rows that a turn gave behind those from before. Where they are the last, and where memory to
/// keep them lacks, the query is closed.
fn put_behind<S: Store, L: Language + Changes<S>, J: Room, R: Wait>(
    rt: &R,
    shared: &Shared<S, L, J>,
    me: &mut Session<J>,
    count: u64,
    found: Rows,
    rows: Rows,
) -> Result<Rows, Reply>
    requires { length rows ≤ count }
    ensures goes { IfOk result (λ all. (v : Past) (text : Bytes)
        → HasCome J.premise J.start J.refused v text count found rows me.old
        → HasTaken J.premise J.start J.refused v text count all me.new) }
    ensures ends { IfErr result (λ reply. (v : Past) (text : Bytes)
        → HasCome J.premise J.start J.refused v text count found rows me.old
        → InAllTurns J.premise J.start J.refused v text count reply me.new) }
{
    let is_last = (rows.len() as u64) < count;
    match joined(found, rows) {
        Some(all) => {
            if is_last {
                shared.desk.lock(rt).close_query(rt, &shared.cell, me);
                Err(Reply::Rows(all))
            } else {
                Ok(all)
            }
        }
        None => {
            shared.desk.lock(rt).close_query(rt, &shared.cell, me);
            Err(Reply::Refused(Refusal::Memory))
        }
    }
}

/// These rows and those behind them; none where memory lacks.
fn joined(found: Rows, rows: Rows) -> Option<Rows>
    ensures { IfSome result (λ all. all ≡ found ++ rows) }
{
    let mut all = found;
    match all.append(rows) {
        Ok(()) => Some(all),
        Err(_) => None,
    }
}
