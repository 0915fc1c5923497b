//! Scripts, each on a thread of its own, over one core.
ghost use Rattle.std.specs.Prelude.{◌≡◌, ◌≤◌, ℕ, ◌+◌, ◌<◌, Some, None, [], ◌∷◌, ◌++◌, true, false, length, vec_len, slice_get, slice_index_or, IfOk, IfErr, IfSome, OnOk};
ghost use mathlib.Core.List.{IsPrefix};
ghost use Rattle.crossbeam_utils.specs.Seq.{cell_view};
ghost use Rattle.session_definitions.specs.World.{is_live};
ghost use Rattle.sessions.specs.OfCore.{IsSound, world_of};
ghost use Rattle.shared.specs.Views.{keeper as keeper_of};
ghost use Rattle.shared.specs.Scripts.{Asks, asked, after, closing, Played, texts_of, texts_at, RunSideBySide, store_of};
ghost use Rattle.shared.specs.Callers.{past_of, stands_of, HasPlayed, AllPlayed};

use crate::callers::Client;
use crate::desk::{Desk, hear, newcomer};
use crate::flusher::{Flusher, Waker};
use crate::gate::Gate;
use crate::jobs::{Answers, Caller, Done, Job, numbered};
use crate::lock::{Shared, new_cell};
use crate::rule::{Cell, Room, Token};
use refusals::Refusal;
use replies::Reply;
use sessions::{Changes, Core, Language};
use std::alloc::{AllocError, Global};
use std::marker::Brand;
use std::sync::{Mutex, Wait};
use std::thread;
use std::thread::Threads;
use store::Store;

/// Runs each script, a list of texts, on a thread of its own, all in sessions of this core, in
/// which none stands; hands the core back with each script's answers, in the order of its texts.
///
/// A script's session is made just before a call for which it does not stand, and ended after the
/// last; where none is made, the refusal is the text's answer, and the text is not carried out.
/// There is one history of all calls: of each script it has these calls and no others, with these
/// answers, and it is legal where the core was sound and its databases good. An answer is X0002
/// only where the device refused a call. Only want of memory is refused; the core is dropped then.
///
/// Beside them a flusher writes what is committed: each call wakes it, and it ends with the last
/// script. It makes no call, and a refusal of it is no answer.
pub fn run_scripts<
    S: Store + Send,
    L: Language + Changes<S> + Send,
    G: Gate + Sync,
    R: Threads + Wait + Sync,
>(
    rt: &R,
    alloc: Global,
    core: Core<S, L>,
    scripts: &[Vec<Vec<u8>>],
    gate: &G,
) -> Result<(Core<S, L>, Vec<Answers>), AllocError>
where
    S::Device: Send,
    requires { (id : ℕ) → is_live (world_of S.shows core) id ≡ false }
    ensures { IfOk result (λ r. RunSideBySide (IsSound S.is_sound S.shows core) (world_of S.shows core) (S.refused (store_of core)) scripts.now r.1.items
        (IsSound S.is_sound S.shows r.0) (world_of S.shows r.0) (S.refused (store_of r.0))) }
{
    let (cell, keeper) = new_cell(alloc)?;
    run_in::<S, L, Brand, G, R>(rt, alloc, cell, keeper, core, scripts, gate)
}

/// The same over a cell that was made.
fn run_in<
    S: Store + Send,
    L: Language + Changes<S> + Send,
    J: Room + Send + Sync,
    G: Gate + Sync,
    R: Threads + Wait + Sync,
>(
    rt: &R,
    alloc: Global,
    cell: Cell,
    keeper: Token,
    core: Core<S, L>,
    scripts: &[Vec<Vec<u8>>],
    gate: &G,
) -> Result<(Core<S, L>, Vec<Answers>), AllocError>
where
    S::Device: Send,
    requires cell { (keeper.table_id ≡ cell.table.shared.table_id) × (cell.table.shared.table_id ≡ J.table) }
    requires view { cell_view keeper ≡ keeper_of 0 [] }
    requires core { (world_of S.shows core ≡ J.start) × ((id : ℕ) → is_live (world_of S.shows core) id ≡ false) }
    requires sound { J.premise → IsSound S.is_sound S.shows core }
    requires device { J.refused ≤ S.refused (store_of core) }
    requires limit { J.callers ≡ Some (length scripts.now) }
    ensures { IfOk result (λ r. RunSideBySide J.premise J.start J.refused scripts.now r.1.items (IsSound S.is_sound S.shows r.0) (world_of S.shows r.0) (S.refused (store_of r.0))) }
{
    let mut keeper = keeper;
    let (flusher, waker) = Flusher::new(alloc)?;
    let jobs = jobs_for::<J>(alloc, &cell, &mut keeper, waker, scripts.len())?;
    let owned = Shared {
        cell,
        desk: Mutex::new(Desk::new(core, keeper)),
    };
    let shared = &owned;
    // Where no thread can be made for the flusher it works last: no waker is left then, and it ends.
    let (_, done) = thread::join(
        rt,
        move || flusher.work(rt, shared),
        move || -> Result<Vec<Option<Done<J>>>, AllocError>
            requires { (length jobs.items ≡ length scripts.now)
                × ((k : ℕ) (d : _) → k < length jobs.items → (slice_index_or jobs.items k d).number ≡ k) }
            ensures { IfOk result (λ v. (length v.items ≡ length scripts.entry.now)
                × AllPlayed scripts.entry.now v.items) }
        { play_all(rt, alloc, shared, gate, scripts, jobs) },
    );
    settle(rt, alloc, owned, scripts, done?)
}

/// A caller for each script, with a waker of its own: once all have run none is left.
fn jobs_for<J: Room>(
    alloc: Global,
    cell: &Cell,
    keeper: &mut Token,
    first: Waker,
    count: usize,
) -> Result<Vec<Job<J>>, AllocError>
    requires cell { (keeper.old.table_id ≡ cell.now.table.shared.table_id)
        × (cell.now.table.shared.table_id ≡ J.table) }
    requires view { cell_view keeper.old ≡ keeper_of 0 [] }
    ensures keeper { OnOk result ((keeper.new.table_id ≡ keeper.old.table_id)
        × (cell_view keeper.new ≡ keeper_of count [])) }
    ensures jobs { IfOk result (λ v. (length v.items ≡ count)
        × ((k : ℕ) (d : _) → k < length v.items → (slice_index_or v.items k d).number ≡ k)) }
{
    let mut jobs = Vec::new(alloc);
    for number in 0..count {
        let waker = first.another()?;
        let client = newcomer::<J>(cell, keeper);
        jobs.push(numbered(number, client, waker))?;
    }
    Ok(jobs)
}

/// Runs each script on a thread of its own.
fn play_all<
    S: Store + Send,
    L: Language + Changes<S> + Send,
    J: Room + Send + Sync,
    G: Gate + Sync,
    R: Threads + Wait + Sync,
>(
    rt: &R,
    alloc: Global,
    shared: &Shared<S, L, J>,
    gate: &G,
    scripts: &[Vec<Vec<u8>>],
    jobs: Vec<Job<J>>,
) -> Result<Vec<Option<Done<J>>>, AllocError>
where
    S::Device: Send,
    requires { (length jobs.items ≡ length scripts.now)
        × ((k : ℕ) (d : _) → k < length jobs.items → (slice_index_or jobs.items k d).number ≡ k) }
    ensures { IfOk result (λ v. (length v.items ≡ length scripts.now) × AllPlayed scripts.now v.items) }
{
    thread::map_vec(
        rt,
        jobs,
        &|job: Job<J>| -> Option<Done<J>>
            ensures { HasPlayed scripts.entry.now job.number result }
        {
            let number = job.number;
            match scripts.get(number) {
                Some(script) => play(rt, alloc, shared, gate, job, script.as_slice()),
                None => None,
            }
        },
    )
}

/// Runs one script; `None` for want of memory for its answers. Its session is ended in any case.
/// Each call wakes the flusher.
fn play<S: Store, L: Language + Changes<S>, J: Room, G: Gate, R: Wait>(
    rt: &R,
    alloc: Global,
    shared: &Shared<S, L, J>,
    gate: &G,
    job: Job<J>,
    script: &[Vec<u8>],
) -> Option<Done<J>>
    ensures { IfSome result (λ d. (d.client.who ≡ job.number)
        × Played (texts_of script.now) d.client.mine d.answers.items) }
{
    let Job {
        number,
        client,
        waker,
    } = job;
    let mut answers = Vec::new(alloc);
    let mut caller = Caller::Idle(client);
    for i in 0..script.len() {
        gate.before(number.saturating_add(1), i.saturating_add(1));
        let (next, answer) = call(rt, shared, caller, script[i].as_slice());
        waker.wake(rt);
        caller = next;
        if answers.push(answer).is_err() {
            finish(rt, shared, caller);
            return None;
        }
    }
    let client = finish(rt, shared, caller);
    Some(Done { client, answers })
}

/// Makes the call of a text, in a session that is made where it does not stand.
fn call<S: Store, L: Language + Changes<S>, J: Room, R: Wait>(
    rt: &R,
    shared: &Shared<S, L, J>,
    caller: Caller<J>,
    text: &[u8],
) -> (Caller<J>, Result<Reply, Refusal>)
    ensures asks { Asks (past_of caller) (asked (stands_of caller) text.now result.1) (past_of result.0) }
    ensures stands { stands_of result.0 ≡ after (stands_of caller) result.1 }
    ensures none { IfErr result.1 (λ _. stands_of caller ≡ false) }
{
    let mut session = match caller {
        Caller::Stands(session) => session,
        Caller::Idle(client) => match shared.connect(rt, client) {
            Ok(session) => session,
            Err((refusal, client)) => return (Caller::Idle(client), Err(refusal)),
        },
    };
    let reply = session.execute(rt, shared, text);
    (Caller::Stands(session), Ok(reply))
}

/// Ends the session where one stands.
fn finish<S: Store, L: Language + Changes<S>, J: Room, R: Wait>(
    rt: &R,
    shared: &Shared<S, L, J>,
    caller: Caller<J>,
) -> Client<J>
    ensures { Asks (past_of caller) (closing (stands_of caller)) result }
{
    match caller {
        Caller::Idle(client) => client,
        Caller::Stands(session) => session.end(rt, shared),
    }
}

/// Takes the core from under the lock, and each script's answers: the history has heard of all that
/// the scripts' callers did.
fn settle<S: Store, L: Language + Changes<S>, J: Room, R: Wait>(
    rt: &R,
    alloc: Global,
    shared: Shared<S, L, J>,
    scripts: &[Vec<Vec<u8>>],
    done: Vec<Option<Done<J>>>,
) -> Result<(Core<S, L>, Vec<Answers>), AllocError>
    requires limit { J.callers ≡ Some (length scripts.now) }
    requires done { (length done.items ≡ length scripts.now) × AllPlayed scripts.now done.items }
    ensures { IfOk result (λ r. RunSideBySide J.premise J.start J.refused scripts.now r.1.items (IsSound S.is_sound S.shows r.0) (world_of S.shows r.0) (S.refused (store_of r.0))) }
{
    let Shared { cell, desk } = shared;
    let (core, keeper) = desk.into_inner().into_parts();
    let mut keeper = keeper;
    let mut replies = Vec::new(alloc);
    for one in done {
        let Some(Done { client, answers }) = one else {
            return Err(AllocError);
        };
        hear(rt, &cell, &mut keeper, client);
        replies.push(answers)?;
    }
    Ok((core, replies))
}
