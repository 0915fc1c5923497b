//! Scripts side by side over any store, from their bytes to what is printed of them and what is
//! handed back.
ghost use Rattle.std.specs.Prelude.{◌≡◌, ⊤, ◌⊎◌, ◌≤◌, ◌<◌, ℕ, false, length, IfOk, IfErr};
ghost use Rattle.denote.specs.Database.{Database};
ghost use Rattle.refusals.specs.declared.refusal.Refusal.TheVariants.{Damaged, Disk, Exceeded};
ghost use Rattle.refusals.specs.declared.limit.Limit.TheVariants as limit;
ghost use Rattle.session_definitions.specs.Refusals.{StopsFlush};
ghost use Rattle.session_definitions.specs.World.{is_live, new_world, opened};
ghost use Rattle.sessions.specs.OfCore.{IsSound, world_of};
ghost use Rattle.sessions.specs.Opening.{Stays};
ghost use Rattle.store.specs.Errors.{HasRisen};
ghost use Rattle.parallel_scripts.specs.declared.handed.HandedBack.TheVariants as handed;
ghost use Rattle.parallel_scripts.specs.Ends.{Ends, IsStatus, Puts, Tells};
ghost use Rattle.parallel_scripts.specs.Handed.{HandsAny, HandsBack, HasRefused, IfUnopened, IsToldUnopened, IsUnopened, store_of};
ghost use Rattle.parallel_scripts.specs.Many.{ComesTo, Cuts, Opens, Runs};

use crate::closing::{REFUSED, print_all};
use crate::cut::{CutScripts, cut_all};
use crate::ending::{Exit, FAILED, ended, say};
use crate::handed::{EndedScripts, HandedBack, Printed};
use frame_count::Frames;
use refusals::{Limit, Refusal};
use sessions::{MOST_SESSIONS, Refused};
use shared::{Gate, run_scripts};
use sqlcore::{Core, Sql};
use std::alloc::Global;
use std::io::Write;
use std::sync::Wait;
use std::thread::Threads;
use store::Store;

/// Carries out scripts side by side over the store on this device, each in a session and on a
/// thread of its own, and prints for each, in their order, a line with its number and its replies.
/// The exit status is 0; 1 where a reply was a refusal; 1 where the scripts were refused, which
/// alone is printed then: by the limit `sessions` exactly where there are more than 64, or for want
/// of memory for their answers; 3 where there was no memory for the texts of their calls, or the
/// store could not be opened or closed, which is printed, or the writer refused, which a line
/// `ERROR X0002` says where it can be written: `is_told` tells whether it was.
///
/// Where the store was not opened, the device is handed back: what was saved stays, and where it is
/// refused as damaged, so do the bytes; only an empty device may be left as one that opens as
/// empty, or is refused as damaged (`begun`). Once scripts have run the store is closed, and its
/// device is handed back, synced, with what was committed last saved on it; or the core is, where
/// the device refuses that. That the device refused is said, in a reply or of the store, only where
/// it refused a call: what is handed back counts more of them. A device that cannot be read as a
/// store's is not opened.
pub fn many_on<S: Store + Send, G: Gate + Sync, R: Threads + Wait + Sync, W: Write>(
    rt: &R,
    alloc: Global,
    frames: Frames,
    device: S::Device,
    scripts: &[Vec<u8>],
    gate: &G,
    writer: &mut W,
) -> EndedScripts<S>
where
    S::Device: Send,
    ensures status { IsStatus result.status }
    ensures many { 64 < length scripts.now
        → Ends (Tells (Exceeded limit.Sessions) 1) (W.contents writer.old) (W.contents writer.new) result.status result.is_told }
    ensures back { 64 < length scripts.now → result.back ≡ handed.Unopened device }
    ensures any_device { HandsAny (S.readable device) S.settled S.calls_refused S.refused (S.calls_refused device) result.back }
    ensures runs { (db : Database) → S.saved device db
        → Ends (ComesTo (opened db) (HandsBack S.saved (Stays S.saved S.is_new S.is_begun device) S.settled S.calls_refused S.refused (S.calls_refused device) (opened db) result.back)
        (HasRefused S.calls_refused S.refused (S.calls_refused device) result.back) scripts.now) (W.contents writer.old) (W.contents writer.new) result.status result.is_told }
    ensures begun { S.is_begun device → IsUnopened result.back
        ⊎ Ends (ComesTo new_world (HandsBack S.saved (Stays S.saved S.is_new S.is_begun device) S.settled S.calls_refused S.refused (S.calls_refused device) new_world result.back)
        (HasRefused S.calls_refused S.refused (S.calls_refused device) result.back) scripts.now) (W.contents writer.old) (W.contents writer.new) result.status result.is_told }
    ensures unopened { IfUnopened result.back (IsToldUnopened S.is_honest S.same (λ refusal status. Ends (Tells refusal status) (W.contents writer.old) (W.contents writer.new) result.status result.is_told) device) }
{
    let Printed { outcome, back } = count_and_run::<S, G, R, W>(
        rt, alloc, frames, device, scripts, gate, writer,
    );
    let Exit { status, is_told } = ended(outcome, writer);
    EndedScripts {
        status,
        is_told,
        back,
    }
}

/// Carries out scripts and prints their replies, or why they are refused.
fn count_and_run<S: Store + Send, G: Gate + Sync, R: Threads + Wait + Sync, W: Write>(
    rt: &R,
    alloc: Global,
    frames: Frames,
    device: S::Device,
    scripts: &[Vec<u8>],
    gate: &G,
    writer: &mut W,
) -> Printed<S>
where
    S::Device: Send,
    ensures status { IfOk result.outcome IsStatus }
    ensures many { 64 < length scripts.now
        → Puts (Tells (Exceeded limit.Sessions) 1) (W.contents writer.old) (W.contents writer.new) result.outcome }
    ensures back { 64 < length scripts.now → result.back ≡ handed.Unopened device }
    ensures any_device { HandsAny (S.readable device) S.settled S.calls_refused S.refused (S.calls_refused device) result.back }
    ensures runs { (db : Database) → S.saved device db
        → Puts (ComesTo (opened db) (HandsBack S.saved (Stays S.saved S.is_new S.is_begun device) S.settled S.calls_refused S.refused (S.calls_refused device) (opened db) result.back)
        (HasRefused S.calls_refused S.refused (S.calls_refused device) result.back) scripts.now) (W.contents writer.old) (W.contents writer.new) result.outcome }
    ensures begun { S.is_begun device → IsUnopened result.back
        ⊎ Puts (ComesTo new_world (HandsBack S.saved (Stays S.saved S.is_new S.is_begun device) S.settled S.calls_refused S.refused (S.calls_refused device) new_world result.back)
        (HasRefused S.calls_refused S.refused (S.calls_refused device) result.back) scripts.now) (W.contents writer.old) (W.contents writer.new) result.outcome }
    ensures unopened { IfUnopened result.back (IsToldUnopened S.is_honest S.same (λ refusal status. Puts (Tells refusal status) (W.contents writer.old) (W.contents writer.new) result.outcome) device) }
{
    if scripts.len() > MOST_SESSIONS {
        return unopened(Refusal::Exceeded(Limit::Sessions), device, REFUSED, writer);
    }
    cut_and_run::<S, G, R, W>(rt, alloc, frames, device, scripts, gate, writer)
}

/// Cuts scripts into pieces, and carries them out.
fn cut_and_run<S: Store + Send, G: Gate + Sync, R: Threads + Wait + Sync, W: Write>(
    rt: &R,
    alloc: Global,
    frames: Frames,
    device: S::Device,
    scripts: &[Vec<u8>],
    gate: &G,
    writer: &mut W,
) -> Printed<S>
where
    S::Device: Send,
    ensures status { IfOk result.outcome IsStatus }
    ensures any_device { HandsAny (S.readable device) S.settled S.calls_refused S.refused (S.calls_refused device) result.back }
    ensures cuts { (db : Database) → S.saved device db
        → Puts (Cuts (opened db) (HandsBack S.saved (Stays S.saved S.is_new S.is_begun device) S.settled S.calls_refused S.refused (S.calls_refused device) (opened db) result.back)
        (HasRefused S.calls_refused S.refused (S.calls_refused device) result.back) scripts.now) (W.contents writer.old) (W.contents writer.new) result.outcome }
    ensures begun { S.is_begun device → IsUnopened result.back
        ⊎ Puts (Cuts new_world (HandsBack S.saved (Stays S.saved S.is_new S.is_begun device) S.settled S.calls_refused S.refused (S.calls_refused device) new_world result.back)
        (HasRefused S.calls_refused S.refused (S.calls_refused device) result.back) scripts.now) (W.contents writer.old) (W.contents writer.new) result.outcome }
    ensures unopened { IfUnopened result.back (IsToldUnopened S.is_honest S.same (λ refusal status. Puts (Tells refusal status) (W.contents writer.old) (W.contents writer.new) result.outcome) device) }
{
    match cut_all(alloc, scripts) {
        Ok(cut) => open_and_run::<S, G, R, W>(rt, alloc, frames, device, &cut, gate, writer),
        Err(_) => unopened(Refusal::Memory, device, FAILED, writer),
    }
}

/// Opens the store, and carries out scripts that were cut.
fn open_and_run<S: Store + Send, G: Gate + Sync, R: Threads + Wait + Sync, W: Write>(
    rt: &R,
    alloc: Global,
    frames: Frames,
    device: S::Device,
    scripts: &CutScripts,
    gate: &G,
    writer: &mut W,
) -> Printed<S>
where
    S::Device: Send,
    ensures status { IfOk result.outcome IsStatus }
    ensures any_device { HandsAny (S.readable device) S.settled S.calls_refused S.refused (S.calls_refused device) result.back }
    ensures opens { (db : Database) → S.saved device db
        → Puts (Opens (opened db) (HandsBack S.saved (Stays S.saved S.is_new S.is_begun device) S.settled S.calls_refused S.refused (S.calls_refused device) (opened db) result.back)
        (HasRefused S.calls_refused S.refused (S.calls_refused device) result.back) scripts.now.texts.items scripts.now.parts.items) (W.contents writer.old) (W.contents writer.new) result.outcome }
    ensures begun { S.is_begun device → IsUnopened result.back
        ⊎ Puts (Opens new_world (HandsBack S.saved (Stays S.saved S.is_new S.is_begun device) S.settled S.calls_refused S.refused (S.calls_refused device) new_world result.back)
        (HasRefused S.calls_refused S.refused (S.calls_refused device) result.back) scripts.now.texts.items scripts.now.parts.items) (W.contents writer.old) (W.contents writer.new) result.outcome }
    ensures unopened { IfUnopened result.back (IsToldUnopened S.is_honest S.same (λ refusal status. Puts (Tells refusal status) (W.contents writer.old) (W.contents writer.new) result.outcome) device) }
{
    match core_on::<S>(alloc, frames, device) {
        Ok(core) => carry_out(rt, alloc, core, scripts, gate, writer),
        Err(refused) => unopened(refused.refusal, refused.value, FAILED, writer),
    }
}

/// Prints why the store on this device was not opened, and hands the device back.
fn unopened<S: Store, W: Write>(
    refusal: Refusal,
    device: S::Device,
    status: u8,
    writer: &mut W,
) -> Printed<S>
    ensures puts { Puts (Tells refusal status) (W.contents writer.old) (W.contents writer.new) result.outcome }
    ensures status { IsStatus status → IfOk result.outcome IsStatus }
    ensures back { result.back ≡ handed.Unopened device }
{
    Printed {
        outcome: say(refusal, status, writer),
        back: HandedBack::Unopened(device),
    }
}

/// The core of the store on a device, with room for as many pages as there are frames. A refusal
/// hands the device back.
fn core_on<S: Store>(
    alloc: Global,
    frames: Frames,
    device: S::Device,
) -> Result<Core<S>, Refused<S::Device>>
    ensures frames { IfOk result (λ core. S.room (store_of core) ≡ frames.count) }
    ensures opened { IfOk result (λ core. (db : Database) → S.saved device db
        → IsSound S.is_sound S.shows core × (world_of S.shows core ≡ opened db)) }
    ensures empty { IfOk result (λ core. (id : ℕ) → is_live (world_of S.shows core) id ≡ false) }
    ensures readable { IfOk result (λ core. S.readable device) }
    ensures counts { IfOk result (λ core. S.calls_refused device ≤ S.refused (store_of core)) }
    ensures refused { IfErr result (λ back. (db : Database) → S.saved device db → StopsFlush back.refusal) }
    ensures device { IfErr result (λ back. back.refusal ≡ Disk
        → HasRisen (S.calls_refused device) (S.calls_refused back.value)) }
    ensures begun { S.is_begun device
        → IfOk result (λ core. IsSound S.is_sound S.shows core × (world_of S.shows core ≡ new_world)) }
    ensures same { S.is_honest device → IfErr result (λ back. back.refusal ≡ Damaged → S.same device back.value) }
    ensures left { IfErr result (λ back. (db : Database) → S.saved device db
        → Stays S.saved S.is_new S.is_begun device back.value db) }
{
    Core::open(alloc, Sql, device, frames.get() as usize)
}

/// Carries out scripts side by side over a core without sessions, and prints their replies.
fn carry_out<S: Store + Send, G: Gate + Sync, R: Threads + Wait + Sync, W: Write>(
    rt: &R,
    alloc: Global,
    core: Core<S>,
    scripts: &CutScripts,
    gate: &G,
    writer: &mut W,
) -> Printed<S>
where
    S::Device: Send,
    requires { (id : ℕ) → is_live (world_of S.shows core) id ≡ false }
    ensures status { IfOk result.outcome IsStatus }
    ensures any_device { (before : ℕ) → before ≤ S.refused (store_of core)
        → HandsAny ⊤ S.settled S.calls_refused S.refused before result.back }
    ensures opened { IsUnopened result.back → ⊥ }
    ensures runs { (before : ℕ) → before ≤ S.refused (store_of core) → IsSound S.is_sound S.shows core
        → Puts (Runs (world_of S.shows core) (HandsBack S.saved S.saved S.settled S.calls_refused S.refused before (world_of S.shows core) result.back)
        (HasRefused S.calls_refused S.refused before result.back) scripts.now.texts.items scripts.now.parts.items) (W.contents writer.old) (W.contents writer.new) result.outcome }
{
    let texts = scripts.texts.as_slice();
    let parts = scripts.parts.as_slice();
    match run_scripts(rt, alloc, core, texts, gate) {
        Ok((core, answers)) => print_all(core, parts, answers, writer),
        Err(_) => Printed {
            outcome: say(Refusal::Memory, REFUSED, writer),
            back: HandedBack::Nothing,
        },
    }
}
