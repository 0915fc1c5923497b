//! The store of `sqlmany`, which is chosen here alone.
ghost use Rattle.std.specs.Prelude.{◌<◌, false, [], length};
ghost use Rattle.refusals.specs.declared.refusal.Refusal.TheVariants.{Exceeded};
ghost use Rattle.refusals.specs.declared.limit.Limit.TheVariants as limit;
ghost use Rattle.session_definitions.specs.World.{new_world};
ghost use Rattle.sessions.specs.Opening.{Stays};
ghost use Rattle.parallel_scripts.specs.Ends.{Ends, IsStatus, Tells};
ghost use Rattle.parallel_scripts.specs.Handed.{HandsBack, HasRefused};
ghost use Rattle.parallel_scripts.specs.Many.{ComesTo};

use crate::handed::EndedScripts;
use crate::many::many_on;
use disk::{Disk, MemDisk};
use frame_count::Frames;
use paged_store::Paged;
use shared::Gate;
use std::alloc::Global;
use std::io::Write;
use std::sync::Wait;
use std::thread::Threads;
use store::Store;

/// Tables in the pages of a device in memory.
type Tables = Paged<MemDisk>;

/// Carries out scripts side by side over a new database in memory, as `many_on` does over any
/// store.
pub fn many_in_memory<G: Gate + Sync, R: Threads + Wait + Sync, W: Write>(
    rt: &R,
    alloc: Global,
    frames: Frames,
    scripts: &[Vec<u8>],
    gate: &G,
    writer: &mut W,
) -> EndedScripts<Tables>
    ensures status { IsStatus result.status }
    ensures many { 64 < length scripts.now
        → Ends (Tells (Exceeded limit.Sessions) 1) (W.contents writer.old) (W.contents writer.new) result.status result.is_told }
    ensures runs { Ends (ComesTo new_world (HandsBack ⟦<Paged<MemDisk> as Store>⟧.saved (Stays ⟦<Paged<MemDisk> as Store>⟧.saved ⟦<Paged<MemDisk> as Store>⟧.is_new ⟦<Paged<MemDisk> as Store>⟧.is_begun (record { bytes = []; refused = 0; synced = 0; writes = 0; settled = false })) ⟦<Paged<MemDisk> as Store>⟧.settled ⟦<MemDisk as Disk>⟧.refused ⟦<Paged<MemDisk> as Store>⟧.refused 0 new_world result.back)
        (HasRefused ⟦<MemDisk as Disk>⟧.refused ⟦<Paged<MemDisk> as Store>⟧.refused 0 result.back) scripts.now) (W.contents writer.old) (W.contents writer.new) result.status result.is_told }
{
    let device = MemDisk::new(alloc);
    many_on::<Tables, G, R, W>(rt, alloc, frames, device, scripts, gate, writer)
}
