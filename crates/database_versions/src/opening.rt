//! The first version of what lies on a device.
ghost use Rattle.std.specs.Prelude.{◌≡◌, ◌≤◌, [], length, IsTrue, IfOk, IfErr};
ghost use Rattle.denote.specs.Database.{Database};
ghost use Rattle.store.specs.Errors.{MayFail, Never};
ghost use Rattle.pool.specs.Versions.{versions_of, frames_of, refused_of};
ghost use Rattle.database_versions.specs.Opened.{Begins, BeginsEmpty, BeginsOwned, IsHandedBack, IsReadable};
ghost use Rattle.database_versions.specs.Refusals.{of_open};
ghost use Rattle.database_versions.specs.Saved.{IsSaved};

use database_trees::no_database_at_first;
use disk::Disk;
use journal::create;
use journaled_file::{OpenRefusal, open_file};
use pool::Pool;
use std::alloc::Global;
use store::{Returned, StoreError};
use stored_tables::{contents_are_read, numbers_rise};

/// A new database over an empty device: a file of one page is made there.
fn new_pool<D: Disk>(alloc: Global, mut device: D, frames: u32) -> Result<Pool<D>, Returned<D>>
    requires least { 16 ≤ frames }
    requires most { frames ≤ 4096 }
    requires empty { IsTrue D.is_honest → D.bytes device ≡ [] }
    ensures begins { IfOk result (λ pool. Begins D.is_honest (D.bytes device) (versions_of pool)) }
    ensures owned { IfOk result (λ pool. BeginsOwned D.is_honest (D.bytes device) (versions_of pool)) }
    ensures readable { IfOk result (λ pool. IsReadable D.is_honest (D.bytes device)) }
    ensures frames { IfOk result (λ pool. frames_of pool ≡ frames) }
    ensures counts { IfOk result (λ pool. D.refused device ≤ refused_of pool) }
    ensures left { IfErr result (λ back. IsHandedBack D.is_honest (D.bytes device) (D.bytes back.value) back.error) }
    ensures refused { IfErr result (λ back. MayFail ((db : Database)
        × IsSaved D.is_honest (D.bytes device) db) (D.refused device) (D.refused back.value) Never back.error) }
{
    no_database_at_first();
    contents_are_read();
    numbers_rise();
    match create(&mut device) {
        Ok(()) => match Pool::new(alloc, device, 1, frames) {
            Ok(pool) => Ok(pool),
            Err(device) => Err(Returned {
                error: StoreError::Memory,
                value: device,
            }),
        },
        Err(_) => Err(Returned {
            error: StoreError::Device,
            value: device,
        }),
    }
}

fn of_open(cause: OpenRefusal) -> StoreError
    ensures { result ≡ of_open cause }
{
    match cause {
        OpenRefusal::Memory => StoreError::Memory,
        OpenRefusal::Device(_) => StoreError::Device,
        OpenRefusal::Damaged => StoreError::Damaged,
    }
}

/// The database of a file.
fn old_pool<D: Disk>(alloc: Global, mut device: D, frames: u32) -> Result<Pool<D>, Returned<D>>
    requires least { 16 ≤ frames }
    requires most { frames ≤ 4096 }
    requires some { IsTrue D.is_honest → D.bytes device ≡ [] → ⊥ }
    ensures begins { IfOk result (λ pool. Begins D.is_honest (D.bytes device) (versions_of pool)) }
    ensures owned { IfOk result (λ pool. BeginsOwned D.is_honest (D.bytes device) (versions_of pool)) }
    ensures empty { IfOk result (λ pool. IsTrue D.is_honest → length (D.bytes device) ≡ 4096
        → BeginsEmpty (versions_of pool)) }
    ensures readable { IfOk result (λ pool. IsReadable D.is_honest (D.bytes device)) }
    ensures frames { IfOk result (λ pool. frames_of pool ≡ frames) }
    ensures counts { IfOk result (λ pool. D.refused device ≤ refused_of pool) }
    ensures left { IfErr result (λ back. IsHandedBack D.is_honest (D.bytes device) (D.bytes back.value) back.error) }
    ensures refused { IfErr result (λ back. MayFail ((db : Database)
        × IsSaved D.is_honest (D.bytes device) db) (D.refused device) (D.refused back.value) Never back.error) }
{
    no_database_at_first();
    contents_are_read();
    numbers_rise();
    match open_file(alloc, &mut device) {
        Ok(header) => match Pool::new(alloc, device, header.page_count, frames) {
            Ok(pool) => Ok(pool),
            Err(device) => Err(Returned {
                error: StoreError::Memory,
                value: device,
            }),
        },
        Err(cause) => Err(Returned {
            error: of_open(cause),
            value: device,
        }),
    }
}

/// A pool over what lies on a device: nothing, which is a database without tables and of which a
/// file is made, or a file of either format, as its journal makes it; no other device is opened. A
/// file of 4,096 bytes that is opened is the database without tables.
pub fn pool_over<D: Disk>(alloc: Global, mut device: D, frames: u32) -> Result<Pool<D>, Returned<D>>
    requires least { 16 ≤ frames }
    requires most { frames ≤ 4096 }
    ensures begins { IfOk result (λ pool. Begins D.is_honest (D.bytes device) (versions_of pool)) }
    ensures owned { IfOk result (λ pool. BeginsOwned D.is_honest (D.bytes device) (versions_of pool)) }
    ensures empty { IfOk result (λ pool. IsTrue D.is_honest → length (D.bytes device) ≡ 4096
        → BeginsEmpty (versions_of pool)) }
    ensures readable { IfOk result (λ pool. IsReadable D.is_honest (D.bytes device)) }
    ensures frames { IfOk result (λ pool. frames_of pool ≡ frames) }
    ensures counts { IfOk result (λ pool. D.refused device ≤ refused_of pool) }
    ensures left { IfErr result (λ back. IsHandedBack D.is_honest (D.bytes device) (D.bytes back.value) back.error) }
    ensures refused { IfErr result (λ back. MayFail ((db : Database)
        × IsSaved D.is_honest (D.bytes device) db) (D.refused device) (D.refused back.value) Never back.error) }
{
    match device.len() {
        Ok(len) => {
            if len == 0 {
                return new_pool(alloc, device, frames);
            }
            old_pool(alloc, device, frames)
        }
        Err(_) => Err(Returned {
            error: StoreError::Device,
            value: device,
        }),
    }
}
