ghost use Rattle.std.specs.Prelude.{◌≡◌, ℕ, true, Some, None, slice_get, OnOk, OnErr, IfErr, IfSome, IfNone};
ghost use Rattle.snapshot_pins.specs.Listed.{are_apart, reader_of};

use crate::reader::Reader;
use disk::Disk;
use items::Items;
use pool::{Pool, PoolError};
use std::alloc::Global;

/// Who reads a pool, and at which commit. None stands twice.
#[derive(Drop)]
pub struct Readers {
    list: Items<Reader>,
    ghost apart: { are_apart list ≡ true },
}

/// Where a reader stands in a list, and what it found.
fn place_of(readers: &[Reader], reader: u64) -> Option<(usize, u64)>
    ensures some { IfSome result (λ found. slice_get readers.now found.0 ≡ Some (record { reader = reader; number = found.1 })) }
    ensures none { IfNone result (reader_of reader readers.now ≡ None) }
{
    for (place, found) in readers.iter().enumerate() {
        if found.reader == reader {
            return Some((place, found.number));
        }
    }
    None
}

impl Readers {
    ghost use Rattle.std.specs.FinMap.{get, remove, empty};
    ghost use Rattle.pool.specs.Versions.{Versions, versions_of, device_of, refused_of, unwritten_of};
    ghost use Rattle.snapshot_pins.specs.Pinned.{numbers_of, with_reader, ArePinned, KeepsFound};

    /// Nobody. Takes no memory until the first.
    pub fn new(alloc: Global) -> Readers
        ensures none { numbers_of result ≡ empty }
        ensures pinned { ArePinned result (λ c. 0) }
    {
        Readers {
            list: Items::new(alloc),
        }
    }

    /// The number of the commit that a reader found, if it has begun.
    pub fn number(&self, reader: u64) -> Option<u64>
        ensures { result ≡ get (numbers_of self.now) reader }
    {
        match place_of(self.list.as_slice(), reader) {
            Some((_, number)) => Some(number),
            None => None,
        }
    }

    /// The reader begins at the last commit and pins it, unless it has begun. Refuses for want of
    /// memory alone.
    pub fn begin<D: Disk>(&mut self, pool: &mut Pool<D>, reader: u64) -> Result<(), PoolError>
        requires { ArePinned self.old (versions_of pool.old).pins }
        ensures begun { OnOk result (numbers_of self.new ≡ with_reader (numbers_of self.old) reader (versions_of pool.old).last) }
        ensures same { OnErr result (numbers_of self.new ≡ numbers_of self.old) }
        ensures pinned { ArePinned self.new (versions_of pool.new).pins }
        ensures kept { KeepsFound (numbers_of self.new) (versions_of pool.old) (versions_of pool.new) }
        ensures unwritten { unwritten_of pool.new ≡ unwritten_of pool.old }
        ensures device { device_of pool.new ≡ device_of pool.old }
        ensures refused { refused_of pool.new ≡ refused_of pool.old }
        ensures cause { IfErr result (λ e. e ≡ PoolError.Memory) }
    {
        match place_of(self.list.as_slice(), reader) {
            Some(_) => Ok(()),
            None => self.add(pool, reader),
        }
    }

    /// One more reader, which has not begun yet.
    fn add<D: Disk>(&mut self, pool: &mut Pool<D>, reader: u64) -> Result<(), PoolError>
        requires pinned { ArePinned self.old (versions_of pool.old).pins }
        requires absent { reader_of reader self.old.list ≡ None }
        ensures begun { OnOk result (numbers_of self.new ≡ with_reader (numbers_of self.old) reader (versions_of pool.old).last) }
        ensures same { OnErr result (numbers_of self.new ≡ numbers_of self.old) }
        ensures pinned { ArePinned self.new (versions_of pool.new).pins }
        ensures kept { KeepsFound (numbers_of self.new) (versions_of pool.old) (versions_of pool.new) }
        ensures unwritten { unwritten_of pool.new ≡ unwritten_of pool.old }
        ensures device { device_of pool.new ≡ device_of pool.old }
        ensures refused { refused_of pool.new ≡ refused_of pool.old }
        ensures cause { IfErr result (λ e. e ≡ PoolError.Memory) }
    {
        let number = pool.pin()?;
        match self.list.push(Reader { reader, number }) {
            Ok(()) => Ok(()),
            Err(_) => {
                pool.unpin(number);
                Err(PoolError::Memory)
            }
        }
    }

    /// The reader ends, if it has begun, and its pin goes. Takes no memory.
    pub fn end<D: Disk>(&mut self, pool: &mut Pool<D>, reader: u64)
        requires { ArePinned self.old (versions_of pool.old).pins }
        ensures ended { numbers_of self.new ≡ remove (numbers_of self.old) reader }
        ensures pinned { ArePinned self.new (versions_of pool.new).pins }
        ensures kept { KeepsFound (numbers_of self.new) (versions_of pool.old) (versions_of pool.new) }
        ensures unwritten { unwritten_of pool.new ≡ unwritten_of pool.old }
        ensures device { device_of pool.new ≡ device_of pool.old }
        ensures refused { refused_of pool.new ≡ refused_of pool.old }
    {
        if let Some((place, number)) = place_of(self.list.as_slice(), reader) {
            let _ = self.list.remove(place);
            pool.unpin(number);
        }
    }

    /// All readers end, and their pins go. Takes no memory.
    pub fn end_all<D: Disk>(&mut self, pool: &mut Pool<D>)
        requires { ArePinned self.old (versions_of pool.old).pins }
        ensures ended { numbers_of self.new ≡ empty }
        ensures pinned { ArePinned self.new (versions_of pool.new).pins }
        ensures kept { KeepsFound (numbers_of self.new) (versions_of pool.old) (versions_of pool.new) }
        ensures unwritten { unwritten_of pool.new ≡ unwritten_of pool.old }
        ensures device { device_of pool.new ≡ device_of pool.old }
        ensures refused { refused_of pool.new ≡ refused_of pool.old }
    {
        'ended: while let Some(found) = self.list.pop() {
            pool.unpin(found.number);
        }
    }
}
