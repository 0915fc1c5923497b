ghost use Rattle.std.specs.Prelude.{◌≡◌, ◌+◌, ◌≤◌, ℕ, Bool, List, length, IsTrue, IsOk, IfOk, IfErr, OnOk, OnErr};
ghost use Rattle.disk.specs.Contents.{Holds, IsTorn, IsEitherLength, overwritten, resized};
ghost use Rattle.disk.specs.Crashes.{Bytes, Only, Follows, TimePasses, IsSpread, IsCut};
ghost use Rattle.disk.specs.Refused.{CountsRefusal, CountsSync, CountHasRisen};
ghost use Rattle.disk.specs.declared.error.DiskError.{DiskError as Cause};

use crate::DiskError;

/// A storage device.
///
/// Its contract is what is known of a device: always, that each refused call raises the count of
/// refused calls and no other call does, that each sync raises the count of syncs and nothing else
/// does, that each write and each change of the length raises the count of writes and nothing else
/// does, that a sync settles what was written, which reading leaves so, and that a cause is one
/// that the device told; of an honest one, what each call gives and leaves; of one that always
/// reads, that it does; and of a durable one, what a crash may leave of it. Offsets and lengths are
/// in bytes.
pub trait Disk {
    /// Whether it gives back what was last written. Each law on bytes holds of an honest device
    /// alone.
    ghost is_honest: { Bool };

    /// Whether it always tells its length, and reads what lies within it. So a layer above can
    /// promise which answer must come of such a device, and not only when it may.
    ghost always_reads: { Bool };

    /// Its bytes, as a read gives them.
    ghost bytes: { Self → List ℕ };

    /// Whether it keeps its bytes over a crash. Each law on crashes holds of a durable device
    /// alone.
    ghost is_durable: { Bool };

    /// The bytes that a crash now may leave: one of these is found after it.
    ghost may_leave: { Self → Bytes → Type 0 };

    /// The moment, as a number that does not fall.
    ghost moment: { Self → ℕ };

    /// The bytes that a crash at a moment since that one might have left, within a call or between
    /// two.
    ghost left_since: { Self → ℕ → Bytes → Type 0 };

    /// How many calls it has refused. The count stays at 2^64 - 1 once it is there.
    ghost refused: { Self → ℕ };

    /// How many times it was synced. The count stays at 2^64 - 1 once it is there.
    ghost synced: { Self → ℕ };

    /// How many times it was to be written or given a length, refused calls among them, since they
    /// may have changed bytes. So a layer above can promise that it wrote nothing. The count stays
    /// at 2^64 - 1 once it is there.
    ghost writes: { Self → ℕ };

    /// Whether it was synced, and nothing was to be written since. So a layer above can promise
    /// that it syncs behind its last write.
    ghost settled: { Self → Type 0 };

    /// Whether this may be the cause that it told for the last call that it refused. So a layer
    /// above that promises such a cause has not made one up.
    ghost told: { Self → Cause → Type 0 };

    /// The number of bytes.
    fn len(&mut self) -> Result<u64, DiskError>
        ensures value { IfOk result (λ n. IsTrue is_honest → n ≡ length (bytes self.old)) }
        ensures told_always { IsTrue always_reads → IsOk result }
        ensures same { IsTrue is_honest → bytes self.new ≡ bytes self.old }
        ensures count { CountsRefusal result (refused self.old) (refused self.new) }
        ensures cause { IfErr result (told self.new) }
        ensures synced { synced self.new ≡ synced self.old }
        ensures settled { settled self.old → settled self.new }
        ensures writes { writes self.new ≡ writes self.old }
        ensures crash { IsTrue is_durable → (c : Bytes) → may_leave self.new c → may_leave self.old c }
        ensures time { IsTrue is_durable → TimePasses moment left_since may_leave self.old self.new };

    /// Fills `into` with the bytes from `at` on. A range that does not lie within the device is
    /// refused. After a refusal `into` may hold anything.
    fn read_at(&mut self, at: u64, into: &mut [u8]) -> Result<(), DiskError>
        ensures value { OnOk result (IsTrue is_honest → Holds (bytes self.old) at into.new) }
        ensures read_always { IsTrue is_honest → IsTrue always_reads → at + length into.old ≤ length (bytes self.old)
            → IsOk result }
        ensures same { IsTrue is_honest → bytes self.new ≡ bytes self.old }
        ensures count { CountsRefusal result (refused self.old) (refused self.new) }
        ensures cause { IfErr result (told self.new) }
        ensures synced { synced self.new ≡ synced self.old }
        ensures settled { settled self.old → settled self.new }
        ensures writes { writes self.new ≡ writes self.old }
        ensures crash { IsTrue is_durable → (c : Bytes) → may_leave self.new c → may_leave self.old c }
        ensures time { IsTrue is_durable → TimePasses moment left_since may_leave self.old self.new };

    /// Writes these bytes from `at` on, and lengthens the device where they go past its end. A
    /// refused write may leave any bytes in its range, and changes none outside.
    fn write_at(&mut self, at: u64, from: &[u8]) -> Result<(), DiskError>
        ensures written { OnOk result (IsTrue is_honest → bytes self.new ≡ overwritten (bytes self.old) at from.now) }
        ensures torn { OnErr result (IsTrue is_honest → IsTorn at (length from.now) (bytes self.old) (bytes self.new)) }
        ensures count { CountsRefusal result (refused self.old) (refused self.new) }
        ensures cause { IfErr result (told self.new) }
        ensures synced { synced self.new ≡ synced self.old }
        ensures writes { CountHasRisen (writes self.old) (writes self.new) }
        ensures crash { IsTrue is_durable
            → Follows (IsSpread (length (bytes self.old)) at (length from.now))
            (may_leave self.old) (may_leave self.new) }
        ensures time { IsTrue is_durable → TimePasses moment left_since may_leave self.old self.new };

    /// Cuts the device to `len` bytes, or lengthens it by zeros. A refused call leaves the old
    /// length or the new one.
    fn set_len(&mut self, len: u64) -> Result<(), DiskError>
        ensures resized { OnOk result (IsTrue is_honest → bytes self.new ≡ resized (bytes self.old) len) }
        ensures either { OnErr result (IsTrue is_honest → IsEitherLength len (bytes self.old) (bytes self.new)) }
        ensures count { CountsRefusal result (refused self.old) (refused self.new) }
        ensures cause { IfErr result (told self.new) }
        ensures synced { synced self.new ≡ synced self.old }
        ensures writes { CountHasRisen (writes self.old) (writes self.new) }
        ensures crash { IsTrue is_durable → Follows (IsCut len) (may_leave self.old) (may_leave self.new) }
        ensures time { IsTrue is_durable → TimePasses moment left_since may_leave self.old self.new };

    /// Waits until all that was written is on the medium.
    fn sync(&mut self) -> Result<(), DiskError>
        ensures same { IsTrue is_honest → bytes self.new ≡ bytes self.old }
        ensures count { CountsRefusal result (refused self.old) (refused self.new) }
        ensures cause { IfErr result (told self.new) }
        ensures synced { CountsSync result (synced self.old) (synced self.new) }
        ensures settles { OnOk result (settled self.new) }
        ensures writes { writes self.new ≡ writes self.old }
        ensures crash { IsTrue is_durable → (c : Bytes) → may_leave self.new c → may_leave self.old c }
        ensures time { IsTrue is_durable → TimePasses moment left_since may_leave self.old self.new }
        ensures durable { IsTrue is_durable → OnOk result (Only (bytes self.old) (may_leave self.new)) };

    /// A crash may leave just what a read gives.
    ghost read_is_left: { (d : Self) → IsTrue is_durable → may_leave d (bytes d) };

    /// What a crash may leave now, it might have left since each earlier moment.
    ghost counts_now: { (d : Self) (t : ℕ) (c : Bytes) → IsTrue is_durable → t ≤ moment d → may_leave d c
        → left_since d t c };

    /// Since this very moment it might have left nothing else.
    ghost only_now: { (d : Self) (c : Bytes) → IsTrue is_durable → left_since d (moment d) c → may_leave d c };
}
