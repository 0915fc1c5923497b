//! The gate: one byte, written by itself.
ghost use Rattle.std.specs.Prelude.{◌≡◌, ℕ, ◌+◌, ◌*◌, ◌≤◌, [], ◌∷◌, length, IfErr, OnOk, OnErr, IsTrue};
ghost use Rattle.disk.specs.Crashes.{Bytes, Always, Keeps, Only};
ghost use Rattle.disk.specs.Refused.{CountsRefusal};
ghost use Rattle.pagefile.specs.Parts.{gate_part};
ghost use Rattle.journal.specs.Parts.{ChangesOnly, HasLength};
ghost use Rattle.journal.specs.Versions.{Version, IsOpen, IsShut, IsBoth};

use disk::{Disk, DiskError};

/// Where the gate stands.
const GATE: u64 = 24;

/// The gate's value where it is open.
const OPEN: u8 = 1;

/// The gate's value as it is written to shut it.
const SHUT: u8 = 0;

/// Writes the gate. Refused where the device refuses, and then the gate may hold anything.
fn write_gate<D: Disk>(disk: &mut D, gate: u8) -> Result<(), DiskError>
    ensures written { OnOk result (IsTrue D.is_honest → gate_part (D.bytes disk.new) ≡ gate ∷ []) }
    ensures changes { IsTrue D.is_honest → 4096 ≤ length (D.bytes disk.old)
        → ChangesOnly 24 1 (D.bytes disk.old) (D.bytes disk.new) }
    ensures keeps { IsTrue D.is_durable → (x y : Version)
        → Keeps D.moment D.left_since D.may_leave disk.old disk.new (IsBoth x y) }
    ensures sized { IsTrue D.is_durable → (n : ℕ) → 4096 ≤ length (D.bytes disk.old)
        → Keeps D.moment D.left_since D.may_leave disk.old disk.new (HasLength n) }
    ensures count { CountsRefusal result (D.refused disk.old) (D.refused disk.new) }
    ensures cause { IfErr result (D.told disk.new) }
{
    disk.write_at(GATE, &[gate])
}

/// Shuts the gate, and waits until it is shut on the medium. Refused where the device refuses, and
/// then the gate may hold anything.
pub fn shut_gate<D: Disk>(disk: &mut D) -> Result<(), DiskError>
    ensures shut { IsTrue D.is_durable → IsTrue D.is_honest → (x y : Version)
        → Always (D.may_leave disk.old) (IsBoth x y)
        → OnOk result (Always (D.may_leave disk.new) (IsShut x)) }
    ensures only { IsTrue D.is_durable → IsTrue D.is_honest
        → OnOk result (Only (D.bytes disk.new) (D.may_leave disk.new)) }
    ensures keeps { IsTrue D.is_durable → (x y : Version)
        → Keeps D.moment D.left_since D.may_leave disk.old disk.new (IsBoth x y) }
    ensures sized { IsTrue D.is_durable → (n : ℕ) → 4096 ≤ length (D.bytes disk.old)
        → Keeps D.moment D.left_since D.may_leave disk.old disk.new (HasLength n) }
    ensures written { OnOk result (IsTrue D.is_honest → gate_part (D.bytes disk.new) ≡ 0 ∷ []) }
    ensures changes { IsTrue D.is_honest → 4096 ≤ length (D.bytes disk.old)
        → ChangesOnly 24 1 (D.bytes disk.old) (D.bytes disk.new) }
    ensures count { CountsRefusal result (D.refused disk.old) (D.refused disk.new) }
    ensures cause { IfErr result (D.told disk.new) }
    ensures settled { OnOk result (D.settled disk.new) }
{
    write_gate(disk, SHUT)?;
    disk.sync()
}

/// Step 3: opens the gate, and waits until it is open on the medium. Refused where the device
/// refuses, and then the gate may hold anything.
pub fn open_gate<D: Disk>(disk: &mut D) -> Result<(), DiskError>
    ensures opened { IsTrue D.is_durable → IsTrue D.is_honest → (x y : Version)
        → Always (D.may_leave disk.old) (IsBoth x y)
        → OnOk result (Always (D.may_leave disk.new) (IsOpen y)) }
    ensures keeps { IsTrue D.is_durable → (x y : Version)
        → Keeps D.moment D.left_since D.may_leave disk.old disk.new (IsBoth x y) }
    ensures written { OnOk result (IsTrue D.is_honest → gate_part (D.bytes disk.new) ≡ 1 ∷ []) }
    ensures changes { IsTrue D.is_honest → 4096 ≤ length (D.bytes disk.old)
        → ChangesOnly 24 1 (D.bytes disk.old) (D.bytes disk.new) }
    ensures count { CountsRefusal result (D.refused disk.old) (D.refused disk.new) }
    ensures cause { IfErr result (D.told disk.new) }
    ensures settled { OnOk result (D.settled disk.new) }
{
    write_gate(disk, OPEN)?;
    disk.sync()
}
