//! New files of format 2.
ghost use Rattle.std.specs.Prelude.{◌≡◌, ◌⊎◌, ℕ, ◌*◌, ◌≤◌, [], length, IfErr, OnOk, OnErr, IsTrue};
ghost use Rattle.disk.specs.Crashes.{Only, Keeps, LeavesOnly};
ghost use Rattle.disk.specs.Refused.{CountsRefusal};
ghost use Rattle.pagefile.specs.Header.{IsInBounds};
ghost use Rattle.pagefile.specs.Whole.{IsPartlyMade};
ghost use Rattle.journal.specs.Headers.{IsHeaderOf};
ghost use Rattle.journal.specs.declared.found.Format.TheVariants.{Two};
ghost use Rattle.journal.specs.New.{header_bytes_2};

use disk::{Disk, DiskError};
use pagefile::{FileHeader, PAGE_SIZE, Page};

/// Page 0 of format 2 with these numbers, and zeros behind them.
pub fn first_page(header: FileHeader) -> Page
    ensures bytes { result ≡ header_bytes_2 header }
    ensures header { (len : ℕ) → IsInBounds header → 4096 * header.page_count ≤ len
        → IsHeaderOf len result Two header }
{
    header.encode()
}

/// Writes page 0 of a new file in the place of what the device held, and waits for it. Refused
/// where the device refuses a call, and then the device is as it was or has 4,096 bytes.
fn write_first<D: Disk>(disk: &mut D) -> Result<(), DiskError>
    ensures made { OnOk result (IsTrue D.is_honest → D.bytes disk.new ≡ header_bytes_2 FileHeader.NEW) }
    ensures only { IsTrue D.is_durable → IsTrue D.is_honest
        → OnOk result (Only (D.bytes disk.new) (D.may_leave disk.new)) }
    ensures keeps { IsTrue D.is_durable → IsTrue D.is_honest
        → Keeps D.moment D.left_since D.may_leave disk.old disk.new (IsPartlyMade []) }
    ensures left { OnErr result (IsTrue D.is_honest → IsPartlyMade (D.bytes disk.old) (D.bytes disk.new)) }
    ensures count { CountsRefusal result (D.refused disk.old) (D.refused disk.new) }
    ensures cause { IfErr result (D.told disk.new) }
    ensures settled { OnOk result (D.settled disk.new) }
{
    disk.set_len(PAGE_SIZE as u64)?;
    disk.write_at(0, &first_page(FileHeader::NEW))?;
    disk.sync()
}

/// Makes a new file of format 2, of one page, in the place of what the device held, and waits until
/// it is on the medium. It waits first until what the device held is there as it reads.
///
/// Refused where the device refuses a call, and then the device is as it was or has 4,096 bytes. Of
/// a device that reads as empty a crash at any moment leaves what it might have left before,
/// nothing, or 4,096 bytes.
pub fn create<D: Disk>(disk: &mut D) -> Result<(), DiskError>
    ensures made { OnOk result (IsTrue D.is_honest → D.bytes disk.new ≡ header_bytes_2 FileHeader.NEW) }
    ensures only { IsTrue D.is_durable → IsTrue D.is_honest
        → OnOk result (Only (D.bytes disk.new) (D.may_leave disk.new)) }
    ensures any_moment { IsTrue D.is_durable → IsTrue D.is_honest → D.bytes disk.old ≡ []
        → LeavesOnly D.moment D.left_since disk.old disk.new (λ c. D.may_leave disk.old c ⊎ IsPartlyMade [] c) }
    ensures left { OnErr result (IsTrue D.is_honest → IsPartlyMade (D.bytes disk.old) (D.bytes disk.new)) }
    ensures count { CountsRefusal result (D.refused disk.old) (D.refused disk.new) }
    ensures cause { IfErr result (D.told disk.new) }
    ensures settled { OnOk result (D.settled disk.new) }
{
    disk.sync()?;
    write_first(disk)
}
