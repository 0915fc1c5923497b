//! Pages as a file with a journal shows them.
ghost use Rattle.std.specs.Prelude.{◌≡◌, ℕ, ◌+◌, ◌*◌, ◌≤◌, List, length, IfErr, IsOk, OnOk, IsTrue, true, false};
ghost use Rattle.disk.specs.Refused.{CountsRefusal};
ghost use Rattle.journal.specs.Lists.{IsRising};
ghost use Rattle.journal.specs.Parts.{place, shown};
ghost use Rattle.journal.specs.Reading.{OnlyReads};
ghost use Rattle.journal.specs.Versions.{HasPage, laid};
ghost use Rattle.journaled_file.specs.Shown.{padded};

use disk::{Disk, DiskError};
use journal::Image;
use pagefile::{HEADER_SIZE, PAGE_SIZE, Page};

/// Puts zeros behind what a version keeps of a page.
fn pad(number: u32, page: &mut Page)
    ensures { page.new ≡ padded number (shown number page.old) }
{
    if number == 0 {
        let mut header = [0; PAGE_SIZE];
        header[..HEADER_SIZE].copy_from_slice(&page[..HEADER_SIZE]);
        *page = header;
    }
}

/// Copies the page of this number, where it is one of these; tells whether it is.
fn copy_image(images: &[Image], number: u32, into: &mut Page) -> bool
    ensures found { result ≡ true → IsRising images.now → (base : _)
        → laid images.now base number ≡ shown number into.new }
    ensures none { result ≡ false → HasPage number images.now → ⊥ }
{
    for (at, page) in images {
        if *at == number {
            *into = *page.get();
            return true;
        }
    }
    false
}

/// Reads a page of a version: one that is yet to be put in its place from memory, where `left` are
/// these, and any other from the file. Refused where the device refuses.
pub fn read_page<D: Disk>(
    disk: &mut D,
    left: &[Image],
    number: u32,
    into: &mut Page,
) -> Result<(), DiskError>
    ensures value { OnOk result (IsTrue D.is_honest → (pages : ℕ → List ℕ) → IsRising left.now
        → laid left.now (place (D.bytes disk.old)) number ≡ pages number → into.new ≡ padded number (pages number)) }
    ensures read_always { IsTrue D.is_honest → IsTrue D.always_reads
        → 4096 * number + 4096 ≤ length (D.bytes disk.old) → IsOk result }
    ensures reads { OnlyReads D.is_honest D.is_durable D.bytes D.synced D.writes D.settled D.moment D.left_since
        D.may_leave disk.old disk.new }
    ensures count { CountsRefusal result (D.refused disk.old) (D.refused disk.new) }
    ensures cause { IfErr result (D.told disk.new) }
{
    if copy_image(left, number, into) {
        pad(number, into);
        return Ok(());
    }
    match disk.read_at(number as u64 * PAGE_SIZE as u64, into) {
        Ok(()) => {
            pad(number, into);
            Ok(())
        }
        Err(cause) => Err(cause),
    }
}
