ghost use Rattle.std.specs.Prelude.{◌≡◌, ◌+◌, ◌*◌, ◌≤◌, length, IsTrue, IsOk, IsSome, IfOk, IfErr, OnOk, OnErr, MatchResult, Some};
ghost use Rattle.disk.specs.Crashes.{Bytes, Only, Follows, TimePasses, IsSpread, IsCut};
ghost use Rattle.disk.specs.Contents.{IsTorn, IsEitherLength, overwritten, resized};
ghost use Rattle.disk.specs.Refused.{CountsRefusal, CountsSync, CountHasRisen};
ghost use Rattle.pagefile.specs.Header.{header_bytes, IsInBounds};
ghost use Rattle.pagefile.specs.Pages.{page_of, IsWritten, KeepsOthers};
ghost use Rattle.pagefile.specs.Whole.{IsWhole, IsDamaged, IsPartlyMade, IsCounted, IsTold};

use crate::{FileHeader, OpenError, PAGE_SIZE, Page, Refused};
use disk::{Disk, DiskError};

/// A file of numbered pages over a device.
///
/// To its callers it is the device under it, whose bytes are a map from page numbers to pages. What
/// is said of pages holds where the device is honest, and what is said of crashes where it is
/// durable.
#[derive(Drop)]
pub struct PageFile<D: Disk> {
    disk: D,
}

/// The offset of a page.
fn offset_of(number: u32) -> u64
    ensures { result ≡ 4096 * number }
{
    number as u64 * PAGE_SIZE as u64
}

/// Reads the header of the file that a device holds.
fn read_header<D: Disk>(disk: &mut D) -> Result<FileHeader, OpenError>
    ensures whole { IfOk result (λ h. IsTrue D.is_honest → IsWhole (D.bytes disk.old) h) }
    ensures bounds { IfOk result IsInBounds }
    ensures damaged { IfErr result (λ e. e ≡ OpenError.Damaged → IsTrue D.is_honest → IsDamaged (D.bytes disk.old)) }
    ensures only_damaged { IfErr result (λ e. IsTrue D.is_honest → IsTrue D.always_reads → e ≡ OpenError.Damaged) }
    ensures cause { IfErr result (IsTold (D.told disk.new)) }
    ensures synced { D.synced disk.new ≡ D.synced disk.old }
    ensures writes { D.writes disk.new ≡ D.writes disk.old }
    ensures same { IsTrue D.is_honest → D.bytes disk.new ≡ D.bytes disk.old }
    ensures count { MatchResult result
        (λ _. D.refused disk.new ≡ D.refused disk.old)
        (λ e. IsCounted e (D.refused disk.old) (D.refused disk.new)) }
{
    let len = disk.len()?;
    if len < PAGE_SIZE as u64 {
        return Err(OpenError::Damaged);
    }
    let mut page = [0; PAGE_SIZE];
    disk.read_at(0, &mut page)?;
    match FileHeader::of_file(len, &page) {
        Some(header) => Ok(header),
        None => Err(OpenError::Damaged),
    }
}

impl<D: Disk> PageFile<D> {
    ghost use Rattle.pagefile.specs.File.{disk_of};

    /// Makes a new file of one page, in the place of what the device held.
    ///
    /// Refused where the device refuses a call, and then the device is handed back as it was or
    /// with 4,096 bytes.
    pub fn create(mut disk: D) -> Result<PageFile<D>, Refused<D, DiskError>>
        ensures made { IfOk result (λ file. IsTrue D.is_honest → D.bytes (disk_of file) ≡ header_bytes FileHeader.NEW) }
        ensures whole { IfOk result (λ file. IsTrue D.is_honest → IsWhole (D.bytes (disk_of file)) FileHeader.NEW) }
        ensures left { IfErr result (λ r. IsTrue D.is_honest → IsPartlyMade (D.bytes disk) (D.bytes r.disk)) }
        ensures count { MatchResult result
            (λ file. D.refused (disk_of file) ≡ D.refused disk)
            (λ r. CountHasRisen (D.refused disk) (D.refused r.disk)) }
        ensures cause { IfErr result (λ r. D.told r.disk r.cause) }
        ensures synced { MatchResult result
            (λ file. D.synced (disk_of file) ≡ D.synced disk)
            (λ r. D.synced r.disk ≡ D.synced disk) }
    {
        match write_new(&mut disk) {
            Ok(()) => Ok(PageFile { disk }),
            Err(cause) => Err(Refused { disk, cause }),
        }
    }

    /// A file over a device as it is. No call is made.
    pub fn over(disk: D) -> PageFile<D>
        ensures { disk_of result ≡ disk }
    {
        PageFile { disk }
    }

    /// Opens the file that a device holds, and gives its header too.
    ///
    /// `Damaged` where the length is not the page count times 4,096, the magic differs, the page
    /// count is 0 or above 65,536, or one of the two page numbers is not below it; a device that
    /// always reads is refused for nothing else. A refusal hands the device back. The device keeps
    /// its bytes.
    pub fn open(mut disk: D) -> Result<(PageFile<D>, FileHeader), Refused<D, OpenError>>
        ensures whole { IfOk result (λ opened. IsTrue D.is_honest → IsWhole (D.bytes disk) opened.1) }
        ensures bounds { IfOk result (λ opened. IsInBounds opened.1) }
        ensures damaged { IfErr result (λ r. r.cause ≡ OpenError.Damaged → IsTrue D.is_honest
            → IsDamaged (D.bytes disk)) }
        ensures only_damaged { IfErr result (λ r. IsTrue D.is_honest → IsTrue D.always_reads
            → r.cause ≡ OpenError.Damaged) }
        ensures cause { IfErr result (λ r. IsTold (D.told r.disk) r.cause) }
        ensures synced { MatchResult result
            (λ opened. D.synced (disk_of opened.0) ≡ D.synced disk)
            (λ r. D.synced r.disk ≡ D.synced disk) }
        ensures writes { MatchResult result
            (λ opened. D.writes (disk_of opened.0) ≡ D.writes disk)
            (λ r. D.writes r.disk ≡ D.writes disk) }
        ensures same { MatchResult result
            (λ opened. IsTrue D.is_honest → D.bytes (disk_of opened.0) ≡ D.bytes disk)
            (λ r. IsTrue D.is_honest → D.bytes r.disk ≡ D.bytes disk) }
        ensures count { MatchResult result
            (λ opened. D.refused (disk_of opened.0) ≡ D.refused disk)
            (λ r. IsCounted r.cause (D.refused disk) (D.refused r.disk)) }
    {
        match read_header(&mut disk) {
            Ok(header) => Ok((PageFile { disk }, header)),
            Err(cause) => Err(Refused { disk, cause }),
        }
    }

    /// Reads a page. Refused where the device refuses; a page that the file does not have all of is
    /// refused too.
    pub fn read_page(&mut self, number: u32, into: &mut Page) -> Result<(), DiskError>
        ensures value { OnOk result (IsTrue D.is_honest → page_of (D.bytes (disk_of self.old)) number ≡ Some into.new) }
        ensures read_always { IsTrue D.is_honest → IsTrue D.always_reads
            → IsSome (page_of (D.bytes (disk_of self.old)) number) → IsOk result }
        ensures same { IsTrue D.is_honest → D.bytes (disk_of self.new) ≡ D.bytes (disk_of self.old) }
        ensures count { CountsRefusal result (D.refused (disk_of self.old)) (D.refused (disk_of self.new)) }
        ensures cause { IfErr result (D.told (disk_of self.new)) }
        ensures synced { D.synced (disk_of self.new) ≡ D.synced (disk_of self.old) }
        ensures settled { D.settled (disk_of self.old) → D.settled (disk_of self.new) }
        ensures writes { D.writes (disk_of self.new) ≡ D.writes (disk_of self.old) }
        ensures crash { IsTrue D.is_durable → (c : Bytes) → D.may_leave (disk_of self.new) c
            → D.may_leave (disk_of self.old) c }
        ensures time { IsTrue D.is_durable
            → TimePasses D.moment D.left_since D.may_leave (disk_of self.old) (disk_of self.new) }
    {
        self.disk.read_at(offset_of(number), into)
    }

    /// Writes a page, and lengthens the file where the page lies behind its end. Refused where the
    /// device refuses, and then this page may hold anything; every other page stays as it was.
    pub fn write_page(&mut self, number: u32, page: &Page) -> Result<(), DiskError>
        ensures written { OnOk result (IsTrue D.is_honest
            → IsWritten number page.now (D.bytes (disk_of self.old)) (D.bytes (disk_of self.new))) }
        ensures others { IsTrue D.is_honest
            → KeepsOthers number (D.bytes (disk_of self.old)) (D.bytes (disk_of self.new)) }
        ensures count { CountsRefusal result (D.refused (disk_of self.old)) (D.refused (disk_of self.new)) }
        ensures cause { IfErr result (D.told (disk_of self.new)) }
        ensures synced { D.synced (disk_of self.new) ≡ D.synced (disk_of self.old) }
        ensures writes { CountHasRisen (D.writes (disk_of self.old)) (D.writes (disk_of self.new)) }
        ensures crash { IsTrue D.is_durable
            → Follows (IsSpread (length (D.bytes (disk_of self.old))) (4096 * number) 4096)
            (D.may_leave (disk_of self.old)) (D.may_leave (disk_of self.new)) }
        ensures time { IsTrue D.is_durable
            → TimePasses D.moment D.left_since D.may_leave (disk_of self.old) (disk_of self.new) }
    {
        self.disk.write_at(offset_of(number), page)
    }

    /// Writes bytes into page 0, from a place in it on. Refused where the device refuses, and then
    /// these bytes may be any.
    pub fn write_part(&mut self, at: u32, bytes: &[u8]) -> Result<(), DiskError>
        requires { at + length bytes.now ≤ 4096 }
        ensures written { OnOk result (IsTrue D.is_honest
            → D.bytes (disk_of self.new) ≡ overwritten (D.bytes (disk_of self.old)) at bytes.now) }
        ensures torn { OnErr result (IsTrue D.is_honest
            → IsTorn at (length bytes.now) (D.bytes (disk_of self.old)) (D.bytes (disk_of self.new))) }
        ensures count { CountsRefusal result (D.refused (disk_of self.old)) (D.refused (disk_of self.new)) }
        ensures cause { IfErr result (D.told (disk_of self.new)) }
        ensures synced { D.synced (disk_of self.new) ≡ D.synced (disk_of self.old) }
        ensures writes { CountHasRisen (D.writes (disk_of self.old)) (D.writes (disk_of self.new)) }
        ensures crash { IsTrue D.is_durable
            → Follows (IsSpread (length (D.bytes (disk_of self.old))) at (length bytes.now))
            (D.may_leave (disk_of self.old)) (D.may_leave (disk_of self.new)) }
        ensures time { IsTrue D.is_durable
            → TimePasses D.moment D.left_since D.may_leave (disk_of self.old) (disk_of self.new) }
    {
        self.disk.write_at(at as u64, bytes)
    }

    /// Cuts the file to so many pages, or lengthens it by pages of zeros. A refused call leaves the
    /// old length or the new one.
    pub fn set_page_count(&mut self, count: u32) -> Result<(), DiskError>
        ensures resized { OnOk result (IsTrue D.is_honest
            → D.bytes (disk_of self.new) ≡ resized (D.bytes (disk_of self.old)) (4096 * count)) }
        ensures either { OnErr result (IsTrue D.is_honest
            → IsEitherLength (4096 * count) (D.bytes (disk_of self.old)) (D.bytes (disk_of self.new))) }
        ensures count { CountsRefusal result (D.refused (disk_of self.old)) (D.refused (disk_of self.new)) }
        ensures cause { IfErr result (D.told (disk_of self.new)) }
        ensures synced { D.synced (disk_of self.new) ≡ D.synced (disk_of self.old) }
        ensures writes { CountHasRisen (D.writes (disk_of self.old)) (D.writes (disk_of self.new)) }
        ensures crash { IsTrue D.is_durable
            → Follows (IsCut (4096 * count)) (D.may_leave (disk_of self.old)) (D.may_leave (disk_of self.new)) }
        ensures time { IsTrue D.is_durable
            → TimePasses D.moment D.left_since D.may_leave (disk_of self.old) (disk_of self.new) }
    {
        self.disk.set_len(offset_of(count))
    }

    /// Waits until all that was written is on the medium.
    pub fn sync(&mut self) -> Result<(), DiskError>
        ensures same { IsTrue D.is_honest → D.bytes (disk_of self.new) ≡ D.bytes (disk_of self.old) }
        ensures count { CountsRefusal result (D.refused (disk_of self.old)) (D.refused (disk_of self.new)) }
        ensures cause { IfErr result (D.told (disk_of self.new)) }
        ensures synced { CountsSync result (D.synced (disk_of self.old)) (D.synced (disk_of self.new)) }
        ensures settles { OnOk result (D.settled (disk_of self.new)) }
        ensures writes { D.writes (disk_of self.new) ≡ D.writes (disk_of self.old) }
        ensures crash { IsTrue D.is_durable → (c : Bytes) → D.may_leave (disk_of self.new) c
            → D.may_leave (disk_of self.old) c }
        ensures time { IsTrue D.is_durable
            → TimePasses D.moment D.left_since D.may_leave (disk_of self.old) (disk_of self.new) }
        ensures durable { IsTrue D.is_durable
            → OnOk result (Only (D.bytes (disk_of self.old)) (D.may_leave (disk_of self.new))) }
    {
        self.disk.sync()
    }

    /// Hands back the device.
    pub fn into_disk(self) -> D
        ensures { result ≡ disk_of self }
    {
        let PageFile { disk } = self;
        disk
    }
}

/// Writes the first page of a new file over what a device holds.
fn write_new<D: Disk>(disk: &mut D) -> Result<(), DiskError>
    ensures made { OnOk result (IsTrue D.is_honest → D.bytes disk.new ≡ header_bytes FileHeader.NEW) }
    ensures whole { OnOk result (IsTrue D.is_honest → IsWhole (D.bytes disk.new) FileHeader.NEW) }
    ensures left { OnErr result (IsTrue D.is_honest → IsPartlyMade (D.bytes disk.old) (D.bytes disk.new)) }
    ensures count { CountsRefusal result (D.refused disk.old) (D.refused disk.new) }
    ensures cause { IfErr result (D.told disk.new) }
    ensures synced { D.synced disk.new ≡ D.synced disk.old }
{
    disk.set_len(PAGE_SIZE as u64)?;
    disk.write_at(0, &FileHeader::NEW.encode())
}
