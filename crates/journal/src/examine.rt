//! What is found in a file: all that a recovery tests, before it writes.
ghost use Rattle.std.specs.Prelude.{◌≡◌, ◌≢◌, ℕ, ◌+◌, ◌*◌, ◌%◌, ◌≤◌, ◌<◌, ◌^◌, ◌∷◌, [], ◌↔◌, length, IfOk, IfErr, IsTrue, MatchResult};
ghost use Rattle.disk.specs.Crashes.{Bytes};
ghost use Rattle.pagefile.specs.Header.{IsInBounds};
ghost use Rattle.pagefile.specs.Whole.{IsCounted, IsTold};
ghost use Rattle.pagefile.specs.Parts.{gate_part, start_part};
ghost use Rattle.byteorder.specs.Endian.{big_number};
ghost use Rattle.journal.specs.Headers.{IsFile, IsNoFile, IsHeaderOf, IsJournal, IsGate, IsSmall, HasList, header_part};
ghost use Rattle.journal.specs.Lists.{listed};
ghost use Rattle.journal.specs.Parts.{block, place};
ghost use Rattle.journal.specs.Reading.{OnlyReads};

use crate::header::{header_of, read_number};
use crate::image::offset_of;
use crate::list::list_size;
use crate::reading::{file_length, read_block};
use crate::{Found, Gate};
use disk::Disk;
use pagefile::{OpenError, PAGE_SIZE, Page};

/// Where the number of the journal's first block stands.
const START: usize = 20;

/// Where the gate stands.
const GATE: usize = 24;

/// What is found in a file whose page 0 is this, by its header.
fn find(len: u64, page: &Page, gate: Gate) -> Result<Found, OpenError>
    ensures gate { IfOk result (λ found. found.gate ≡ gate) }
    ensures header { IfOk result (λ found. IsHeaderOf len page.now found.format found.header) }
    ensures bounds { IfOk result (λ found. IsInBounds found.header) }
    ensures cause { IfErr result (λ e. e ≡ OpenError.Damaged) }
    ensures none { IfErr result (λ e. (format : _) (h : _) → IsHeaderOf len page.now format h → ⊥) }
{
    match header_of(len, page) {
        Some((format, header)) => Ok(Found {
            header,
            format,
            gate,
        }),
        None => Err(OpenError::Damaged),
    }
}

/// Reads the list of a journal that begins with this block, and tells how many pages it has.
fn read_list<D: Disk>(disk: &mut D, len: u64, start: u32, list: &mut Page) -> Result<u32, OpenError>
    requires { IsTrue D.is_honest → len ≡ length (D.bytes disk.old) }
    ensures journal { IfOk result (λ size. IsTrue D.is_honest → IsJournal (D.bytes disk.old) start size) }
    ensures list { IfOk result (λ size. IsTrue D.is_honest → list.new ≡ block (D.bytes disk.old) start) }
    ensures few { IfOk result (λ size. size ≤ 1024) }
    ensures damaged { IfErr result (λ e. e ≡ OpenError.Damaged → IsTrue D.is_honest
        → (size : ℕ) → IsJournal (D.bytes disk.old) start size → ⊥) }
    ensures only_damaged { IfErr result (λ e. IsTrue D.is_honest → IsTrue D.always_reads → e ≡ OpenError.Damaged) }
    ensures reads { OnlyReads D.is_honest D.is_durable D.bytes D.synced D.writes D.settled D.moment D.left_since
        D.may_leave disk.old disk.new }
    ensures count { MatchResult result
        (λ _. D.refused disk.new ≡ D.refused disk.old)
        (λ e. IsCounted e (D.refused disk.old) (D.refused disk.new)) }
    ensures cause { IfErr result (IsTold (D.told disk.new)) }
{
    if start == 0 || len < offset_of(start as u64 + 1) {
        return Err(OpenError::Damaged);
    }
    read_block(disk, start as u64, list)?;
    match list_size(list, start) {
        Some(size) => {
            if len < offset_of(start as u64 + 1 + size as u64) {
                return Err(OpenError::Damaged);
            }
            Ok(size)
        }
        None => Err(OpenError::Damaged),
    }
}

/// What a gate says that is not open.
fn closed_gate(gate: u8) -> Gate
    ensures gate { (c : Bytes) → gate ≢ 1 → gate_part c ≡ gate ∷ [] → IsGate c result }
    ensures header { (c : Bytes) → header_part c result ≡ place c 0 }
    ensures small { IsSmall result }
    ensures list { (c : Bytes) (list : Bytes) → HasList c list result }
{
    if gate == 0 { Gate::Shut } else { Gate::Torn }
}

/// Whether the first image of a journal is that of page 0.
fn has_first_page(size: u32, list: &Page) -> bool
    ensures { IsTrue result ↔ ((size ≢ 0) × (listed list.now 0 ≡ 0)) }
{
    size != 0 && read_number(list, 0) == 0
}

/// What is found where a journal of `size` pages begins with the block `start`: its header is that
/// of the image of page 0, where there is one.
fn find_open<D: Disk>(
    disk: &mut D,
    len: u64,
    page: &Page,
    start: u32,
    size: u32,
    list: &Page,
) -> Result<Found, OpenError>
    requires len { IsTrue D.is_honest → len ≡ length (D.bytes disk.old) }
    requires page { IsTrue D.is_honest → page.now ≡ block (D.bytes disk.old) 0 }
    requires gate { IsTrue D.is_honest → gate_part (D.bytes disk.old) ≡ 1 ∷ [] }
    requires some { 4096 ≤ len }
    requires even { len % 4096 ≡ 0 }
    requires start { IsTrue D.is_honest → start ≡ big_number 4 (start_part (D.bytes disk.old)) }
    requires journal { IsTrue D.is_honest → IsJournal (D.bytes disk.old) start size }
    requires list { IsTrue D.is_honest → list.now ≡ block (D.bytes disk.old) start }
    ensures file { IfOk result (λ found. IsTrue D.is_honest → IsFile (D.bytes disk.old) found) }
    ensures bounds { IfOk result (λ found. IsInBounds found.header) }
    ensures gate { IfOk result (λ found. found.gate ≡ Gate.Open start size) }
    ensures damaged { IfErr result (λ e. e ≡ OpenError.Damaged → IsTrue D.is_honest → IsNoFile (D.bytes disk.old)) }
    ensures only_damaged { IfErr result (λ e. IsTrue D.is_honest → IsTrue D.always_reads → e ≡ OpenError.Damaged) }
    ensures reads { OnlyReads D.is_honest D.is_durable D.bytes D.synced D.writes D.settled D.moment D.left_since
        D.may_leave disk.old disk.new }
    ensures count { MatchResult result
        (λ _. D.refused disk.new ≡ D.refused disk.old)
        (λ e. IsCounted e (D.refused disk.old) (D.refused disk.new)) }
    ensures cause { IfErr result (IsTold (D.told disk.new)) }
{
    let gate = Gate::Open { start, size };
    if has_first_page(size, list) {
        let mut image = [0; PAGE_SIZE];
        read_block(disk, start as u64 + 1, &mut image)?;
        return find(len, &image, gate);
    }
    find(len, page, gate)
}

/// What is found behind an open gate.
fn examine_open<D: Disk>(
    disk: &mut D,
    len: u64,
    page: &Page,
    list: &mut Page,
) -> Result<Found, OpenError>
    requires len { IsTrue D.is_honest → len ≡ length (D.bytes disk.old) }
    requires page { IsTrue D.is_honest → page.now ≡ block (D.bytes disk.old) 0 }
    requires gate { IsTrue D.is_honest → gate_part (D.bytes disk.old) ≡ 1 ∷ [] }
    requires some { 4096 ≤ len }
    requires even { len % 4096 ≡ 0 }
    ensures file { IfOk result (λ found. IsTrue D.is_honest → IsFile (D.bytes disk.old) found) }
    ensures bounds { IfOk result (λ found. IsInBounds found.header) }
    ensures list { IfOk result (λ found. IsTrue D.is_honest → HasList (D.bytes disk.old) list.new found.gate) }
    ensures small { IfOk result (λ found. IsSmall found.gate) }
    ensures damaged { IfErr result (λ e. e ≡ OpenError.Damaged → IsTrue D.is_honest → IsNoFile (D.bytes disk.old)) }
    ensures only_damaged { IfErr result (λ e. IsTrue D.is_honest → IsTrue D.always_reads → e ≡ OpenError.Damaged) }
    ensures reads { OnlyReads D.is_honest D.is_durable D.bytes D.synced D.writes D.settled D.moment D.left_since
        D.may_leave disk.old disk.new }
    ensures count { MatchResult result
        (λ _. D.refused disk.new ≡ D.refused disk.old)
        (λ e. IsCounted e (D.refused disk.old) (D.refused disk.new)) }
    ensures cause { IfErr result (IsTold (D.told disk.new)) }
{
    let start = read_number(page, START);
    match read_list(disk, len, start, list) {
        Ok(size) => find_open(disk, len, page, start, size, list),
        Err(cause) => Err(cause),
    }
}

/// Looks what is in a file, and reads the list of its journal into `list` where the gate is open.
/// Nothing is written. `Damaged` just where nothing of the kind is in the file.
pub(crate) fn examine<D: Disk>(disk: &mut D, list: &mut Page) -> Result<Found, OpenError>
    ensures file { IfOk result (λ found. IsTrue D.is_honest → IsFile (D.bytes disk.old) found) }
    ensures bounds { IfOk result (λ found. IsInBounds found.header) }
    ensures list { IfOk result (λ found. IsTrue D.is_honest → HasList (D.bytes disk.old) list.new found.gate) }
    ensures small { IfOk result (λ found. IsSmall found.gate) }
    ensures damaged { IfErr result (λ e. e ≡ OpenError.Damaged → IsTrue D.is_honest → IsNoFile (D.bytes disk.old)) }
    ensures only_damaged { IfErr result (λ e. IsTrue D.is_honest → IsTrue D.always_reads → e ≡ OpenError.Damaged) }
    ensures reads { OnlyReads D.is_honest D.is_durable D.bytes D.synced D.writes D.settled D.moment D.left_since
        D.may_leave disk.old disk.new }
    ensures count { MatchResult result
        (λ _. D.refused disk.new ≡ D.refused disk.old)
        (λ e. IsCounted e (D.refused disk.old) (D.refused disk.new)) }
    ensures cause { IfErr result (IsTold (D.told disk.new)) }
{
    let len = file_length(disk)?;
    if len < PAGE_SIZE as u64 || len % PAGE_SIZE as u64 != 0 {
        return Err(OpenError::Damaged);
    }
    let mut page = [0; PAGE_SIZE];
    read_block(disk, 0, &mut page)?;
    let gate = page[GATE];
    if gate == 1 {
        return examine_open(disk, len, &page, list);
    }
    find(len, &page, closed_gate(gate))
}
