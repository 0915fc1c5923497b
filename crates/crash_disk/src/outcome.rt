//! What a crash may leave.
ghost use Rattle.std.specs.Prelude.{◌≡◌, ◌≤◌, ◌<◌, ◌++◌, ◌∷◌, ℕ, [], length, slice_index, IfOk, IfErr, OnOk, OnErr};
ghost use Rattle.disk.specs.Refused.{CountsRefusal};
ghost use Rattle.disk.specs.Causes.{IsOfMemory};
ghost use Rattle.crash_disk.specs.Outcomes.{newest, Adds, AddsSynced, InRange, IsWithin, IsLeft, IsFilled, Agrees};

use disk::DiskError;
use std::alloc::{AllocError, Global};

/// The byte that fills a range that was not synced.
const OTHER_BYTE: u8 = 0xa5;

/// What a crash may leave: the bytes that were synced last, the ranges that may hold any bytes
/// since then, and the lengths that the device was to have since then.
#[derive(Drop)]
pub struct Outcome {
    /// The bytes that were synced last.
    pub synced: Vec<u8>,
    /// From where to where there may be any bytes.
    pub ranges: Vec<(u64, u64)>,
    /// The lengths.
    pub lengths: Vec<u64>,
}

/// The latest outcome.
pub(crate) fn latest<'a>(first: &'a Outcome, later: &'a [Outcome]) -> &'a Outcome
    ensures { result.now ≡ newest first.now later.now }
{
    match later {
        [] => first,
        [.., last] => last,
    }
}

/// An outcome with a range and a length more than another.
fn with_range(
    alloc: Global,
    was: &Outcome,
    from: u64,
    to: u64,
    len: u64,
) -> Result<Outcome, AllocError>
    ensures synced { IfOk result (λ o. o.synced.items ≡ was.now.synced.items) }
    ensures ranges { IfOk result (λ o. o.ranges.items ≡ was.now.ranges.items ++ (from, to) ∷ []) }
    ensures lengths { IfOk result (λ o. o.lengths.items ≡ was.now.lengths.items ++ len ∷ []) }
{
    let synced = was.synced.to_vec(alloc)?;
    let mut ranges = was.ranges.to_vec(alloc)?;
    ranges.push((from, to))?;
    let mut lengths = was.lengths.to_vec(alloc)?;
    lengths.push(len)?;
    Ok(Outcome {
        synced,
        ranges,
        lengths,
    })
}

/// The outcome that is these bytes.
pub(crate) fn all_synced(alloc: Global, bytes: &[u8]) -> Result<Outcome, AllocError>
    ensures synced { IfOk result (λ o. o.synced.items ≡ bytes.now) }
    ensures ranges { IfOk result (λ o. o.ranges.items ≡ []) }
    ensures lengths { IfOk result (λ o. o.lengths.items ≡ []) }
{
    let synced = bytes.to_vec(alloc)?;
    Ok(Outcome {
        synced,
        ranges: Vec::new(alloc),
        lengths: Vec::new(alloc),
    })
}

/// Adds an outcome.
fn add(later: &mut Vec<Outcome>, next: Outcome) -> Result<(), AllocError>
    ensures ok { OnOk result (later.new.items ≡ later.old.items ++ next ∷ []) }
    ensures err { OnErr result (later.new.items ≡ later.old.items) }
{
    match later.push(next) {
        Ok(()) => Ok(()),
        Err(_) => Err(AllocError),
    }
}

/// Adds an outcome with a range and a length more than the latest.
pub(crate) fn add_range(
    alloc: Global,
    first: &Outcome,
    later: &mut Vec<Outcome>,
    from: u64,
    to: u64,
    len: u64,
) -> Result<(), AllocError>
    ensures ok { OnOk result (Adds first.now later.old.items later.new.items (from, to) len) }
    ensures err { OnErr result (later.new.items ≡ later.old.items) }
{
    let next = with_range(alloc, latest(first, later.as_slice()), from, to, len)?;
    add(later, next)
}

/// Adds the outcome that is these bytes.
pub(crate) fn add_synced(
    alloc: Global,
    later: &mut Vec<Outcome>,
    bytes: &[u8],
) -> Result<(), AllocError>
    ensures ok { OnOk result (AddsSynced later.old.items later.new.items bytes.now) }
    ensures err { OnErr result (later.new.items ≡ later.old.items) }
{
    let next = all_synced(alloc, bytes)?;
    add(later, next)
}

/// Fills a range with the byte a5, as far as the bytes go.
pub(crate) fn fill_range(bytes: &mut [u8], from: u64, to: u64)
    ensures size { length bytes.new ≡ length bytes.old }
    ensures inside { (i : ℕ) → IsWithin from to i → i < length bytes.new → slice_index bytes.new i ≡ 165 }
    ensures outside { (i : ℕ) → (IsWithin from to i → ⊥) → slice_index bytes.new i ≡ slice_index bytes.old i }
{
    let to = (to as usize).min(bytes.len());
    for i in from as usize..to {
        bytes[i] = OTHER_BYTE;
    }
}

/// Fills ranges with the byte a5.
pub(crate) fn fill_ranges(bytes: &mut [u8], ranges: &[(u64, u64)])
    ensures size { length bytes.new ≡ length bytes.old }
    ensures inside { (i : ℕ) → i < length bytes.new → InRange ranges.now i → slice_index bytes.new i ≡ 165 }
    ensures outside { (i : ℕ) → (InRange ranges.now i → ⊥) → slice_index bytes.new i ≡ slice_index bytes.old i }
{
    for (from, to) in ranges {
        fill_range(bytes, *from, *to);
    }
}

/// Fills what may be any bytes: what lies behind the bytes that were synced, and each range.
fn fill_all(bytes: &mut [u8], o: &Outcome)
    requires { Agrees o.now bytes.old }
    ensures left { IsLeft o.now bytes.new }
    ensures filled { IsFilled o.now bytes.new }
    ensures size { length bytes.new ≡ length bytes.old }
{
    let end = bytes.len() as u64;
    fill_range(bytes, o.synced.len() as u64, end);
    fill_ranges(bytes, o.ranges.as_slice());
}

/// A copy of bytes with the byte a5 where a crash may leave any.
pub(crate) fn filled(alloc: Global, o: &Outcome, bytes: &[u8]) -> Result<Vec<u8>, AllocError>
    requires { Agrees o.now bytes.now }
    ensures left { IfOk result (λ v. IsLeft o.now v.items) }
    ensures filled { IfOk result (λ v. IsFilled o.now v.items) }
    ensures size { IfOk result (λ v. length v.items ≡ length bytes.now) }
{
    let mut found = bytes.to_vec(alloc)?;
    fill_all(found.as_mut_slice(), o);
    Ok(found)
}
