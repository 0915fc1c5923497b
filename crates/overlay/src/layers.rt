//! Pages that move from one layer into another.
ghost use Rattle.std.specs.Prelude.{◌≡◌, ◌≤◌, [], ℕ, ◌==◌, length, if◌then◌else◌, OnOk, OnErr};
ghost use Rattle.std.specs.Option.{is_some};
ghost use Rattle.pool.specs.Pages.{over, only, pick, pages_in};
ghost use Rattle.overlay.specs.Layers.{size_of, AreListed};

use items::Items;
use page_cache::Frame;
use pool::PageSet;
use std::alloc::AllocError;

/// Whether a set has a page of this number.
fn has_page(set: &PageSet, number: u32) -> bool
    ensures { result ≡ is_some (pages_in set.now number) }
{
    set.get(number).is_some()
}

/// Lists the number of a page that is to be fresh.
pub(crate) fn list_number(
    numbers: &mut Items<u32>,
    fresh: &PageSet,
    number: u32,
) -> Result<(), AllocError>
    requires { AreListed (pages_in fresh.now) numbers.old }
    ensures kept { AreListed (pages_in fresh.now) numbers.new }
    ensures listed { OnOk result (AreListed (over (only number []) (pages_in fresh.now)) numbers.new) }
{
    if has_page(fresh, number) {
        return Ok(());
    }
    numbers.push(number)
}

/// Puts a page into a set, and counts it where its number is new there.
fn put_counted(
    set: &mut PageSet,
    count: &mut usize,
    number: u32,
    page: &Frame,
) -> Result<(), AllocError>
    requires { count.old ≡ size_of (pages_in set.old) }
    ensures put { OnOk result (pages_in set.new ≡ over (only number page.now) (pages_in set.old)) }
    ensures left { OnErr result (set.new ≡ set.old) }
    ensures counted { count.new ≡ size_of (pages_in set.new) }
    ensures long { length set.old ≤ count.old → length set.new ≤ count.new }
{
    if has_page(set, number) {
        set.put_copy(number, page)?;
        return Ok(());
    }
    set.put_copy(number, page)?;
    *count += 1;
    Ok(())
}

/// Puts the fresh page of a number into the settled ones, where there is one.
fn settle_page(
    settled: &mut PageSet,
    count: &mut usize,
    fresh: &PageSet,
    number: u32,
) -> Result<(), AllocError>
    requires { count.old ≡ size_of (pages_in settled.old) }
    ensures settled { OnOk result ((n : ℕ)
        → pages_in settled.new n ≡ (if number == n then pick (pages_in fresh.now n) (pages_in settled.old n) else pages_in settled.old n)) }
    ensures left { OnErr result (settled.new ≡ settled.old) }
    ensures counted { count.new ≡ size_of (pages_in settled.new) }
    ensures long { length settled.old ≤ count.old → length settled.new ≤ count.new }
{
    match fresh.get(number) {
        Some(page) => {
            put_counted(settled, count, number, page)?;
            Ok(())
        }
        None => Ok(()),
    }
}

/// Puts the fresh pages, whose numbers these are, into the settled ones. Where memory is refused
/// some of them may be there already.
pub(crate) fn settle_all(
    settled: &mut PageSet,
    count: &mut usize,
    fresh: &PageSet,
    numbers: &[u32],
) -> Result<(), AllocError>
    requires counted { count.old ≡ size_of (pages_in settled.old) }
    requires listed { AreListed (pages_in fresh.now) numbers.now }
    ensures settled { OnOk result (pages_in settled.new ≡ over (pages_in fresh.now) (pages_in settled.old)) }
    ensures same { over (pages_in fresh.now) (pages_in settled.new) ≡ over (pages_in fresh.now) (pages_in settled.old) }
    ensures counted { count.new ≡ size_of (pages_in settled.new) }
    ensures long { length settled.old ≤ count.old → length settled.new ≤ count.new }
{
    for number in numbers {
        settle_page(settled, count, fresh, *number)?;
    }
    Ok(())
}
