ghost use Rattle.std.specs.Prelude.{◌≡◌, ◌≤◌, ◌<◌, ◌+◌, ℕ, None, IsSome, false, length, OnOk, OnErr, IfOk, IfErr};
ghost use Rattle.std.specs.Option.{is_some, option_copied};
ghost use Rattle.sqlrecord.specs.Page.{IsNode};
ghost use Rattle.pool.specs.Pages.{over, only, pages_in};
ghost use Rattle.overlay.specs.Layers.{size_of, AreListed, IsNotKept};
ghost use Rattle.overlay.specs.Undone.{counts_in, none_undone, AreUndone};

use crate::PRIVATE_PAGES;
use crate::layers::{list_number, settle_all};
use crate::uses::number_in;
use items::Items;
use page_cache::Frame;
use page_space::SpaceError;
use pagefile::Page;
use pool::PageSet;
use std::alloc::{AllocError, Global};

/// The pages that a transaction has written, in two layers: those settled before the mark, and over
/// them those fresh since. There are 1,024 at most; page 0 counts as any other.
///
/// The settled pages are two sets: those that were fresh at the last mark lie over the older ones,
/// and go among these at the next mark. So a mark that is refused changes nothing.
#[derive(Drop)]
pub struct WriteSet {
    alloc: Global,
    older: PageSet,
    older_count: usize,
    newer: PageSet,
    /// The numbers of the newer pages; one too many does no harm.
    newer_numbers: Items<u32>,
    settled_count: usize,
    fresh: PageSet,
    /// The numbers of the fresh pages; one too many does no harm.
    fresh_numbers: Items<u32>,
    private_count: usize,
    /// How many pages had been written when they were undone last, and what page 0 said, where it
    /// was one of them.
    undone_size: usize,
    undone_counts: Option<(u32, u32)>,
    ghost listed: { AreListed (pages_in fresh) fresh_numbers },
    ghost newer_listed: { AreListed (pages_in newer) newer_numbers },
    ghost older_counted: { older_count ≡ size_of (pages_in older) },
    ghost settled_counted: { settled_count ≡ size_of (over (pages_in newer) (pages_in older)) },
    ghost private_counted: { private_count ≡ size_of (over (pages_in fresh) (over (pages_in newer) (pages_in older))) },
    ghost few: { private_count ≤ 1024 },
}

/// The page count and the first free page that a page 0 says.
fn counts_of(first: Option<&Frame>) -> Option<(u32, u32)>
    ensures { result ≡ counts_in (option_copied first.entry) }
{
    match first {
        Some(frame) => Some((number_in(frame.page(), 8), number_in(frame.page(), 12))),
        None => None,
    }
}

impl WriteSet {
    ghost use Rattle.overlay.specs.WriteSet.{fresh_of, settled_of, private_of, undone_of};

    /// No page written. Takes no memory until the first.
    pub fn new(alloc: Global) -> WriteSet
        ensures fresh { fresh_of result ≡ (λ n. None) }
        ensures settled { settled_of result ≡ (λ n. None) }
        ensures undone { undone_of result ≡ none_undone }
    {
        WriteSet {
            alloc,
            older: PageSet::new(alloc),
            older_count: 0,
            newer: PageSet::new(alloc),
            newer_numbers: Items::new(alloc),
            settled_count: 0,
            fresh: PageSet::new(alloc),
            fresh_numbers: Items::new(alloc),
            private_count: 0,
            undone_size: 0,
            undone_counts: None,
        }
    }

    /// How many pages were written: 1,024 at most.
    pub fn len(&self) -> usize
        ensures size { result ≡ size_of (private_of self.now) }
        ensures most { result ≤ 1024 }
    {
        self.private_count
    }

    /// The page of this number as it was written before the mark.
    fn settled_page(&self, number: u32) -> Option<&Frame>
        ensures { option_copied result ≡ settled_of self.now number }
    {
        match self.newer.get(number) {
            Some(page) => Some(page),
            None => self.older.get(number),
        }
    }

    /// The page of this number as it was written last; `None` where it was not written.
    pub fn get(&self, number: u32) -> Option<&Frame>
        ensures { option_copied result ≡ private_of self.now number }
    {
        match self.fresh.get(number) {
            Some(page) => Some(page),
            None => self.settled_page(number),
        }
    }

    /// Writes a page that was written before. Refuses for memory alone.
    fn put_again(&mut self, number: u32, page: Frame) -> Result<(), AllocError>
        requires { IsSome (private_of self.old number) }
        ensures put { OnOk result (private_of self.new ≡ over (only number page) (private_of self.old)) }
        ensures settled { settled_of self.new ≡ settled_of self.old }
        ensures undone { undone_of self.new ≡ undone_of self.old }
        ensures left { OnErr result (private_of self.new ≡ private_of self.old) }
    {
        list_number(&mut self.fresh_numbers, &self.fresh, number)?;
        self.fresh.put_frame(number, page)?;
        Ok(())
    }

    /// Writes a page that was not written before. Refuses for memory alone.
    fn put_new(&mut self, number: u32, page: Frame) -> Result<(), AllocError>
        requires new { is_some (private_of self.old number) ≡ false }
        requires room { size_of (private_of self.old) < 1024 }
        ensures put { OnOk result (private_of self.new ≡ over (only number page) (private_of self.old)) }
        ensures settled { settled_of self.new ≡ settled_of self.old }
        ensures undone { undone_of self.new ≡ undone_of self.old }
        ensures left { OnErr result (private_of self.new ≡ private_of self.old) }
    {
        list_number(&mut self.fresh_numbers, &self.fresh, number)?;
        self.fresh.put_frame(number, page)?;
        self.private_count += 1;
        Ok(())
    }

    /// Whether a page of this number was written.
    pub fn has(&self, number: u32) -> bool
        ensures { result ≡ is_some (private_of self.now number) }
    {
        self.get(number).is_some()
    }

    /// Writes a page. Refuses for memory, and at the limit of private pages where this one was not
    /// written before; then all stays as it was.
    pub(crate) fn put(&mut self, number: u32, page: &Page) -> Result<(), SpaceError>
        ensures put { OnOk result (private_of self.new ≡ over (only number page.now) (private_of self.old)) }
        ensures settled { settled_of self.new ≡ settled_of self.old }
        ensures undone { undone_of self.new ≡ undone_of self.old }
        ensures left { OnErr result (private_of self.new ≡ private_of self.old) }
        ensures refusal { IfErr result (IsNotKept (size_of (private_of self.new))) }
    {
        let frame = Frame::new(self.alloc, page)?;
        self.put_frame(number, frame)
    }

    /// Writes a sound page of a tree, as `put`, without a test.
    pub(crate) fn put_node(&mut self, number: u32, page: &Page) -> Result<(), SpaceError>
        requires { IsNode page.now }
        ensures put { OnOk result (private_of self.new ≡ over (only number page.now) (private_of self.old)) }
        ensures settled { settled_of self.new ≡ settled_of self.old }
        ensures undone { undone_of self.new ≡ undone_of self.old }
        ensures left { OnErr result (private_of self.new ≡ private_of self.old) }
        ensures refusal { IfErr result (IsNotKept (size_of (private_of self.new))) }
    {
        let frame = Frame::of_node(self.alloc, page)?;
        self.put_frame(number, frame)
    }

    /// Writes a page, as `put`.
    fn put_frame(&mut self, number: u32, page: Frame) -> Result<(), SpaceError>
        ensures put { OnOk result (private_of self.new ≡ over (only number page) (private_of self.old)) }
        ensures settled { settled_of self.new ≡ settled_of self.old }
        ensures undone { undone_of self.new ≡ undone_of self.old }
        ensures left { OnErr result (private_of self.new ≡ private_of self.old) }
        ensures refusal { IfErr result (IsNotKept (size_of (private_of self.new))) }
    {
        if self.has(number) {
            self.put_again(number, page)?;
            return Ok(());
        }
        if self.private_count >= PRIVATE_PAGES {
            return Err(SpaceError::Private);
        }
        self.put_new(number, page)?;
        Ok(())
    }

    /// Goes back to the mark: the fresh pages are as if they had not been written, but for what is
    /// kept of how many there were and of page 0. Takes no memory.
    pub fn undo(&mut self)
        ensures fresh { fresh_of self.new ≡ (λ n. None) }
        ensures settled { settled_of self.new ≡ settled_of self.old }
        ensures undone { AreUndone (private_of self.old) (undone_of self.new) }
    {
        self.undone_counts = counts_of(self.get(0));
        self.undone_size = self.private_count;
        self.fresh = PageSet::new(self.alloc);
        self.fresh_numbers = Items::new(self.alloc);
        self.private_count = self.settled_count;
    }

    /// Sets the mark here: the fresh pages are settled. Refuses for memory alone, and then the mark
    /// stays.
    pub fn mark(&mut self) -> Result<(), AllocError>
        ensures same { private_of self.new ≡ private_of self.old }
        ensures settled { OnOk result (settled_of self.new ≡ private_of self.old) }
        ensures fresh { OnOk result (fresh_of self.new ≡ (λ n. None)) }
        ensures left { OnErr result (settled_of self.new ≡ settled_of self.old) }
        ensures undone { undone_of self.new ≡ undone_of self.old }
    {
        settle_all(
            &mut self.older,
            &mut self.older_count,
            &self.newer,
            self.newer_numbers.as_slice(),
        )?;
        self.newer = std::mem::replace(&mut self.fresh, PageSet::new(self.alloc));
        self.newer_numbers = std::mem::replace(&mut self.fresh_numbers, Items::new(self.alloc));
        self.settled_count = self.private_count;
        Ok(())
    }

    /// All written pages, as a set of their own. Refuses for memory alone.
    pub(crate) fn all_pages(&self) -> Result<PageSet, AllocError>
        ensures pages { IfOk result (λ set. pages_in set ≡ private_of self.now) }
        ensures most { IfOk result (λ set. length set ≤ 1024) }
    {
        let older_numbers = self.older.numbers(self.alloc)?;
        let mut set = PageSet::new(self.alloc);
        let mut count = 0;
        settle_all(&mut set, &mut count, &self.older, older_numbers.as_slice())?;
        settle_all(
            &mut set,
            &mut count,
            &self.newer,
            self.newer_numbers.as_slice(),
        )?;
        settle_all(
            &mut set,
            &mut count,
            &self.fresh,
            self.fresh_numbers.as_slice(),
        )?;
        Ok(set)
    }
}
