ghost use Rattle.std.specs.Prelude.{◌≡◌, ◌+◌, ◌≤◌, ◌<◌, ◌++◌, ◌∷◌, [], length, OnOk, OnErr, IfOk, IsSome, ◌==◌, ℕ, true};
ghost use Rattle.std.specs.List.{list_any};
ghost use Rattle.std.specs.Option.{option_copied};
ghost use Rattle.journal.specs.Lists.{IsRising, image_in};
ghost use Rattle.pool.specs.Pages.{over, only, pages_in, numbers_of};
ghost use Rattle.pool.specs.Ready.{Ascend};

use items::Items;
use journal::Image;
use page_cache::Frame;
use pagefile::Page;
use std::alloc::{AllocError, Global};
use std::collections::BTreeMap;
use std::marker::Model;

/// A map from page numbers to pages. Contracts see its entries, in the order of the numbers.
#[derive(Drop)]
pub struct PageSet {
    pages: BTreeMap<u32, Frame>,
    alloc: Global,
}

impl Model for PageSet {
    ghost use Rattle.std.specs.Prelude.{ℕ, List};

    ghost Value = { List (ℕ × List ℕ) };

    ghost view = { λ s. s.pages.entries };
}

impl PageSet {
    /// The empty set. Takes no memory until the first page.
    pub fn new(alloc: Global) -> PageSet
        ensures { result ≡ [] }
    {
        PageSet {
            pages: BTreeMap::new(alloc),
            alloc,
        }
    }

    /// How many pages it has.
    pub fn len(&self) -> usize
        ensures { result ≡ length self.now }
    {
        self.pages.len()
    }

    /// The page of this number; `None` where it has none.
    pub fn get(&self, number: u32) -> Option<&Frame>
        ensures { option_copied result ≡ pages_in self.now number }
    {
        self.pages.get(&number)
    }

    /// Makes this the page of its number. Refuses for want of memory alone, and then stays as it
    /// was.
    pub fn put(&mut self, number: u32, page: &Page) -> Result<(), AllocError>
        ensures put { OnOk result (pages_in self.new ≡ over (only number page.now) (pages_in self.old)) }
        ensures len { OnOk result (length self.new ≤ length self.old + 1) }
        ensures same_len { OnOk result (IsSome (pages_in self.old number) → length self.new ≡ length self.old) }
        ensures left { OnErr result (self.new ≡ self.old) }
    {
        let page = Frame::new(self.alloc, page)?;
        self.pages.insert(number, page)?;
        Ok(())
    }

    /// Makes this the page of its number, as `put`: it is not tested again.
    pub fn put_frame(&mut self, number: u32, page: Frame) -> Result<(), AllocError>
        ensures put { OnOk result (pages_in self.new ≡ over (only number page) (pages_in self.old)) }
        ensures len { OnOk result (length self.new ≤ length self.old + 1) }
        ensures same_len { OnOk result (IsSome (pages_in self.old number) → length self.new ≡ length self.old) }
        ensures left { OnErr result (self.new ≡ self.old) }
    {
        self.pages.insert(number, page)?;
        Ok(())
    }

    /// Makes a copy of this the page of its number, as `put`: it is not tested again.
    pub fn put_copy(&mut self, number: u32, page: &Frame) -> Result<(), AllocError>
        ensures put { OnOk result (pages_in self.new ≡ over (only number page.now) (pages_in self.old)) }
        ensures len { OnOk result (length self.new ≤ length self.old + 1) }
        ensures same_len { OnOk result (IsSome (pages_in self.old number) → length self.new ≡ length self.old) }
        ensures left { OnErr result (self.new ≡ self.old) }
    {
        let page = page.copy(self.alloc)?;
        self.pages.insert(number, page)?;
        Ok(())
    }

    /// The numbers of its pages, in order. Refuses for want of memory alone.
    pub fn numbers(&self, alloc: Global) -> Result<Vec<u32>, AllocError>
        ensures numbers { IfOk result (λ numbers. numbers.items ≡ numbers_of self.now) }
        ensures all { IfOk result (λ numbers. (n : ℕ) → IsSome (pages_in self.now n)
            → list_any (λ k. k == n) numbers.items ≡ true) }
        ensures ascend { IfOk result (λ numbers. Ascend numbers.items) }
    {
        // That keys ascend, which is what the length tells a proof.
        let _len = self.pages.len();
        match self.list_numbers(alloc) {
            Ok(numbers) => Ok(numbers),
            Err(error) => Err(error),
        }
    }

    /// The same, of which it is not said that they are in order.
    fn list_numbers(&self, alloc: Global) -> Result<Vec<u32>, AllocError>
        ensures numbers { IfOk result (λ numbers. numbers.items ≡ numbers_of self.now) }
        ensures all { IfOk result (λ numbers. (n : ℕ) → IsSome (pages_in self.now n)
            → list_any (λ k. k == n) numbers.items ≡ true) }
    {
        self.pages.keys().copied().collect(alloc)
    }

    /// Its pages, in the order of their numbers. Refuses for want of memory alone.
    pub(crate) fn into_images(self, alloc: Global) -> Result<Items<Image>, AllocError>
        ensures same { IfOk result (λ images. images ≡ self) }
        ensures rising { IfOk result IsRising }
        ensures sized { IfOk result (λ images. (i : ℕ) → i < length images → length (image_in images i) ≡ 4096) }
    {
        // That keys ascend, which is what the length tells a proof.
        let _len = self.pages.len();
        let PageSet { pages, alloc: _ } = self;
        match list_images(alloc, pages) {
            Ok(images) => Ok(images),
            Err(error) => Err(error),
        }
    }
}

/// How many bytes a page has.
fn size_of(page: &Page) -> usize
    ensures { length page.now ≡ 4096 }
{
    page.len()
}

/// Puts a page at the end of a list.
fn push_image(images: &mut Items<Image>, number: u32, page: Frame) -> Result<(), AllocError>
    ensures pushed { OnOk result (images.new ≡ images.old ++ (number, page) ∷ []) }
    ensures sized { length page ≡ 4096 }
{
    let _size = size_of(page.page());
    let page = page.into_page();
    images.push((number, page))
}

/// The entries of a map, in their order, of which it is not said that they rise.
fn list_images(alloc: Global, mut pages: BTreeMap<u32, Frame>) -> Result<Items<Image>, AllocError>
    ensures same { IfOk result (λ images. images ≡ pages.entries) }
    ensures sized { IfOk result (λ images. (i : ℕ) → i < length images → length (image_in images i) ≡ 4096) }
{
    let mut images = Items::new(alloc);
    'listed: while let Some((number, page)) = pages.pop_first() {
        push_image(&mut images, number, page)?;
    }
    Ok(images)
}
