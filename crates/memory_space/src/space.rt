ghost use Rattle.std.specs.Prelude.{◌≡◌, ℕ, None};
ghost use Rattle.memory_space.specs.Pages.{pages_of};

use items::{Boxed, Items};
use page_space::{Page, PageReader, PageSpace, SpaceError};
use std::alloc::Global;

/// Pages in memory, for tests. A page that was taken out of use is not used again.
#[derive(Drop)]
pub struct MemorySpace {
    alloc: Global,
    pages: Items<Option<Boxed<Page>>>,
}

impl MemorySpace {
    /// A space with no page in use.
    pub fn new(alloc: Global) -> MemorySpace
        ensures { (n : ℕ) → ⟦<MemorySpace as PageReader>⟧.pages result n ≡ None }
    {
        MemorySpace {
            alloc,
            pages: Items::new(alloc),
        }
    }
}

impl PageReader for MemorySpace {
    ghost use Rattle.std.specs.Prelude.{⊤};
    ghost use Rattle.memory_space.specs.Pages.{pages_of, pages_are_bounded};

    ghost pages = { λ s. pages_of s.pages };

    ghost refused = { λ s. 0 };

    ghost follows = { λ a b. ⊤ };

    ghost is_whole = { λ s. ⊤ };

    ghost bounded = { λ s n h. pages_are_bounded s.pages n h };

    ghost follows_refl = { λ s. tt };

    ghost follows_trans = { λ a b c h g. tt };

    fn read(&mut self, page: u32, into: &mut Page) -> Result<bool, SpaceError> {
        let at = page as usize;
        if page == 0 || page >= 65536 || at >= self.pages.len() {
            return Err(SpaceError::Damaged);
        }
        match &self.pages.as_slice()[at] {
            Some(bytes) => {
                *into = *bytes.get();
                Ok(false)
            }
            None => Err(SpaceError::Damaged),
        }
    }
}

impl PageSpace for MemorySpace {
    ghost use Rattle.std.specs.Prelude.{◌≤◌, length};

    ghost at_limit = { λ s fault. 65536 ≤ length s.pages };

    fn write(&mut self, page: u32, bytes: &Page) -> Result<(), SpaceError> {
        let at = page as usize;
        if page == 0 || page >= 65536 || at >= self.pages.len() {
            return Err(SpaceError::Damaged);
        }
        if self.pages.as_slice()[at].is_none() {
            return Err(SpaceError::Damaged);
        }
        let copy = Boxed::new(self.alloc, *bytes)?;
        self.pages.set(at, Some(copy));
        Ok(())
    }

    fn allocate(&mut self) -> Result<u32, SpaceError> {
        if self.pages.is_empty() {
            self.pages.push(None)?;
        }
        let page = self.pages.len();
        if page >= 65536 {
            return Err(SpaceError::Pages);
        }
        let bytes = Boxed::new(self.alloc, [0; 4096])?;
        self.pages.push(Some(bytes))?;
        Ok(page as u32)
    }

    fn free(&mut self, page: u32) -> Result<(), SpaceError> {
        let at = page as usize;
        if page == 0 || page >= 65536 || at >= self.pages.len() {
            return Err(SpaceError::Damaged);
        }
        if self.pages.as_slice()[at].is_none() {
            return Err(SpaceError::Damaged);
        }
        self.pages.set(at, None);
        Ok(())
    }
}
