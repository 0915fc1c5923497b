ghost use Rattle.std.specs.Prelude.{◌≡◌, true, IfOk};
ghost use Rattle.sqlrecord.specs.Page.{IsNode};

use items::Boxed;
use pagefile::Page;
use sqlrecord::is_node;
use std::alloc::{AllocError, Global};
use std::marker::Model;

/// A page in memory, and whether it was found to be a sound page of a tree. Contracts see it as the
/// page's bytes.
#[derive(Drop)]
pub struct Frame {
    bytes: Boxed<Page>,
    is_node: bool,
}

impl Model for Frame {
    ghost use Rattle.std.specs.Prelude.{◌≡◌, ℕ, List, true};
    ghost use Rattle.std.specs.Coded.{coded_ℕ, coded_list};
    ghost use Rattle.sqlrecord.specs.Page.{IsNode};

    ghost Value = { List ℕ };

    ghost coded = { coded_list coded_ℕ };

    ghost view = { λ frame. frame.bytes };

    ghost invariant = { λ frame. frame.is_node ≡ true → IsNode frame.bytes };
}

impl Frame {
    /// A copy of a page, which is tested. Refuses for want of memory alone.
    pub fn new(alloc: Global, page: &Page) -> Result<Frame, AllocError>
        ensures { IfOk result (λ frame. frame ≡ page.now) }
    {
        let bytes = Boxed::new(alloc, *page)?;
        let known = is_node(page);
        Ok(Frame {
            bytes,
            is_node: known,
        })
    }

    /// A copy of a page that is known to be a sound page of a tree, without a test. Refuses for
    /// want of memory alone.
    pub fn of_node(alloc: Global, page: &Page) -> Result<Frame, AllocError>
        requires { IsNode page.now }
        ensures { IfOk result (λ frame. frame ≡ page.now) }
    {
        let bytes = Boxed::new(alloc, *page)?;
        Ok(Frame {
            bytes,
            is_node: true,
        })
    }

    /// A copy. Refuses for want of memory alone.
    pub fn copy(&self, alloc: Global) -> Result<Frame, AllocError>
        ensures { IfOk result (λ frame. frame ≡ self.now) }
    {
        let bytes = Boxed::new(alloc, *self.bytes.get())?;
        Ok(Frame {
            bytes,
            is_node: self.is_node,
        })
    }

    /// Whether the page is known to be a sound page of a tree.
    pub fn is_node(&self) -> bool
        ensures { result ≡ true → IsNode self.now }
    {
        self.is_node
    }

    /// The page, without taking memory.
    pub fn into_page(self) -> Boxed<Page>
        ensures { result ≡ self }
    {
        let Frame { bytes, is_node: _ } = self;
        bytes
    }

    /// The page.
    pub fn page(&self) -> &Page
        ensures { result.now ≡ self.now }
    {
        self.bytes.get()
    }
}
