ghost use Rattle.std.specs.Prelude.{◌≡◌, ◌<◌, ◌+◌, ◌↔◌, [], true, length, slice_index, slice_index_or, IfOk, IfSome, IsNone, IsTrue};
ghost use Rattle.sqlrecord.specs.declared.kind.PageKind.TheVariants.{Inner as inner_kind};
ghost use Rattle.sqlrecord.specs.Page.{cells_of, link_of, key_of, value_of, child_of, kind_byte, AreCells, IsNode, IsReadable, IsSound};

use crate::sound::{cell_in, four, is_sound, key_in, two};
use crate::{PAGE_SIZE, PageKind};
use items::Items;
use std::alloc::{AllocError, Global};
use std::marker::Model;

/// A sound page, read as the list of its cells, which are lent without copying.
#[derive(Drop)]
pub struct SlotPage<'a> {
    bytes: &'a [u8],
    kind: PageKind,
}

impl<'a> Model for SlotPage<'a> {
    ghost use Rattle.sqlrecord.specs.Page.{PageView, IsReadable, link_of, cells_of};

    ghost Value = { PageView };

    ghost view = { λ p. record { kind = p.kind; link = link_of p.bytes.now; cells = cells_of p.bytes.now } };

    ghost invariant = { λ p. IsReadable p.bytes.now p.kind };
}

/// The kind that a page's first byte says.
fn kind_said(bytes: &[u8; PAGE_SIZE]) -> Option<PageKind>
    ensures said { IfSome result (λ kind. slice_index bytes.now 0 ≡ kind_byte kind) }
    ensures none { IsNone result → (kind : _) → slice_index bytes.now 0 ≡ kind_byte kind → ⊥ }
{
    match bytes[0] {
        1 => Some(PageKind::Leaf),
        2 => Some(PageKind::Inner),
        _ => None,
    }
}

/// Whether a page is sound, of the kind that its first byte says.
pub fn is_node(bytes: &[u8; PAGE_SIZE]) -> bool
    ensures { result ≡ true → IsNode bytes.now }
{
    match SlotPage::read(bytes) {
        Some(page) => {
            let _kind = page.kind();
            true
        }
        None => false,
    }
}

impl<'a> SlotPage<'a> {
    /// Reads a page; `None` just where it is damaged.
    pub fn read(bytes: &'a [u8; PAGE_SIZE]) -> Option<SlotPage<'a>>
        ensures sound { IfSome result (λ page. IsSound bytes.now page.kind) }
        ensures view { IfSome result (λ page. (page.link ≡ link_of bytes.now) × (page.cells ≡ cells_of bytes.now)) }
        ensures damaged { IsNone result → (kind : _) → IsSound bytes.now kind → ⊥ }
    {
        let kind = match bytes[0] {
            1 => PageKind::Leaf,
            2 => PageKind::Inner,
            _ => return None,
        };
        if is_sound(bytes, kind) {
            Some(SlotPage { bytes, kind })
        } else {
            None
        }
    }

    /// Reads a page as `read` does, without a test where it is known to be sound.
    pub fn read_known(bytes: &'a [u8; PAGE_SIZE], known: bool) -> Option<SlotPage<'a>>
        requires { known ≡ true → IsNode bytes.now }
        ensures sound { IfSome result (λ page. IsSound bytes.now page.kind) }
        ensures view { IfSome result (λ page. (page.link ≡ link_of bytes.now) × (page.cells ≡ cells_of bytes.now)) }
        ensures damaged { IsNone result → (kind : _) → IsSound bytes.now kind → ⊥ }
    {
        if !known {
            return SlotPage::read(bytes);
        }
        let kind = kind_said(bytes)?;
        Some(SlotPage { bytes, kind })
    }

    /// The bytes that it was read from.
    pub(crate) fn bytes(&self) -> &'a [u8]
        ensures cells { self.now.cells ≡ cells_of result.now }
        ensures link { self.now.link ≡ link_of result.now }
        ensures readable { IsReadable result.now self.now.kind }
    {
        self.bytes
    }

    /// Whether it is a leaf or an inner page.
    pub fn kind(&self) -> PageKind
        ensures { result ≡ self.now.kind }
    {
        self.kind
    }

    /// A leaf's next leaf, or 0 at the last one; an inner page's leftmost child.
    pub fn link(&self) -> u32
        ensures { result ≡ self.now.link }
    {
        four(self.bytes, 8)
    }

    /// The number of cells.
    #[tactic(auto, using(crate::proofs::PageLemmas::length_cells))]
    pub fn len(&self) -> usize
        ensures length { result ≡ length self.now.cells }
        ensures cells { AreCells self.now.kind self.now.cells }
    {
        two(self.bytes, 2)
    }

    /// Whether there are no cells.
    pub fn is_empty(&self) -> bool
        ensures { IsTrue result ↔ (length self.now.cells ≡ 0) }
    {
        self.len() == 0
    }

    /// A cell.
    #[tactic(auto, using(crate::proofs::PageLemmas::cell_facts))]
    pub fn cell(&self, i: usize) -> &'a [u8]
        requires { i < length self.now.cells }
        ensures cell { result.now ≡ slice_index_or self.now.cells i [] }
        ensures cells { AreCells self.now.kind self.now.cells }
    {
        cell_in(self.bytes, i)
    }

    /// The key of a cell.
    pub fn key(&self, i: usize) -> &'a [u8]
        requires { i < length self.now.cells }
        ensures { result.now ≡ key_of (slice_index_or self.now.cells i []) }
    {
        key_in(self.cell(i))
    }

    /// What stands in a cell behind its key: a leaf's value, or an inner page's child in four
    /// bytes.
    pub fn value(&self, i: usize) -> &'a [u8]
        requires { i < length self.now.cells }
        ensures value { result.now ≡ value_of (slice_index_or self.now.cells i []) }
        ensures cells { AreCells self.now.kind self.now.cells }
    {
        let cell = self.cell(i);
        &cell[2 + two(cell, 0)..]
    }

    /// The child of an inner page's cell.
    pub fn child(&self, i: usize) -> u32
        requires inner { self.now.kind ≡ inner_kind }
        requires place { i < length self.now.cells }
        ensures { result ≡ child_of (slice_index_or self.now.cells i []) }
    {
        four(self.value(i), 0)
    }

    /// A copy of its cells. Refuses for want of memory alone.
    pub fn keep(&self, alloc: Global) -> Result<KeptCells, AllocError>
        ensures { IfOk result (λ kept. kept ≡ self.now.cells) }
    {
        let bytes = Items::from_slice(alloc, self.bytes)?;
        Ok(KeptCells {
            bytes,
            kind: self.kind,
        })
    }
}

/// The cells of a sound page, copied as they lie in it.
#[derive(Drop)]
pub struct KeptCells {
    bytes: Items<u8>,
    kind: PageKind,
}

impl Model for KeptCells {
    ghost use Rattle.std.specs.Prelude.{ℕ, List};
    ghost use Rattle.std.specs.Coded.{coded_ℕ, coded_list};
    ghost use Rattle.sqlrecord.specs.Page.{IsReadable, cells_of};

    ghost Value = { List (List ℕ) };

    ghost coded = { coded_list (coded_list coded_ℕ) };

    ghost view = { λ p. cells_of p.bytes };

    ghost invariant = { λ p. IsReadable p.bytes p.kind };
}

impl KeptCells {
    /// Whether these lie in a page as others do, byte by byte.
    pub fn is_same(&self, other: &KeptCells) -> bool
        ensures { result ≡ true → self.now ≡ other.now }
    {
        self.bytes.as_slice() == other.bytes.as_slice()
    }

    /// The page that has them.
    pub fn page(&self) -> SlotPage<'_>
        ensures { result.cells ≡ self.now }
    {
        SlotPage {
            bytes: self.bytes.as_slice(),
            kind: self.kind,
        }
    }
}
