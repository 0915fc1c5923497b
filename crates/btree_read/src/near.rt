//! The first entry behind a key, in the leaf that was looked into last where it lies there.

ghost use Rattle.std.specs.Prelude.{◌≡◌, ◌≤◌, ℕ, List, Some, map, IfOk, IfErr, IfSome};
ghost use Rattle.page_space.specs.Space.{PageMap, ReadRefused};
ghost use Rattle.btree_read.specs.declared.entry.Entry.{Entry};
ghost use Rattle.btree_read.specs.declared.entry.Start.TheVariants.{Behind};
ghost use Rattle.btree_read.specs.Nodes.{entry_of};
ghost use Rattle.btree_read.specs.Sorted.{Ascends, first_from};
ghost use Rattle.btree_read.specs.Search.{HasNoTree, Answers, AnswersAt, IsNoTree};
ghost use Rattle.btree_read.specs.Near.{IsPartOf, LiesIn, StaysIn, StaysBelow};

use crate::leaf::entry_at;
use crate::node::read_node;
use crate::place::{child_at, first_place};
use crate::walk::sibling_of;
use crate::{Entry, MAXIMUM_LEVELS, Start};
use page_space::{PAGE_SIZE, Page, PageReader, SpaceError};
use sqlrecord::{KeptCells, PageKind, SlotPage};
use std::alloc::{AllocError, Global};

/// The leaf in which an entry was found last, if one was.
#[derive(Drop)]
pub struct LastLeaf {
    cells: Option<KeptCells>,
}

impl LastLeaf {
    /// No leaf, which lies in any tree.
    pub fn new() -> LastLeaf
        ensures { (pages : PageMap) (root : ℕ) → LiesIn pages root result }
    {
        LastLeaf { cells: None }
    }

    /// The first entry behind a key, where it lies in the leaf and is not its first one. None says
    /// nothing.
    fn entry_behind(&self, alloc: Global, key: &[u8]) -> Result<Option<Entry>, AllocError>
        ensures { (entries : List Entry) → Ascends entries → IsPartOf entries self.now.cells
            → IfOk result (λ found. IfSome found (λ entry. Some entry ≡ first_from Behind key.now entries)) }
    {
        match &self.cells {
            None => Ok(None),
            Some(cells) => {
                let leaf = cells.page();
                let at = first_place(&leaf, Start::Behind, key);
                if at == 0 || at == leaf.len() {
                    return Ok(None);
                }
                Ok(Some(entry_at(alloc, &leaf, at)?))
            }
        }
    }

    /// The first entry of a leaf behind a key; the leaf is kept where there is one.
    fn entry_of_leaf(
        &mut self,
        alloc: Global,
        leaf: &SlotPage<'_>,
        key: &[u8],
    ) -> Result<Option<Entry>, AllocError>
        ensures found { IfOk result (λ found. found ≡ first_from Behind key.now (map entry_of leaf.now.cells)) }
        ensures kept { StaysIn (map entry_of leaf.now.cells) self.old self.new }
    {
        let at = first_place(leaf, Start::Behind, key);
        if at == leaf.len() {
            return Ok(None);
        }
        self.cells = Some(leaf.keep(alloc)?);
        Ok(Some(entry_at(alloc, leaf, at)?))
    }
}

/// The first entry behind a key in the tree under a page. The leaf in which it lies is kept.
fn find_near<R: PageReader>(
    space: &mut R,
    alloc: Global,
    page: u32,
    levels: u32,
    key: &[u8],
    last: &mut LastLeaf,
    buffer: &mut Page,
) -> Result<Option<Entry>, SpaceError>
    ensures found { Answers (R.pages space.old) page (first_from Behind key.now) result }
    ensures kept { StaysBelow (R.pages space.old) page last.old last.new }
    ensures same { R.pages space.new ≡ R.pages space.old }
    ensures whole { R.is_whole space.old → R.is_whole space.new }
    ensures refusal { IfErr result (ReadRefused (HasNoTree (R.pages space.old) page levels) (R.refused space.old) (R.refused space.new)) }
    ensures rising { R.refused space.old ≤ R.refused space.new }
    ensures follows { R.follows space.old space.new }
{
    let node = read_node(space, page, buffer)?;
    match node.kind() {
        PageKind::Leaf => Ok(last.entry_of_leaf(alloc, &node, key)?),
        PageKind::Inner => {
            if levels == 0 {
                return Err(SpaceError::Damaged);
            }
            let at = first_place(&node, Start::Behind, key);
            let child = child_at(&node, at);
            let sibling = sibling_of(&node, at);
            match find_near(space, alloc, child, levels - 1, key, last, buffer)? {
                Some(entry) => Ok(Some(entry)),
                None => match sibling {
                    Some(sibling) => {
                        find_near(space, alloc, sibling, levels - 1, key, last, buffer)
                    }
                    None => Ok(None),
                },
            }
        }
    }
}

/// The first entry of a tree behind a key, as `next` gives it: without a read, where it lies in the
/// leaf in which an entry was found last, and is not its first one. Refused as `get` is.
pub fn next_near<R: PageReader>(
    space: &mut R,
    alloc: Global,
    root: u32,
    after: &[u8],
    last: &mut LastLeaf,
) -> Result<Option<Entry>, SpaceError>
    requires { LiesIn (R.pages space.old) root last.old }
    ensures found { AnswersAt (R.pages space.old) root (first_from Behind after.now) result }
    ensures lies { LiesIn (R.pages space.new) root last.new }
    ensures same { R.pages space.new ≡ R.pages space.old }
    ensures whole { R.is_whole space.old → R.is_whole space.new }
    ensures refusal { IfErr result (ReadRefused (IsNoTree (R.pages space.old) root) (R.refused space.old) (R.refused space.new)) }
    ensures rising { R.refused space.old ≤ R.refused space.new }
    ensures follows { R.follows space.old space.new }
{
    if root == 0 {
        return Ok(None);
    }
    match last.entry_behind(alloc, after)? {
        Some(entry) => Ok(Some(entry)),
        None => {
            let mut buffer = [0; PAGE_SIZE];
            find_near(space, alloc, root, MAXIMUM_LEVELS, after, last, &mut buffer)
        }
    }
}
