//! Branches of an inner page exchanged, and two inner pages joined.

ghost use Rattle.std.specs.Prelude.{◌≡◌, ◌≢◌, ◌≤◌, ◌+◌, ◌++◌, ◌∷◌, [], ℕ, List, map, length, take, drop, IsSome, IfSome, IfOk, IfErr, OnOk, None, true, false};
ghost use Rattle.std.specs.Option.{option_to_list};
ghost use Rattle.page_space.specs.Space.{ChangeRefused};
ghost use Rattle.sqlrecord.specs.declared.kind.PageKind.TheVariants.{Inner};
ghost use Rattle.sqlrecord.specs.Build.{Fits};
ghost use Rattle.sqlrecord.specs.Page.{IsCell};
ghost use Rattle.btree_read.specs.declared.entry.Branch.{Branch};
ghost use Rattle.btree_read.specs.Nodes.{Key, InnerNode, HasNode, branch_of, IsStocked, IsSmallBranch};
ghost use Rattle.btree.specs.Grow.{InnerWritten};
ghost use Rattle.btree.specs.Overfull.{RisesBehind};
ghost use Rattle.btree_remove.specs.Removed.{Rewritten, IsSmallOutcome, AreInnersJoined};

use crate::cells::write_without;
use crate::outcome::Removed;
use crate::pair::Pair;
use btree::{cells_with, write_inner};
use btree_read::{Branch, read_node};
use page_space::{PAGE_SIZE, PageSpace, SpaceError};
use sqlrecord::{MAXIMUM_KEY, PageKind, SlotPage, are_cells, inner_cell};
use std::alloc::Global;

/// Whether a page is an inner one of at least so many branches.
fn has_branches(node: &SlotPage<'_>, count: usize) -> bool
    ensures inner { result ≡ true → (node.now.kind ≡ Inner) × (count ≤ length node.now.cells) }
    ensures other { result ≡ false → node.now.kind ≡ Inner → count ≤ length node.now.cells → ⊥ }
{
    match node.kind() {
        PageKind::Inner => count <= node.len(),
        PageKind::Leaf => false,
    }
}

/// Writes an inner page of this leftmost child, with the cell of a branch in place of those of
/// `node` from `at` up to `behind`.
fn put_cell<'a, S: PageSpace>(
    space: &mut S,
    alloc: Global,
    page: u32,
    first: u32,
    node: &SlotPage<'a>,
    at: usize,
    behind: usize,
    cell: &'a [u8],
) -> Result<Option<Branch>, SpaceError>
    requires order { at ≤ behind }
    requires within { behind ≤ length node.now.cells }
    requires inner { node.now.kind ≡ Inner }
    requires fits { Fits node.now.cells }
    requires cell { IsCell Inner cell.now }
    requires small { IsSmallBranch (branch_of cell.now) }
    ensures written { IsSome (S.pages space.old page)
        → IsStocked (InnerNode node.now.link (map branch_of node.now.cells))
        → IfOk result (InnerWritten (S.pages space.old) (S.pages space.new) page first (take at (map branch_of node.now.cells) ++ branch_of cell.now ∷ drop behind (map branch_of node.now.cells))) }
    ensures small { IfOk result (λ split. IfSome split IsSmallBranch) }
    ensures whole { OnOk result (S.is_whole space.old → S.is_whole space.new) }
    ensures refusal { IfErr result (ChangeRefused (S.at_limit space.new)
        ((lo : Key) → IsSome (S.pages space.old page) → S.is_whole space.old
        → IsStocked (InnerNode node.now.link (map branch_of node.now.cells))
        → RisesBehind lo (take at (map branch_of node.now.cells) ++ branch_of cell.now ∷ drop behind (map branch_of node.now.cells))
        → ⊥) (S.refused space.old) (S.refused space.new)) }
    ensures rising { S.refused space.old ≤ S.refused space.new }
    ensures follows { S.follows space.old space.new }
{
    let cells = cells_with(alloc, node, at, behind, cell)?;
    if !are_cells(PageKind::Inner, cells.as_slice()) {
        return Err(SpaceError::Damaged);
    }
    write_inner(space, alloc, page, first, cells.as_slice(), false)
}

/// Writes an inner page without its branches from `at` up to `behind`. A page that would keep no
/// branch is left as it is.
fn leave_out<S: PageSpace>(
    space: &mut S,
    page: u32,
    node: &SlotPage<'_>,
    at: usize,
    behind: usize,
) -> Result<Removed, SpaceError>
    requires order { at ≤ behind }
    requires within { behind ≤ length node.now.cells }
    requires inner { node.now.kind ≡ Inner }
    requires fits { Fits node.now.cells }
    ensures written { IsSome (S.pages space.old page)
        → IsStocked (InnerNode node.now.link (map branch_of node.now.cells))
        → IfOk result (Rewritten (S.pages space.old) (S.pages space.new) page node.now.link (take at (map branch_of node.now.cells) ++ drop behind (map branch_of node.now.cells))) }
    ensures small { IfOk result IsSmallOutcome }
    ensures whole { OnOk result (S.is_whole space.old → S.is_whole space.new) }
    ensures refusal { IfErr result (ChangeRefused (S.at_limit space.new) (S.pages space.old page ≡ None) (S.refused space.old) (S.refused space.new)) }
    ensures rising { S.refused space.old ≤ S.refused space.new }
    ensures follows { S.follows space.old space.new }
{
    let count = behind - at;
    if node.len() == count {
        return Ok(Removed::Lone(node.link()));
    }
    write_without(space, page, node.link(), node, at, behind)?;
    Ok(Removed::Done(None))
}

/// Exchanges the branches of an inner page from `at` up to `behind` for this one, if any. A page
/// that would keep no branch is left as it is.
pub(crate) fn exchange_branches<S: PageSpace>(
    space: &mut S,
    alloc: Global,
    page: u32,
    at: usize,
    behind: usize,
    branch: Option<Branch>,
) -> Result<Removed, SpaceError>
    requires order { at ≤ behind }
    requires small { IfSome branch IsSmallBranch }
    ensures written { (first : ℕ) (bs : List Branch) → HasNode (S.pages space.old) page (InnerNode first bs)
        → behind ≤ length bs
        → IfOk result (Rewritten (S.pages space.old) (S.pages space.new) page first (take at bs ++ (option_to_list branch ++ drop behind bs))) }
    ensures small { IfOk result IsSmallOutcome }
    ensures whole { OnOk result (S.is_whole space.old → S.is_whole space.new) }
    ensures refusal { IfErr result (ChangeRefused (S.at_limit space.new)
        ((lo : Key) (first : ℕ) (bs : List Branch) → HasNode (S.pages space.old) page (InnerNode first bs)
        → behind ≤ length bs → S.is_whole space.old
        → RisesBehind lo (take at bs ++ (option_to_list branch ++ drop behind bs))
        → ⊥) (S.refused space.old) (S.refused space.new)) }
    ensures rising { S.refused space.old ≤ S.refused space.new }
    ensures follows { S.follows space.old space.new }
{
    let mut buffer = [0; PAGE_SIZE];
    let node = read_node(space, page, &mut buffer)?;
    if !has_branches(&node, behind) {
        return Err(SpaceError::Damaged);
    }
    let Some(branch) = branch else {
        return leave_out(space, page, &node, at, behind);
    };
    let cell = inner_cell(alloc, branch.key.as_slice(), branch.child)?;
    let split = put_cell(
        space,
        alloc,
        page,
        node.link(),
        &node,
        at,
        behind,
        cell.as_slice(),
    )?;
    Ok(Removed::Done(split))
}

/// Gives back the second one of two neighbouring inner pages, and writes at the first one's page
/// what the kept one has, with the cell of one more branch: before its own where that is the second
/// one, and `only` is then the leftmost child; behind them where it is the first one.
fn add_child<'a, S: PageSpace>(
    space: &mut S,
    alloc: Global,
    pair: &Pair,
    node: &SlotPage<'a>,
    only: u32,
    cell: &'a [u8],
) -> Result<Option<Branch>, SpaceError>
    requires inner { node.now.kind ≡ Inner }
    requires fits { Fits node.now.cells }
    requires cell { IsCell Inner cell.now }
    requires small { IsSmallBranch (branch_of cell.now) }
    ensures before { pair.now.kept ≡ pair.now.right → IsSome (S.pages space.old pair.now.left)
        → pair.now.left ≢ pair.now.right → IsStocked (InnerNode node.now.link (map branch_of node.now.cells))
        → IfOk result (AreInnersJoined (S.pages space.old) (S.pages space.new) pair.now.left pair.now.right only (branch_of cell.now ∷ map branch_of node.now.cells)) }
    ensures behind { pair.now.kept ≢ pair.now.right → IsSome (S.pages space.old pair.now.left)
        → pair.now.left ≢ pair.now.right → IsStocked (InnerNode node.now.link (map branch_of node.now.cells))
        → IfOk result (AreInnersJoined (S.pages space.old) (S.pages space.new) pair.now.left pair.now.right node.now.link (map branch_of node.now.cells ++ branch_of cell.now ∷ [])) }
    ensures small { IfOk result (λ split. IfSome split IsSmallBranch) }
    ensures whole { OnOk result (S.is_whole space.old → S.is_whole space.new) }
    ensures refusal { IfErr result (ChangeRefused (S.at_limit space.new)
        ((lo : Key) → IsSome (S.pages space.old pair.now.left) → IsSome (S.pages space.old pair.now.right)
        → pair.now.left ≢ pair.now.right → S.is_whole space.old
        → IsStocked (InnerNode node.now.link (map branch_of node.now.cells))
        → (pair.now.kept ≡ pair.now.right → RisesBehind lo (branch_of cell.now ∷ map branch_of node.now.cells))
        → (pair.now.kept ≢ pair.now.right
        → RisesBehind lo (map branch_of node.now.cells ++ branch_of cell.now ∷ [])) → ⊥)
        (S.refused space.old) (S.refused space.new)) }
    ensures rising { S.refused space.old ≤ S.refused space.new }
    ensures follows { S.follows space.old space.new }
{
    space.free(pair.right)?;
    if pair.kept == pair.right {
        put_cell(space, alloc, pair.left, only, node, 0, 0, cell)
    } else {
        let end = node.len();
        put_cell(space, alloc, pair.left, node.link(), node, end, end, cell)
    }
}

/// The child of the branch that joins two pages: the leftmost one of the kept page where that is
/// the second one, else the only one of the other.
fn child_between(pair: &Pair, node: &SlotPage<'_>, only: u32) -> u32
    ensures before { pair.now.kept ≡ pair.now.right → result ≡ node.now.link }
    ensures behind { pair.now.kept ≢ pair.now.right → result ≡ only }
{
    if pair.kept == pair.right {
        node.link()
    } else {
        only
    }
}

/// Joins two neighbouring inner pages, of which the one that is not kept has but one child, at the
/// first one's page. A branch in the answer is to a second page, where one cannot hold all of their
/// children.
pub(crate) fn join_inners<S: PageSpace>(
    space: &mut S,
    alloc: Global,
    pair: &Pair,
    divider: &[u8],
    only: u32,
) -> Result<Option<Branch>, SpaceError>
    ensures before { (first : ℕ) (bs : List Branch) → pair.now.kept ≡ pair.now.right
        → HasNode (S.pages space.old) pair.now.kept (InnerNode first bs)
        → IsSome (S.pages space.old pair.now.left) → pair.now.left ≢ pair.now.right
        → IfOk result (AreInnersJoined (S.pages space.old) (S.pages space.new) pair.now.left pair.now.right only (record { key = divider.now; child = first } ∷ bs)) }
    ensures behind { (first : ℕ) (bs : List Branch) → pair.now.kept ≢ pair.now.right
        → HasNode (S.pages space.old) pair.now.kept (InnerNode first bs)
        → IsSome (S.pages space.old pair.now.left) → pair.now.left ≢ pair.now.right
        → IfOk result (AreInnersJoined (S.pages space.old) (S.pages space.new) pair.now.left pair.now.right first (bs ++ record { key = divider.now; child = only } ∷ [])) }
    ensures small { IfOk result (λ split. IfSome split IsSmallBranch) }
    ensures whole { OnOk result (S.is_whole space.old → S.is_whole space.new) }
    ensures refusal { IfErr result (ChangeRefused (S.at_limit space.new)
        ((lo : Key) (first : ℕ) (bs : List Branch) → HasNode (S.pages space.old) pair.now.kept (InnerNode first bs)
        → IsSome (S.pages space.old pair.now.left) → IsSome (S.pages space.old pair.now.right)
        → pair.now.left ≢ pair.now.right → length divider.now ≤ 600 → S.is_whole space.old
        → (pair.now.kept ≡ pair.now.right → RisesBehind lo (record { key = divider.now; child = first } ∷ bs))
        → (pair.now.kept ≢ pair.now.right → RisesBehind lo (bs ++ record { key = divider.now; child = only } ∷ [])) → ⊥)
        (S.refused space.old) (S.refused space.new)) }
    ensures rising { S.refused space.old ≤ S.refused space.new }
    ensures follows { S.follows space.old space.new }
{
    if divider.len() > MAXIMUM_KEY {
        return Err(SpaceError::Damaged);
    }
    let mut buffer = [0; PAGE_SIZE];
    let node = read_node(space, pair.kept, &mut buffer)?;
    match node.kind() {
        PageKind::Inner => {
            let child = child_between(pair, &node, only);
            let cell = inner_cell(alloc, divider, child)?;
            add_child(space, alloc, pair, &node, only, cell.as_slice())
        }
        PageKind::Leaf => Err(SpaceError::Damaged),
    }
}
