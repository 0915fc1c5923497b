//! An entry taken out of a leaf.

ghost use Rattle.std.specs.Prelude.{◌≡◌, ◌≢◌, ◌<◌, ◌≤◌, ℕ, List, [], map, length, IsSome, IfOk, IfErr, OnOk, MatchOption, slice_index_or, None};
ghost use Rattle.page_space.specs.Space.{ReadRefused, ChangeRefused};
ghost use Rattle.sqlrecord.specs.declared.kind.PageKind.TheVariants.{Leaf};
ghost use Rattle.sqlrecord.specs.Build.{Fits};
ghost use Rattle.sqlrecord.specs.Page.{key_of};
ghost use Rattle.btree_read.specs.declared.entry.Entry.{Entry};
ghost use Rattle.btree_read.specs.Nodes.{Node, LeafNode, entry_of, IsStocked, HasNode};
ghost use Rattle.btree_read.specs.Sorted.{get_of};
ghost use Rattle.btree_remove.specs.Removed.{LeafLess, AreLeavesJoined, IsSmallOutcome};

use crate::cells::write_without;
use crate::outcome::Removed;
use crate::pair::Pair;
use btree_read::{Start, first_place, is_before, read_node};
use page_space::{PAGE_SIZE, PageSpace, SpaceError};
use sqlrecord::{PageKind, SlotPage};

/// The place of a key's entry in a leaf.
fn place_in(leaf: &SlotPage<'_>, key: &[u8]) -> Option<usize>
    ensures { MatchOption result (get_of key.now (map entry_of leaf.now.cells) ≡ None)
        (λ at. (at < length leaf.now.cells) × (key_of (slice_index_or leaf.now.cells at []) ≡ key.now)) }
{
    let at = first_place(leaf, Start::At, key);
    if at == leaf.len() {
        return None;
    }
    if is_before(key, leaf.key(at)) {
        return None;
    }
    Some(at)
}

/// Takes a key's entry out of a leaf; of its last one the leaf keeps what it had.
pub(crate) fn take_from_leaf<S: PageSpace>(
    space: &mut S,
    page: u32,
    leaf: &SlotPage<'_>,
    key: &[u8],
) -> Result<Removed, SpaceError>
    requires leaf { leaf.now.kind ≡ Leaf }
    requires fits { Fits leaf.now.cells }
    ensures taken { IsSome (S.pages space.old page) → IsStocked (LeafNode leaf.now.link (map entry_of leaf.now.cells))
        → IfOk result (LeafLess (S.pages space.old) (S.pages space.new) page leaf.now.link (map entry_of leaf.now.cells) key.now) }
    ensures small { IfOk result IsSmallOutcome }
    ensures whole { OnOk result (S.is_whole space.old → S.is_whole space.new) }
    ensures refusal { IfErr result (ChangeRefused (S.at_limit space.new) (S.pages space.old page ≡ None) (S.refused space.old) (S.refused space.new)) }
    ensures rising { S.refused space.old ≤ S.refused space.new }
    ensures follows { S.follows space.old space.new }
{
    let Some(at) = place_in(leaf, key) else {
        return Ok(Removed::Absent);
    };
    if leaf.len() == 1 {
        return Ok(Removed::Emptied);
    }
    write_without(space, page, leaf.link(), leaf, at, at + 1)?;
    Ok(Removed::Done(None))
}

/// The page that a leaf names as the next one.
fn next_leaf<S: PageSpace>(space: &mut S, page: u32) -> Result<u32, SpaceError>
    ensures next { (next : ℕ) (es : List Entry) → HasNode (S.pages space.old) page (LeafNode next es)
        → IfOk result (λ link. link ≡ next) }
    ensures same { S.pages space.new ≡ S.pages space.old }
    ensures whole { S.is_whole space.old → S.is_whole space.new }
    ensures refusal { IfErr result (ReadRefused ((node : Node) → HasNode (S.pages space.old) page node
        → ⊥) (S.refused space.old) (S.refused space.new)) }
    ensures rising { S.refused space.old ≤ S.refused space.new }
    ensures follows { S.follows space.old space.new }
{
    let mut buffer = [0; PAGE_SIZE];
    let leaf = read_node(space, page, &mut buffer)?;
    Ok(leaf.link())
}

/// Joins two neighbouring leaves, of which one alone keeps entries, at the first one's page, and
/// gives back the second one's.
pub(crate) fn join_leaves<S: PageSpace>(space: &mut S, pair: &Pair) -> Result<(), SpaceError>
    ensures joined { (a b : ℕ) (es ys : List Entry) → HasNode (S.pages space.old) pair.now.kept (LeafNode a es)
        → HasNode (S.pages space.old) pair.now.right (LeafNode b ys)
        → IsSome (S.pages space.old pair.now.left) → pair.now.left ≢ pair.now.right
        → OnOk result (AreLeavesJoined (S.pages space.old) (S.pages space.new) pair.now.left pair.now.right b es) }
    ensures whole { OnOk result (S.is_whole space.old → S.is_whole space.new) }
    ensures refusal { IfErr result (ChangeRefused (S.at_limit space.new)
        ((a b : ℕ) (es ys : List Entry) → HasNode (S.pages space.old) pair.now.kept (LeafNode a es)
        → HasNode (S.pages space.old) pair.now.right (LeafNode b ys)
        → IsSome (S.pages space.old pair.now.left) → pair.now.left ≢ pair.now.right → S.is_whole space.old
        → ⊥) (S.refused space.old) (S.refused space.new)) }
    ensures rising { S.refused space.old ≤ S.refused space.new }
    ensures follows { S.follows space.old space.new }
{
    let next = next_leaf(space, pair.right)?;
    let mut buffer = [0; PAGE_SIZE];
    let leaf = read_node(space, pair.kept, &mut buffer)?;
    write_without(space, pair.left, next, &leaf, 0, 0)?;
    space.free(pair.right)
}
