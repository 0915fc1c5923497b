//! An inner page behind a removal under one of its children.

ghost use Rattle.std.specs.Prelude.{◌≡◌, ◌≤◌, ◌<◌, map, length, IfSome, IfOk, IfErr, OnOk, None};
ghost use Rattle.page_space.specs.Space.{ChangeRefused};
ghost use Rattle.sqlrecord.specs.declared.kind.PageKind.TheVariants.{Inner};
ghost use Rattle.sqlrecord.specs.Build.{Fits};
ghost use Rattle.btree_read.specs.Nodes.{IsSmallBranch};
ghost use Rattle.btree_remove.specs.Removed.{Settles, CannotSettle, IsSmallOutcome};
ghost use Rattle.btree_remove.specs.declared.outcome.Removed.TheVariants.{Emptied, Lone};

use crate::inner::{exchange_branches, join_inners};
use crate::leaf::join_leaves;
use crate::outcome::Removed;
use crate::pair::pair_at;
use page_space::{PageSpace, SpaceError};
use sqlrecord::SlotPage;
use std::alloc::Global;

/// Lets the leaf at a place, which keeps no entry, go with a neighbour.
fn join_emptied<S: PageSpace>(
    space: &mut S,
    alloc: Global,
    page: u32,
    node: &SlotPage<'_>,
    at: usize,
) -> Result<Removed, SpaceError>
    requires inner { node.now.kind ≡ Inner }
    requires some { 0 < length node.now.cells }
    requires place { at ≤ length node.now.cells }
    requires fits { Fits node.now.cells }
    ensures settles { Settles (S.pages space.old) (S.pages space.new) page node.now at Emptied result }
    ensures small { IfOk result IsSmallOutcome }
    ensures whole { OnOk result (S.is_whole space.old → S.is_whole space.new) }
    ensures refusal { IfErr result (ChangeRefused (S.at_limit space.new) (CannotSettle (S.pages space.old) page node.now at Emptied (S.is_whole space.old)) (S.refused space.old) (S.refused space.new)) }
    ensures rising { S.refused space.old ≤ S.refused space.new }
    ensures follows { S.follows space.old space.new }
{
    let pair = pair_at(node, at);
    join_leaves(space, &pair)?;
    exchange_branches(space, alloc, page, pair.place, pair.place + 1, None)
}

/// Lets the inner page at a place, which keeps this child alone, join a neighbour.
fn join_lone<S: PageSpace>(
    space: &mut S,
    alloc: Global,
    page: u32,
    node: &SlotPage<'_>,
    at: usize,
    only: u32,
) -> Result<Removed, SpaceError>
    requires inner { node.now.kind ≡ Inner }
    requires some { 0 < length node.now.cells }
    requires place { at ≤ length node.now.cells }
    requires fits { Fits node.now.cells }
    ensures settles { Settles (S.pages space.old) (S.pages space.new) page node.now at (Lone only) result }
    ensures small { IfOk result IsSmallOutcome }
    ensures whole { OnOk result (S.is_whole space.old → S.is_whole space.new) }
    ensures refusal { IfErr result (ChangeRefused (S.at_limit space.new) (CannotSettle (S.pages space.old) page node.now at (Lone only) (S.is_whole space.old)) (S.refused space.old) (S.refused space.new)) }
    ensures rising { S.refused space.old ≤ S.refused space.new }
    ensures follows { S.follows space.old space.new }
{
    let pair = pair_at(node, at);
    let branch = join_inners(space, alloc, &pair, node.key(pair.place), only)?;
    exchange_branches(space, alloc, page, pair.place, pair.place + 1, branch)
}

/// What is left of an inner page, where this is left under its child at a place.
pub(crate) fn settle<S: PageSpace>(
    space: &mut S,
    alloc: Global,
    page: u32,
    node: &SlotPage<'_>,
    at: usize,
    below: Removed,
) -> Result<Removed, SpaceError>
    requires inner { node.now.kind ≡ Inner }
    requires some { 0 < length node.now.cells }
    requires place { at ≤ length node.now.cells }
    requires fits { Fits node.now.cells }
    requires small { IsSmallOutcome below }
    ensures settles { Settles (S.pages space.old) (S.pages space.new) page node.now at below result }
    ensures small { IfOk result IsSmallOutcome }
    ensures whole { OnOk result (S.is_whole space.old → S.is_whole space.new) }
    ensures refusal { IfErr result (ChangeRefused (S.at_limit space.new) (CannotSettle (S.pages space.old) page node.now at below (S.is_whole space.old)) (S.refused space.old) (S.refused space.new)) }
    ensures rising { S.refused space.old ≤ S.refused space.new }
    ensures follows { S.follows space.old space.new }
{
    match below {
        Removed::Absent => Ok(Removed::Absent),
        Removed::Done(None) => Ok(Removed::Done(None)),
        Removed::Done(Some(branch)) => {
            exchange_branches(space, alloc, page, at, at, Some(branch))
        }
        Removed::Emptied => join_emptied(space, alloc, page, node, at),
        Removed::Lone(only) => join_lone(space, alloc, page, node, at, only),
    }
}
