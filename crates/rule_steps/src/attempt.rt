//! A rule, tried at a node.

ghost use Rattle.std.specs.Prelude.{◌≡◌, Bool, is_some, Some, IfOk};
ghost use Rattle.algebra.specs.declared.tree.Tree.{Tree};
ghost use Rattle.rules.specs.Applied.{here};
ghost use Rattle.rule_steps.specs.Attempted.{attempt};

use crate::filters::{
    can_go_below, can_go_left, can_split, can_try_first, go_below, go_left, split, try_first,
};
use crate::joins::{
    can_divide_on, can_hash, can_join, can_lose_padding, divide_on, hash, join, lose_padding,
};
use crate::lookups::{can_range, can_seek, range, seek};
use crate::loops::{can_loop, go_by_index};
use crate::orders::{can_drop_distinct, can_go_in_order, drop_distinct, go_in_order};
use crate::regroup::{can_regroup, regroup};
use crate::subqueries::{be_member, can_be_member, can_halve, halve};
use algebra::Tree;
use moved_conditions::both;
use rules::Rule;
use std::alloc::{AllocError, Global};

/// A part of a tree, and whether a rule changed it.
#[derive(Drop)]
pub struct Attempt<T> {
    pub part: T,
    pub changed: bool,
}

/// Whether a rule may be used at a node. `calm` says whether no condition of the whole tree may
/// raise. Refuses for want of memory alone.
pub fn can_use(alloc: Global, calm: bool, rule: Rule, tree: &Tree) -> Result<bool, AllocError>
    ensures { IfOk result (λ can. can ≡ is_some (here calm rule tree.now)) }
{
    match rule {
        Rule::SplitFilter => Ok(can_split(tree)),
        Rule::FilterBelowProduct => can_go_below(calm, tree),
        Rule::FilterLeftOfLeftJoin => can_go_left(calm, tree),
        Rule::OnIntoRightSide => can_divide_on(tree),
        Rule::ProductToInner => Ok(can_join(tree)),
        Rule::RegroupInner => can_regroup(tree),
        Rule::LeftToInner => can_lose_padding(tree),
        Rule::FilterToSeek => can_seek(alloc, tree),
        Rule::FilterToRange => can_range(alloc, tree),
        Rule::InnerToHashJoin => can_hash(alloc, tree),
        Rule::InnerToIndexLoop => can_loop(alloc, tree),
        Rule::DropDistinct => Ok(can_drop_distinct(tree)),
        Rule::ExistsToHalf => can_halve(tree),
        Rule::InToMember => can_be_member(alloc, tree),
        Rule::SortToRange => Ok(can_go_in_order(tree)),
        Rule::PreFilter => Ok(can_try_first(tree)),
    }
}

/// What a rule makes of a node at which it may be used.
fn used(alloc: Global, rule: Rule, tree: Tree) -> Result<Tree, AllocError>
    ensures { (calm : Bool) (new : Tree) → here calm rule tree ≡ Some new → IfOk result (λ made. made ≡ new) }
{
    match rule {
        Rule::SplitFilter => split(alloc, tree),
        Rule::FilterBelowProduct => go_below(alloc, tree),
        Rule::FilterLeftOfLeftJoin => go_left(alloc, tree),
        Rule::OnIntoRightSide => divide_on(alloc, tree),
        Rule::ProductToInner => Ok(join(tree)),
        Rule::RegroupInner => regroup(alloc, tree),
        Rule::LeftToInner => lose_padding(alloc, tree),
        Rule::FilterToSeek => seek(alloc, tree),
        Rule::FilterToRange => range(alloc, tree),
        Rule::InnerToHashJoin => hash(alloc, tree),
        Rule::InnerToIndexLoop => go_by_index(alloc, tree),
        Rule::DropDistinct => Ok(drop_distinct(tree)),
        Rule::ExistsToHalf => halve(alloc, tree),
        Rule::InToMember => Ok(be_member(tree)),
        Rule::SortToRange => go_in_order(alloc, tree),
        Rule::PreFilter => try_first(alloc, tree),
    }
}

/// What a rule makes of a node; the node as it was where it may not be used. `calm` says whether no
/// condition of the whole tree may raise. Refuses for want of memory alone, and drops the node
/// then.
pub fn tried(alloc: Global, calm: bool, rule: Rule, tree: Tree) -> Result<Attempt<Tree>, AllocError>
    ensures { IfOk result (λ tried. tried ≡ attempt (here calm rule tree) tree) }
{
    let can = can_use(alloc, calm, rule, &tree);
    match both(can, Ok(tree)) {
        Ok((can, tree)) => used_if(alloc, rule, can, tree),
        Err(error) => Err(error),
    }
}

/// What a rule makes of a node if it can be used there; else the node as it was.
fn used_if(alloc: Global, rule: Rule, can: bool, tree: Tree) -> Result<Attempt<Tree>, AllocError>
    ensures { (calm : Bool) → can ≡ is_some (here calm rule tree)
        → IfOk result (λ tried. tried ≡ attempt (here calm rule tree) tree) }
{
    if can {
        changed(used(alloc, rule, tree))
    } else {
        Ok(Attempt {
            part: tree,
            changed: false,
        })
    }
}

fn changed(made: Result<Tree, AllocError>) -> Result<Attempt<Tree>, AllocError>
    ensures { (new : Tree) → IfOk made (λ m. m ≡ new) → IfOk result (λ tried. tried ≡ attempt (Some new) new) }
{
    Ok(Attempt {
        part: made?,
        changed: true,
    })
}
