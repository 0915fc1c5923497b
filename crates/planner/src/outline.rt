//! A tree, and the steps that lead to it.

ghost use Rattle.std.specs.Prelude.{◌≡◌, ◌++◌, ◌∷◌, [], if◌then◌else◌, Bool, true, false, List, map, None, Some, IfOk};
ghost use Rattle.algebra.specs.declared.tree.Tree.{Tree};
ghost use Rattle.rules.specs.Applied.{here};
ghost use Rattle.rules.specs.Paths.{applied_at};
ghost use Rattle.rules.specs.declared.rule.Step.{Step};
ghost use Rattle.rule_steps.specs.Attempted.{attempt};
ghost use Rattle.rule_steps.specs.declared.attempt.Attempt.{Attempt};
ghost use Rattle.planner.specs.Joins.{Done, Has, Shape, chooses};
ghost use Rattle.planner.specs.Looks.{after};
ghost use Rattle.planner.specs.Led.{IsCalm, Led, in_part, keeps_calm, moves_down, path_of, step_at, turned, walked, with_step};

use algebra::Tree;
use algebra_laws::denials_are_certain;
use items::Items;
use rewrite::{Attempt, Path, Rule, Step, try_at};
use std::alloc::{AllocError, Global};

/// A tree, and the steps that lead to it from the one that was there. The path of each stands the
/// other way round, from its end to the root.
#[derive(Drop)]
pub struct Outline {
    pub steps: Items<Step>,
    pub tree: Tree,
}

/// A tree to which no step leads yet.
pub fn begun(alloc: Global, tree: Tree) -> Outline
    ensures led { (calm : Bool) → IsCalm calm tree → Led calm tree result }
    ensures tree { result.tree ≡ tree }
{
    Outline {
        steps: Items::new(alloc),
        tree,
    }
}

/// With a step more by a rule that moves conditions down, or parts them, if it may be used at the
/// root.
pub fn sunk(
    alloc: Global,
    calm: bool,
    rule: Rule,
    outline: Result<Outline, AllocError>,
) -> Result<Outline, AllocError>
    ensures led { (old : Tree) → keeps_calm rule ≡ true → IfOk outline (λ o. Led calm old o)
        → IfOk result (λ o. Led calm old o) }
    ensures tree { (x : Tree) → IfOk outline (λ o. o.tree ≡ x) → IfOk result (λ o. o.tree ≡ after calm rule None x) }
    ensures has { (shape : Shape) → moves_down rule ≡ true → IfOk outline (λ o. Has shape o.tree)
        → IfOk result (λ o. Has shape o.tree) }
{
    denials_are_certain();
    let Outline { steps, tree } = outline?;
    let tried = tried_at(alloc, calm, rule, None, tree);
    with_step(alloc, steps, rule, None, tried)
}

/// With a step more, if the rule may be used at the root, or at a child of it.
pub fn stepped(
    alloc: Global,
    rule: Rule,
    child: Option<usize>,
    outline: Result<Outline, AllocError>,
) -> Result<Outline, AllocError>
    ensures led { (old : Tree) → IfOk outline (λ o. Led false old o) → IfOk result (λ o. Led false old o) }
    ensures tree { (x : Tree) → IfOk outline (λ o. o.tree ≡ x) → IfOk result (λ o. o.tree ≡ after false rule child x) }
    ensures done { (shape : Shape) → chooses rule ≡ true → child ≡ None
        → IfOk outline (λ o. Done shape o.tree) → IfOk result (λ o. Done shape o.tree) }
{
    let Outline { steps, tree } = outline?;
    let tried = tried_at(alloc, false, rule, child, tree);
    with_step(alloc, steps, rule, child, tried)
}

fn tried_at(
    alloc: Global,
    calm: bool,
    rule: Rule,
    child: Option<usize>,
    tree: Tree,
) -> Result<Attempt<Tree>, AllocError>
    ensures { IfOk result (λ t. t ≡ attempt (applied_at (here calm rule) (path_of child) tree) tree) }
{
    match child {
        Some(place) => try_at(alloc, calm, rule, tree, &[place]),
        None => try_at(alloc, calm, rule, tree, &[]),
    }
}

fn with_step(
    alloc: Global,
    steps: Items<Step>,
    rule: Rule,
    child: Option<usize>,
    tried: Result<Attempt<Tree>, AllocError>,
) -> Result<Outline, AllocError>
    ensures { (x : Attempt Tree) → IfOk tried (λ t. t ≡ x) → IfOk result (λ o. o ≡ with_step steps rule child x) }
{
    let Attempt { part, changed } = tried?;
    let steps = with_step_if(alloc, changed, steps, rule, child)?;
    Ok(Outline { steps, tree: part })
}

fn with_step_if(
    alloc: Global,
    changed: bool,
    steps: Items<Step>,
    rule: Rule,
    child: Option<usize>,
) -> Result<Items<Step>, AllocError>
    ensures { IfOk result (λ more. more ≡ (if changed then steps ++ step_at rule child ∷ [] else steps)) }
{
    let mut steps = steps;
    if changed {
        steps.push(step_at(alloc, rule, child)?)?;
    }
    Ok(steps)
}

fn step_at(alloc: Global, rule: Rule, child: Option<usize>) -> Result<Step, AllocError>
    ensures { IfOk result (λ step. step ≡ step_at rule child) }
{
    let places = path_of(alloc, child)?;
    Ok(Step {
        rule,
        path: Path { places },
    })
}

fn path_of(alloc: Global, child: Option<usize>) -> Result<Items<usize>, AllocError>
    ensures { IfOk result (λ path. path ≡ path_of child) }
{
    let mut places = Items::new(alloc);
    if let Some(place) = child {
        places.push(place)?;
    }
    Ok(places)
}

/// The steps as those of a whole in which their tree was the part at a place.
pub fn in_part(alloc: Global, place: usize, steps: Items<Step>) -> Result<Items<Step>, AllocError>
    ensures { IfOk result (λ made. made ≡ map (in_part place) steps) }
{
    let mut made = Items::new(alloc);
    for step in steps.into_vec() {
        made.push(step_in_part(place, step)?)?;
    }
    Ok(made)
}

fn step_in_part(place: usize, step: Step) -> Result<Step, AllocError>
    ensures { IfOk result (λ made. made ≡ in_part place step) }
{
    let Step { rule, path } = step;
    let mut places = path.places;
    places.push(place)?;
    Ok(Step {
        rule,
        path: Path { places },
    })
}

/// The steps with their paths from the root to their ends.
pub fn turned(alloc: Global, steps: Items<Step>) -> Result<Items<Step>, AllocError>
    ensures { IfOk result (λ made. made ≡ map turned steps) }
{
    let mut made = Items::new(alloc);
    for step in steps.into_vec() {
        made.push(step_turned(step))?;
    }
    Ok(made)
}

fn step_turned(step: Step) -> Step
    ensures { result ≡ turned step }
{
    let Step { rule, path } = step;
    let mut places = path.places.into_vec();
    places.reverse();
    Step {
        rule,
        path: Path {
            places: Items::from_vec(places),
        },
    }
}

/// The steps behind those that led to the tree from which they go on.
pub fn behind(
    steps: Items<Step>,
    outline: Result<Outline, AllocError>,
) -> Result<Outline, AllocError>
    ensures led { (calm : Bool) (old middle : Tree) → walked calm steps old ≡ Some middle
        → IfOk outline (λ o. Led calm middle o)
        → IfOk result (λ o. Led calm old o) }
    ensures tree { (x : Tree) → IfOk outline (λ o. o.tree ≡ x) → IfOk result (λ o. o.tree ≡ x) }
{
    let Outline { steps: more, tree } = outline?;
    let mut steps = steps;
    steps.append(more)?;
    Ok(Outline { steps, tree })
}
