//! A rule at a path of a whole tree, and a list of steps.

ghost use Rattle.std.specs.Prelude.{◌≡◌, Contains, IfOk, IfSome};
ghost use Rattle.algebra.specs.declared.tree.StoredTable.{StoredTable};
ghost use Rattle.algebra.specs.declared.tree.Tree.{Tree};
ghost use Rattle.denote.specs.Database.{CheckReading, Database, IsGood, rows_in};
ghost use Rattle.rules.specs.Applied.{applied, replayed};
ghost use Rattle.rules.specs.Same.{Has, IsSameTree};
ghost use Rattle.rules.specs.Stored.{stored_in_tree};

use crate::walk::try_at;
use algebra::Tree;
use rewrite_laws::{good_databases_fit, rules_keep_the_outcome};
use rules::{Path, Rule, Step};
use std::alloc::{AllocError, Global};
use tree_columns::conditions_quiet;

/// What a rule makes of a tree at the end of a path; `None` where the path leads nowhere, or the
/// rule may not be used there. Over every good database that has the tables as the tree knows them
/// it has the same outcome. Refuses for want of memory alone. The tree is dropped but where a new
/// one is made of it.
pub fn apply(alloc: Global, rule: Rule, path: &Path, tree: Tree) -> Result<Option<Tree>, AllocError>
    ensures made { IfOk result (λ found. found ≡ applied rule path.now.places tree) }
    ensures same { (reading : CheckReading) (db : Database) → IsGood reading db
        → ((table : StoredTable) → Contains (stored_in_tree tree) table → Has db table)
        → IfOk result (λ found. IfSome found (λ new. IsSameTree (rows_in db) new tree)) }
{
    rules_keep_the_outcome();
    good_databases_fit();
    made_at(alloc, rule, path, tree)
}

fn made_at(alloc: Global, rule: Rule, path: &Path, tree: Tree) -> Result<Option<Tree>, AllocError>
    ensures { IfOk result (λ found. found ≡ applied rule path.now.places tree) }
{
    let calm = conditions_quiet(&tree);
    let tried = try_at(alloc, calm, rule, tree, path.places.as_slice())?;
    if tried.changed {
        Ok(Some(tried.part))
    } else {
        Ok(None)
    }
}

/// One step after another, each at a path of the tree that the steps before it made; `None` where
/// one of them may not be taken. Over every good database that has the tables as the tree knows
/// them what is made has the same outcome. Refuses for want of memory alone.
pub fn replay(alloc: Global, tree: Tree, steps: &[Step]) -> Result<Option<Tree>, AllocError>
    ensures made { IfOk result (λ found. found ≡ replayed steps.now tree) }
    ensures same { (reading : CheckReading) (db : Database) → IsGood reading db
        → ((table : StoredTable) → Contains (stored_in_tree tree) table → Has db table)
        → IfOk result (λ found. IfSome found (λ new. IsSameTree (rows_in db) new tree)) }
{
    rules_keep_the_outcome();
    good_databases_fit();
    made_by(alloc, tree, steps)
}

fn made_by(alloc: Global, tree: Tree, steps: &[Step]) -> Result<Option<Tree>, AllocError>
    ensures { IfOk result (λ found. found ≡ replayed steps.now tree) }
{
    let mut tree = tree;
    for step in steps {
        match made_at(alloc, step.rule, &step.path, tree)? {
            Some(new) => tree = new,
            None => return Ok(None),
        }
    }
    Ok(Some(tree))
}
