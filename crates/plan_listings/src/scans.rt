//! The tables that a plan scans.
ghost use Rattle.std.specs.Prelude.{◌≡◌, ◌++◌, Some, IfOk};
ghost use Rattle.algebra.specs.declared.tree.Tree.{Tree};
ghost use Rattle.algebra.specs.declared.tree.Tree.TheVariants as t;
ghost use Rattle.plan_listings.specs.Scans.{IsMadeOf, IsOver, Scans};

use algebra::{StoredTable, Tree};
use items::{Items, Text};
use std::alloc::{AllocError, Global};

/// The name of a table that is scanned.
fn scanned(alloc: Global, table: &StoredTable) -> Result<Option<Items<Text>>, AllocError>
    ensures { IfOk result (Scans (t.Scan table.now)) }
{
    let mut names = Items::new(alloc);
    names.push(table.name.copy(alloc)?)?;
    Ok(Some(names))
}

/// Of a node over one tree, what that scans.
fn over(names: Result<Option<Items<Text>>, AllocError>) -> Result<Option<Items<Text>>, AllocError>
    ensures { (tree below : Tree) → IsOver tree below → IfOk names (Scans below) → IfOk result (Scans tree) }
{
    names
}

/// Some names and others behind them.
fn all_of(names: Items<Text>, others: Items<Text>) -> Result<Option<Items<Text>>, AllocError>
    ensures { IfOk result (λ found. found ≡ Some (names ++ others)) }
{
    let mut names = names;
    names.append(others)?;
    Ok(Some(names))
}

/// What both of two trees scan.
fn joined(
    left: Result<Option<Items<Text>>, AllocError>,
    right: Result<Option<Items<Text>>, AllocError>,
) -> Result<Option<Items<Text>>, AllocError>
    ensures { (tree l r : Tree) → IsMadeOf tree l r → IfOk left (Scans l) → IfOk right (Scans r) → IfOk result (Scans tree) }
{
    match left {
        Err(error) => Err(error),
        Ok(None) => Ok(None),
        Ok(Some(names)) => match right {
            Err(error) => Err(error),
            Ok(None) => Ok(None),
            Ok(Some(others)) => all_of(names, others),
        },
    }
}

/// The names of the tables that a plan scans, each as often as it is scanned; `None` where a node
/// reads by an index. Refuses for want of memory alone.
#[tactic(auto, using(crate::proofs::ScanNodes::scan_nodes))]
pub fn tables_scanned(alloc: Global, tree: &Tree) -> Result<Option<Items<Text>>, AllocError>
    ensures { IfOk result (Scans tree.now) }
{
    match tree {
        Tree::Scan(table) => scanned(alloc, table),
        Tree::Seek { .. } => Ok(None),
        Tree::Range { .. } => Ok(None),
        Tree::IndexLoop { .. } => Ok(None),
        Tree::Filter(_, rows) => over(tables_scanned(alloc, rows.get())),
        Tree::Project(_, rows) => over(tables_scanned(alloc, rows.get())),
        Tree::Distinct(rows) => over(tables_scanned(alloc, rows.get())),
        Tree::Sort(_, rows) => over(tables_scanned(alloc, rows.get())),
        Tree::Group { rows, .. } => over(tables_scanned(alloc, rows.get())),
        Tree::Set(_, left, right) => {
            let names = tables_scanned(alloc, left.get());
            joined(names, tables_scanned(alloc, right.get()))
        }
        Tree::Product(left, right) => {
            let names = tables_scanned(alloc, left.get());
            joined(names, tables_scanned(alloc, right.get()))
        }
        Tree::Inner(_, left, right) => {
            let names = tables_scanned(alloc, left.get());
            joined(names, tables_scanned(alloc, right.get()))
        }
        Tree::Left { left, right, .. } => {
            let names = tables_scanned(alloc, left.get());
            joined(names, tables_scanned(alloc, right.get()))
        }
        Tree::Half(_, left, right) => {
            let names = tables_scanned(alloc, left.get());
            joined(names, tables_scanned(alloc, right.get()))
        }
        Tree::OppositeHalf(_, left, right) => {
            let names = tables_scanned(alloc, left.get());
            joined(names, tables_scanned(alloc, right.get()))
        }
        Tree::HashJoin { left, right, .. } => {
            let names = tables_scanned(alloc, left.get());
            joined(names, tables_scanned(alloc, right.get()))
        }
        Tree::Member { members, rows, .. } => {
            let names = tables_scanned(alloc, members.get());
            joined(names, tables_scanned(alloc, rows.get()))
        }
    }
}
