//! The names of the tables that have to be lent to a plan.
ghost use Rattle.std.specs.Prelude.{◌≡◌, IfOk};
ghost use Rattle.streams.specs.Parts.{names_in_parts};

use algebra::Tree;
use items::{Items, Text};
use std::alloc::{AllocError, Global};
use tree_tables::{
    joined, tables_in_condition, tables_in_expression, tables_in_expressions, tables_in_functions,
};

/// The names of the tables that are named within the conditions, items, set functions and operands
/// of a plan: those have to be lent to it. Refuses for want of memory alone.
#[tactic(auto, using(crate::proofs::Runs::part_names))]
pub fn tables_in_parts(alloc: Global, tree: &Tree) -> Result<Items<Text>, AllocError>
    ensures { IfOk result (λ names. names ≡ names_in_parts tree.now) }
{
    match tree {
        Tree::Scan(_) => Ok(Items::new(alloc)),
        Tree::Filter(condition, rows) => joined(
            tables_in_condition(alloc, condition.get()),
            tables_in_parts(alloc, rows.get()),
        ),
        Tree::Product(left, right) => joined(
            tables_in_parts(alloc, left.get()),
            tables_in_parts(alloc, right.get()),
        ),
        Tree::Inner(on, left, right) => {
            let sides = joined(
                tables_in_parts(alloc, left.get()),
                tables_in_parts(alloc, right.get()),
            );
            joined(tables_in_condition(alloc, on.get()), sides)
        }
        Tree::Left {
            on,
            left,
            right,
            ..
        } => {
            let sides = joined(
                tables_in_parts(alloc, left.get()),
                tables_in_parts(alloc, right.get()),
            );
            joined(tables_in_condition(alloc, on.get()), sides)
        }
        Tree::Half(on, left, right) => {
            let sides = joined(
                tables_in_parts(alloc, left.get()),
                tables_in_parts(alloc, right.get()),
            );
            joined(tables_in_condition(alloc, on.get()), sides)
        }
        Tree::OppositeHalf(on, left, right) => {
            let sides = joined(
                tables_in_parts(alloc, left.get()),
                tables_in_parts(alloc, right.get()),
            );
            joined(tables_in_condition(alloc, on.get()), sides)
        }
        Tree::Group {
            functions,
            rows,
            ..
        } => joined(
            tables_in_functions(alloc, functions.as_slice()),
            tables_in_parts(alloc, rows.get()),
        ),
        Tree::Project(items, rows) => joined(
            tables_in_expressions(alloc, items.as_slice()),
            tables_in_parts(alloc, rows.get()),
        ),
        Tree::Distinct(rows) => tables_in_parts(alloc, rows.get()),
        Tree::Set(_, left, right) => joined(
            tables_in_parts(alloc, left.get()),
            tables_in_parts(alloc, right.get()),
        ),
        Tree::Sort(_, rows) => tables_in_parts(alloc, rows.get()),
        Tree::Seek { .. } => Ok(Items::new(alloc)),
        Tree::Range { .. } => Ok(Items::new(alloc)),
        Tree::IndexLoop { on, left, .. } => joined(
            tables_in_condition(alloc, on.get()),
            tables_in_parts(alloc, left.get()),
        ),
        Tree::HashJoin {
            on,
            left,
            right,
            ..
        } => {
            let sides = joined(
                tables_in_parts(alloc, left.get()),
                tables_in_parts(alloc, right.get()),
            );
            joined(tables_in_condition(alloc, on.get()), sides)
        }
        Tree::Member {
            operand,
            members,
            rows,
            ..
        } => {
            let sides = joined(
                tables_in_parts(alloc, members.get()),
                tables_in_parts(alloc, rows.get()),
            );
            joined(tables_in_expression(alloc, operand.get()), sides)
        }
    }
}
