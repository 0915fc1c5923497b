//! Which rows outside itself a tree looks at.

ghost use Rattle.std.specs.Prelude.{◌≡◌, map, flat_map, IfOk};
ghost use Rattle.closed_trees.specs.Outside.{all_depths, depths_in_condition, depths_in_expression, depths_in_function, depths_in_tree, outwards};

use crate::parts::{inside, joined, one_depth};
use algebra::{Condition, Expression, SetFunction, Tree};
use items::Items;
use std::alloc::{AllocError, Global};
use typing::Arithmetic;

/// How far outwards the rows stand that a tree looks at outside itself, 0 for the innermost: in the
/// order of the tree, once for each column. Refuses for want of memory alone.
#[cycle(depths)]
#[tactic(auto, using(crate::proofs::Nodes::depth_nodes))]
pub fn depths_in_tree(alloc: Global, tree: &Tree) -> Result<Items<usize>, AllocError>
    ensures depths { IfOk result (λ depths. depths ≡ depths_in_tree tree.now) }
{
    match tree {
        Tree::Scan(_) => Ok(Items::new(alloc)),
        Tree::Filter(condition, rows) => joined(
            inside(alloc, depths_in_condition(alloc, condition.get())),
            depths_in_tree(alloc, rows.get()),
        ),
        Tree::Product(left, right) => joined(
            depths_in_tree(alloc, left.get()),
            depths_in_tree(alloc, right.get()),
        ),
        Tree::Inner(on, left, right) => {
            let sides = joined(
                depths_in_tree(alloc, left.get()),
                depths_in_tree(alloc, right.get()),
            );
            joined(inside(alloc, depths_in_condition(alloc, on.get())), sides)
        }
        Tree::Left {
            on,
            left,
            right,
            ..
        } => {
            let sides = joined(
                depths_in_tree(alloc, left.get()),
                depths_in_tree(alloc, right.get()),
            );
            joined(inside(alloc, depths_in_condition(alloc, on.get())), sides)
        }
        Tree::Half(on, left, right) => {
            let sides = joined(
                depths_in_tree(alloc, left.get()),
                depths_in_tree(alloc, right.get()),
            );
            joined(inside(alloc, depths_in_condition(alloc, on.get())), sides)
        }
        Tree::OppositeHalf(on, left, right) => {
            let sides = joined(
                depths_in_tree(alloc, left.get()),
                depths_in_tree(alloc, right.get()),
            );
            joined(inside(alloc, depths_in_condition(alloc, on.get())), sides)
        }
        Tree::Group {
            functions,
            rows,
            ..
        } => joined(
            inside(alloc, depths_in_functions(alloc, functions.as_slice())),
            depths_in_tree(alloc, rows.get()),
        ),
        Tree::Project(items, rows) => joined(
            inside(alloc, depths_in_expressions(alloc, items.as_slice())),
            depths_in_tree(alloc, rows.get()),
        ),
        Tree::Distinct(rows) => depths_in_tree(alloc, rows.get()),
        Tree::Set(_, left, right) => joined(
            depths_in_tree(alloc, left.get()),
            depths_in_tree(alloc, right.get()),
        ),
        Tree::Sort(_, rows) => depths_in_tree(alloc, rows.get()),
        Tree::Seek { .. } => Ok(Items::new(alloc)),
        Tree::Range { .. } => Ok(Items::new(alloc)),
        Tree::IndexLoop { on, left, .. } => joined(
            inside(alloc, depths_in_condition(alloc, on.get())),
            depths_in_tree(alloc, left.get()),
        ),
        Tree::HashJoin {
            on,
            left,
            right,
            ..
        } => {
            let sides = joined(
                depths_in_tree(alloc, left.get()),
                depths_in_tree(alloc, right.get()),
            );
            joined(inside(alloc, depths_in_condition(alloc, on.get())), sides)
        }
        Tree::Member {
            operand,
            members,
            rows,
            ..
        } => {
            let parts = joined(
                depths_in_tree(alloc, members.get()),
                depths_in_tree(alloc, rows.get()),
            );
            joined(
                inside(alloc, depths_in_expression(alloc, operand.get())),
                parts,
            )
        }
    }
}

/// Of a condition, which sees its row as the innermost.
#[cycle(depths)]
#[tactic(auto, using(crate::proofs::Nodes::depth_nodes))]
pub fn depths_in_condition(alloc: Global, condition: &Condition) -> Result<Items<usize>, AllocError>
    ensures depths { IfOk result (λ depths. depths ≡ depths_in_condition condition.now) }
{
    match condition {
        Condition::Or(operands) => depths_in_conditions(alloc, operands.as_slice()),
        Condition::And(operands) => depths_in_conditions(alloc, operands.as_slice()),
        Condition::Not(operand) => depths_in_condition(alloc, operand.get()),
        Condition::IsTruth(operand, _) => depths_in_condition(alloc, operand.get()),
        Condition::Compare(_, left, right) => joined(
            depths_in_expression(alloc, left.get()),
            depths_in_expression(alloc, right.get()),
        ),
        Condition::Between(operand, low, high) => {
            let bounds = joined(
                depths_in_expression(alloc, low.get()),
                depths_in_expression(alloc, high.get()),
            );
            joined(depths_in_expression(alloc, operand.get()), bounds)
        }
        Condition::InList(operand, _) => depths_in_expression(alloc, operand.get()),
        Condition::InQuery(operand, rows) => joined(
            depths_in_expression(alloc, operand.get()),
            depths_in_tree(alloc, rows.get()),
        ),
        Condition::Like(operand, pattern) => joined(
            depths_in_expression(alloc, operand.get()),
            depths_in_expression(alloc, pattern.get()),
        ),
        Condition::IsNull(operand) => depths_in_expression(alloc, operand.get()),
        Condition::Exists(rows) => depths_in_tree(alloc, rows.get()),
    }
}

#[cycle(depths)]
#[tactic(auto, using(crate::proofs::Nodes::depth_nodes))]
fn depths_in_conditions(alloc: Global, operands: &[Condition]) -> Result<Items<usize>, AllocError>
    ensures depths { IfOk result (λ depths. depths ≡ all_depths (map depths_in_condition operands.now)) }
{
    let mut depths = Items::new(alloc);
    for operand in operands {
        depths.append(depths_in_condition(alloc, operand)?)?;
    }
    Ok(depths)
}

/// Of an expression, likewise.
#[cycle(depths)]
#[tactic(auto, using(crate::proofs::Nodes::depth_nodes))]
pub fn depths_in_expression(
    alloc: Global,
    expression: &Expression,
) -> Result<Items<usize>, AllocError>
    ensures depths { IfOk result (λ depths. depths ≡ depths_in_expression expression.now) }
{
    match expression {
        Expression::Constant(_) => Ok(Items::new(alloc)),
        Expression::Column { depth, .. } => one_depth(alloc, *depth),
        Expression::Calculation(first, others) => joined(
            depths_in_expression(alloc, first.get()),
            depths_in_operands(alloc, others.as_slice()),
        ),
        Expression::Concatenation(first, others) => joined(
            depths_in_expression(alloc, first.get()),
            depths_in_expressions(alloc, others.as_slice()),
        ),
        Expression::Negation(operand) => depths_in_expression(alloc, operand.get()),
        Expression::Scalar(rows) => depths_in_tree(alloc, rows.get()),
    }
}

#[cycle(depths)]
#[tactic(auto, using(crate::proofs::Nodes::depth_nodes))]
fn depths_in_expressions(alloc: Global, items: &[Expression]) -> Result<Items<usize>, AllocError>
    ensures depths { IfOk result (λ depths. depths ≡ all_depths (map depths_in_expression items.now)) }
{
    let mut depths = Items::new(alloc);
    for item in items {
        depths.append(depths_in_expression(alloc, item)?)?;
    }
    Ok(depths)
}

/// Of the operands of a chain.
#[cycle(depths)]
#[tactic(auto, using(crate::proofs::Nodes::depth_nodes))]
fn depths_in_operands(
    alloc: Global,
    others: &[(Arithmetic, Expression)],
) -> Result<Items<usize>, AllocError>
    ensures depths { IfOk result (λ depths. depths ≡ flat_map (λ other. depths_in_expression other.1) others.now) }
{
    let mut depths = Items::new(alloc);
    for (_, operand) in others {
        depths.append(depths_in_expression(alloc, operand)?)?;
    }
    Ok(depths)
}

#[cycle(depths)]
#[tactic(auto, using(crate::proofs::Nodes::depth_nodes))]
fn depths_in_functions(alloc: Global, functions: &[SetFunction]) -> Result<Items<usize>, AllocError>
    ensures depths { IfOk result (λ depths. depths ≡ all_depths (map depths_in_function functions.now)) }
{
    let mut depths = Items::new(alloc);
    for function in functions {
        depths.append(depths_in_function(alloc, function)?)?;
    }
    Ok(depths)
}

#[cycle(depths)]
#[tactic(auto, using(crate::proofs::Nodes::depth_nodes))]
fn depths_in_function(alloc: Global, function: &SetFunction) -> Result<Items<usize>, AllocError>
    ensures depths { IfOk result (λ depths. depths ≡ depths_in_function function.now) }
{
    match function {
        SetFunction::CountRows => Ok(Items::new(alloc)),
        SetFunction::Over { argument, .. } => depths_in_expression(alloc, argument),
    }
}
