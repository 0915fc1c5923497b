//! The names of the tables that a tree reads.

ghost use Rattle.std.specs.Prelude.{◌≡◌, map, flat_map, IfOk};
ghost use Rattle.tree_tables.specs.TablesRead.{all_names, tables_in_condition, tables_in_expression, tables_in_function, tables_in_tree};

use crate::parts::{joined, named};
use algebra::{Condition, Expression, SetFunction, Tree};
use items::{Items, Text};
use std::alloc::{AllocError, Global};
use typing::Arithmetic;

/// The names of the stored tables that a tree reads, those of its subqueries too, in the order of
/// the tree: once for each time. Refuses for want of memory alone.
#[cycle(named)]
#[tactic(auto, using(crate::proofs::Nodes::naming_nodes))]
pub fn tables_in_tree(alloc: Global, tree: &Tree) -> Result<Items<Text>, AllocError>
    ensures named { IfOk result (λ names. names ≡ tables_in_tree tree.now) }
{
    match tree {
        Tree::Scan(table) => named(alloc, &table.name),
        Tree::Filter(condition, rows) => joined(
            tables_in_condition(alloc, condition.get()),
            tables_in_tree(alloc, rows.get()),
        ),
        Tree::Product(left, right) => joined(
            tables_in_tree(alloc, left.get()),
            tables_in_tree(alloc, right.get()),
        ),
        Tree::Inner(on, left, right) => {
            let sides = joined(
                tables_in_tree(alloc, left.get()),
                tables_in_tree(alloc, right.get()),
            );
            joined(tables_in_condition(alloc, on.get()), sides)
        }
        Tree::Left {
            on,
            left,
            right,
            ..
        } => {
            let sides = joined(
                tables_in_tree(alloc, left.get()),
                tables_in_tree(alloc, right.get()),
            );
            joined(tables_in_condition(alloc, on.get()), sides)
        }
        Tree::Half(on, left, right) => {
            let sides = joined(
                tables_in_tree(alloc, left.get()),
                tables_in_tree(alloc, right.get()),
            );
            joined(tables_in_condition(alloc, on.get()), sides)
        }
        Tree::OppositeHalf(on, left, right) => {
            let sides = joined(
                tables_in_tree(alloc, left.get()),
                tables_in_tree(alloc, right.get()),
            );
            joined(tables_in_condition(alloc, on.get()), sides)
        }
        Tree::Group {
            functions,
            rows,
            ..
        } => joined(
            tables_in_functions(alloc, functions.as_slice()),
            tables_in_tree(alloc, rows.get()),
        ),
        Tree::Project(items, rows) => joined(
            tables_in_expressions(alloc, items.as_slice()),
            tables_in_tree(alloc, rows.get()),
        ),
        Tree::Distinct(rows) => tables_in_tree(alloc, rows.get()),
        Tree::Set(_, left, right) => joined(
            tables_in_tree(alloc, left.get()),
            tables_in_tree(alloc, right.get()),
        ),
        Tree::Sort(_, rows) => tables_in_tree(alloc, rows.get()),
        Tree::Seek { table, .. } => named(alloc, &table.name),
        Tree::Range { table, .. } => named(alloc, &table.name),
        Tree::IndexLoop {
            on,
            left,
            table,
            ..
        } => {
            let sides = joined(tables_in_tree(alloc, left.get()), named(alloc, &table.name));
            joined(tables_in_condition(alloc, on.get()), sides)
        }
        Tree::HashJoin {
            on,
            left,
            right,
            ..
        } => {
            let sides = joined(
                tables_in_tree(alloc, left.get()),
                tables_in_tree(alloc, right.get()),
            );
            joined(tables_in_condition(alloc, on.get()), sides)
        }
        Tree::Member {
            operand,
            members,
            rows,
            ..
        } => {
            let parts = joined(
                tables_in_tree(alloc, members.get()),
                tables_in_tree(alloc, rows.get()),
            );
            joined(tables_in_expression(alloc, operand.get()), parts)
        }
    }
}

/// Those that a condition reads.
#[cycle(named)]
#[tactic(auto, using(crate::proofs::Nodes::naming_nodes))]
pub fn tables_in_condition(alloc: Global, condition: &Condition) -> Result<Items<Text>, AllocError>
    ensures named { IfOk result (λ names. names ≡ tables_in_condition condition.now) }
{
    match condition {
        Condition::Or(operands) => tables_in_conditions(alloc, operands.as_slice()),
        Condition::And(operands) => tables_in_conditions(alloc, operands.as_slice()),
        Condition::Not(operand) => tables_in_condition(alloc, operand.get()),
        Condition::IsTruth(operand, _) => tables_in_condition(alloc, operand.get()),
        Condition::Compare(_, left, right) => joined(
            tables_in_expression(alloc, left.get()),
            tables_in_expression(alloc, right.get()),
        ),
        Condition::Between(operand, low, high) => {
            let bounds = joined(
                tables_in_expression(alloc, low.get()),
                tables_in_expression(alloc, high.get()),
            );
            joined(tables_in_expression(alloc, operand.get()), bounds)
        }
        Condition::InList(operand, _) => tables_in_expression(alloc, operand.get()),
        Condition::InQuery(operand, rows) => joined(
            tables_in_expression(alloc, operand.get()),
            tables_in_tree(alloc, rows.get()),
        ),
        Condition::Like(operand, pattern) => joined(
            tables_in_expression(alloc, operand.get()),
            tables_in_expression(alloc, pattern.get()),
        ),
        Condition::IsNull(operand) => tables_in_expression(alloc, operand.get()),
        Condition::Exists(rows) => tables_in_tree(alloc, rows.get()),
    }
}

#[cycle(named)]
#[tactic(auto, using(crate::proofs::Nodes::naming_nodes))]
fn tables_in_conditions(alloc: Global, operands: &[Condition]) -> Result<Items<Text>, AllocError>
    ensures named { IfOk result (λ names. names ≡ all_names (map tables_in_condition operands.now)) }
{
    let mut names = Items::new(alloc);
    for operand in operands {
        names.append(tables_in_condition(alloc, operand)?)?;
    }
    Ok(names)
}

/// Those that an expression reads.
#[cycle(named)]
#[tactic(auto, using(crate::proofs::Nodes::naming_nodes))]
pub fn tables_in_expression(
    alloc: Global,
    expression: &Expression,
) -> Result<Items<Text>, AllocError>
    ensures named { IfOk result (λ names. names ≡ tables_in_expression expression.now) }
{
    match expression {
        Expression::Constant(_) => Ok(Items::new(alloc)),
        Expression::Column { .. } => Ok(Items::new(alloc)),
        Expression::Calculation(first, others) => joined(
            tables_in_expression(alloc, first.get()),
            tables_in_operands(alloc, others.as_slice()),
        ),
        Expression::Concatenation(first, others) => joined(
            tables_in_expression(alloc, first.get()),
            tables_in_expressions(alloc, others.as_slice()),
        ),
        Expression::Negation(operand) => tables_in_expression(alloc, operand.get()),
        Expression::Scalar(rows) => tables_in_tree(alloc, rows.get()),
    }
}

/// Those that some expressions read, one after another. Refuses for want of memory alone.
#[cycle(named)]
#[tactic(auto, using(crate::proofs::Nodes::naming_nodes))]
pub fn tables_in_expressions(alloc: Global, items: &[Expression]) -> Result<Items<Text>, AllocError>
    ensures named { IfOk result (λ names. names ≡ all_names (map tables_in_expression items.now)) }
{
    let mut names = Items::new(alloc);
    for item in items {
        names.append(tables_in_expression(alloc, item)?)?;
    }
    Ok(names)
}

/// Of the operands of a chain.
#[cycle(named)]
#[tactic(auto, using(crate::proofs::Nodes::naming_nodes))]
fn tables_in_operands(
    alloc: Global,
    others: &[(Arithmetic, Expression)],
) -> Result<Items<Text>, AllocError>
    ensures named { IfOk result (λ names. names ≡ flat_map (λ other. tables_in_expression other.1) others.now) }
{
    let mut names = Items::new(alloc);
    for (_, operand) in others {
        names.append(tables_in_expression(alloc, operand)?)?;
    }
    Ok(names)
}

/// Those that some set functions read, one after another. Refuses for want of memory alone.
#[cycle(named)]
#[tactic(auto, using(crate::proofs::Nodes::naming_nodes))]
pub fn tables_in_functions(
    alloc: Global,
    functions: &[SetFunction],
) -> Result<Items<Text>, AllocError>
    ensures named { IfOk result (λ names. names ≡ all_names (map tables_in_function functions.now)) }
{
    let mut names = Items::new(alloc);
    for function in functions {
        names.append(tables_in_function(alloc, function)?)?;
    }
    Ok(names)
}

#[cycle(named)]
#[tactic(auto, using(crate::proofs::Nodes::naming_nodes))]
fn tables_in_function(alloc: Global, function: &SetFunction) -> Result<Items<Text>, AllocError>
    ensures named { IfOk result (λ names. names ≡ tables_in_function function.now) }
{
    match function {
        SetFunction::CountRows => Ok(Items::new(alloc)),
        SetFunction::Over { argument, .. } => tables_in_expression(alloc, argument),
    }
}
