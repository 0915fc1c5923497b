//! Which parts of trees may raise a fault. A no is certain. None of it takes memory.

ghost use Rattle.std.specs.Prelude.{◌≡◌, map};
ghost use Rattle.algebra.specs.Raising.{some_may, condition_may_raise, expression_may_raise, tree_may_raise, function_may_raise};

use algebra::{Condition, Expression, SetFunction, Tree};

/// Whether a condition may raise a fault. Where it says no, the condition has a value in whatever
/// rows, over whatever tables; it says no of each plain condition.
#[cycle(raising)]
#[tactic(auto, using(crate::proofs::Nodes::raising_nodes))]
pub fn condition_can_raise(condition: &Condition) -> bool
    ensures told { result ≡ condition_may_raise condition.now }
{
    match condition {
        Condition::Or(operands) => some_condition(operands.as_slice()),
        Condition::And(operands) => some_condition(operands.as_slice()),
        Condition::Not(operand) => condition_can_raise(operand.get()),
        Condition::IsTruth(operand, _) => condition_can_raise(operand.get()),
        Condition::Compare(_, left, right) => {
            expression_can_raise(left.get()) || expression_can_raise(right.get())
        }
        Condition::Between(operand, low, high) => {
            expression_can_raise(operand.get())
                || (expression_can_raise(low.get()) || expression_can_raise(high.get()))
        }
        Condition::InList(operand, _) => expression_can_raise(operand.get()),
        Condition::InQuery(operand, tree) => {
            expression_can_raise(operand.get()) || can_raise(tree.get())
        }
        Condition::Like(operand, pattern) => {
            expression_can_raise(operand.get()) || expression_can_raise(pattern.get())
        }
        Condition::IsNull(operand) => expression_can_raise(operand.get()),
        Condition::Exists(tree) => can_raise(tree.get()),
    }
}

#[cycle(raising)]
#[tactic(auto, using(crate::proofs::Nodes::raising_nodes))]
fn some_condition(operands: &[Condition]) -> bool
    ensures { result ≡ some_may (map condition_may_raise operands.now) }
{
    for operand in operands {
        if condition_can_raise(operand) {
            return true;
        }
    }
    false
}

/// Whether an expression may raise a fault: a column or a constant cannot.
#[tactic(auto, using(crate::proofs::Nodes::raising_nodes))]
pub fn expression_can_raise(expression: &Expression) -> bool
    ensures told { result ≡ expression_may_raise expression.now }
{
    match expression {
        Expression::Constant(_) => false,
        Expression::Column { .. } => false,
        Expression::Calculation(_, _) => true,
        Expression::Concatenation(_, _) => true,
        Expression::Negation(_) => true,
        Expression::Scalar(_) => true,
    }
}

#[tactic(auto, using(crate::proofs::Nodes::raising_nodes))]
fn some_expression(items: &[Expression]) -> bool
    ensures { result ≡ some_may (map expression_may_raise items.now) }
{
    for item in items {
        if expression_can_raise(item) {
            return true;
        }
    }
    false
}

#[tactic(auto, using(crate::proofs::Nodes::raising_nodes))]
fn some_function(functions: &[SetFunction]) -> bool
    ensures { result ≡ some_may (map function_may_raise functions.now) }
{
    functions.len() > 0
}

/// Whether a tree may raise a fault. Where it says no, the tree has none, over whatever tables.
#[cycle(raising)]
#[tactic(auto, using(crate::proofs::Nodes::raising_nodes))]
pub fn can_raise(tree: &Tree) -> bool
    ensures told { result ≡ tree_may_raise tree.now }
{
    match tree {
        Tree::Scan(_) => false,
        Tree::Filter(condition, tree) => {
            condition_can_raise(condition.get()) || can_raise(tree.get())
        }
        Tree::Product(left, right) => can_raise(left.get()) || can_raise(right.get()),
        Tree::Inner(on, left, right) => {
            condition_can_raise(on.get()) || (can_raise(left.get()) || can_raise(right.get()))
        }
        Tree::Left {
            on,
            left,
            right,
            width: _,
        } => condition_can_raise(on.get()) || (can_raise(left.get()) || can_raise(right.get())),
        Tree::Half(on, left, right) => {
            condition_can_raise(on.get()) || (can_raise(left.get()) || can_raise(right.get()))
        }
        Tree::OppositeHalf(on, left, right) => {
            condition_can_raise(on.get()) || (can_raise(left.get()) || can_raise(right.get()))
        }
        Tree::Group {
            columns: _,
            functions,
            rows,
        } => some_function(functions.as_slice()) || can_raise(rows.get()),
        Tree::Project(items, tree) => some_expression(items.as_slice()) || can_raise(tree.get()),
        Tree::Distinct(tree) => can_raise(tree.get()),
        Tree::Set(_, left, right) => can_raise(left.get()) || can_raise(right.get()),
        Tree::Sort(_, tree) => can_raise(tree.get()),
        Tree::Seek { .. } => false,
        Tree::Range { .. } => false,
        Tree::IndexLoop { on, left, .. } => {
            condition_can_raise(on.get()) || can_raise(left.get())
        }
        Tree::HashJoin {
            on,
            left,
            right,
            ..
        } => condition_can_raise(on.get()) || (can_raise(left.get()) || can_raise(right.get())),
        Tree::Member {
            operand,
            negated: _,
            members,
            rows,
        } => {
            expression_can_raise(operand.get())
                || (can_raise(members.get()) || can_raise(rows.get()))
        }
    }
}
