//! Nodes of visited parts.

ghost use Rattle.std.specs.Prelude.{◌≡◌, List, IfOk, IsOkAnd};
ghost use Rattle.algebra.specs.declared.tree.Condition.{Condition};
ghost use Rattle.algebra.specs.declared.tree.Condition.TheVariants as c;
ghost use Rattle.algebra.specs.declared.tree.Expression.{Expression};
ghost use Rattle.algebra.specs.declared.tree.Expression.TheVariants as e;
ghost use Rattle.algebra.specs.declared.tree.SetFunction.{SetFunction};
ghost use Rattle.algebra.specs.declared.tree.SetFunction.TheVariants as f;
ghost use Rattle.algebra.specs.declared.tree.Tree.{Tree};
ghost use Rattle.algebra.specs.declared.tree.Tree.TheVariants as t;
ghost use Rattle.rule_steps.specs.declared.attempt.Attempt.{Attempt};
ghost use Rattle.typing.specs.declared.typed.Arithmetic.{Arithmetic};
ghost use Rattle.rewrite.specs.Visits.{mapped, together, with_last};

use crate::together::both;
use algebra::{Condition, Expression, SetFunction, StoredTable, Tree};
use items::{Boxed, Items};
use rule_steps::Attempt;
use sqlval::{CompOp, Truth, Value};
use std::alloc::AllocError;
use typing::{Arithmetic, OrderKey, SetFunctionType, SetOperation};

/// The list with one more part at its end.
pub fn pushed<T: Drop>(
    list: Result<Attempt<Items<T>>, AllocError>,
    part: Result<Attempt<T>, AllocError>,
) -> Result<Attempt<Items<T>>, AllocError>
    ensures { IfOk result (λ made. IsOkAnd list (λ xs. (x : Attempt T) → IfOk part (λ p. p ≡ x)
        → made ≡ with_last xs x)) }
{
    let Attempt {
        part: mut list,
        changed,
    } = list?;
    let last = part?;
    list.push(last.part)?;
    Ok(Attempt {
        part: list,
        changed: changed || last.changed,
    })
}

/// An operand behind its operator.
pub fn with_operator(
    operator: Arithmetic,
    operand: Result<Attempt<Expression>, AllocError>,
) -> Result<Attempt<(Arithmetic, Expression)>, AllocError>
    ensures { (x : Attempt Expression) → IfOk operand (λ o. o ≡ x)
        → IfOk result (λ made. made ≡ mapped (λ y. (operator, y)) x) }
{
    let Attempt { part, changed } = operand?;
    Ok(Attempt {
        part: (operator, part),
        changed,
    })
}

pub fn calculation_of(
    x: Result<Attempt<Boxed<Expression>>, AllocError>,
    y: Result<Attempt<Items<(Arithmetic, Expression)>>, AllocError>,
) -> Result<Attempt<Expression>, AllocError>
    ensures { (a : Attempt (Expression)) (b : Attempt (List (Arithmetic × Expression))) → IfOk x (λ z. z ≡ a)
        → IfOk y (λ z. z ≡ b)
        → IfOk result (λ made. made ≡ together (λ (v : Expression) (w : List (Arithmetic
        × Expression)). e.Calculation v w) a b) }
{
    let Attempt { part, changed } = both(x, y)?;
    Ok(Attempt {
        part: Expression::Calculation(part.0, part.1),
        changed,
    })
}

pub fn concatenation_of(
    x: Result<Attempt<Boxed<Expression>>, AllocError>,
    y: Result<Attempt<Items<Expression>>, AllocError>,
) -> Result<Attempt<Expression>, AllocError>
    ensures { (a : Attempt (Expression)) (b : Attempt (List Expression)) → IfOk x (λ z. z ≡ a) → IfOk y (λ z. z ≡ b)
        → IfOk result (λ made. made ≡ together (λ (v : Expression) (w : List Expression). e.Concatenation v w) a b) }
{
    let Attempt { part, changed } = both(x, y)?;
    Ok(Attempt {
        part: Expression::Concatenation(part.0, part.1),
        changed,
    })
}

pub fn negation_of(
    x: Result<Attempt<Boxed<Expression>>, AllocError>,
) -> Result<Attempt<Expression>, AllocError>
    ensures { (a : Attempt (Expression)) → IfOk x (λ y. y ≡ a)
        → IfOk result (λ made. made ≡ mapped (λ p. e.Negation p) a) }
{
    let Attempt { part, changed } = x?;
    Ok(Attempt {
        part: Expression::Negation(part),
        changed,
    })
}

pub fn scalar_of(
    x: Result<Attempt<Boxed<Tree>>, AllocError>,
) -> Result<Attempt<Expression>, AllocError>
    ensures { (a : Attempt (Tree)) → IfOk x (λ y. y ≡ a) → IfOk result (λ made. made ≡ mapped (λ p. e.Scalar p) a) }
{
    let Attempt { part, changed } = x?;
    Ok(Attempt {
        part: Expression::Scalar(part),
        changed,
    })
}

pub fn or_of(
    x: Result<Attempt<Items<Condition>>, AllocError>,
) -> Result<Attempt<Condition>, AllocError>
    ensures { (a : Attempt (List Condition)) → IfOk x (λ y. y ≡ a)
        → IfOk result (λ made. made ≡ mapped (λ p. c.Or p) a) }
{
    let Attempt { part, changed } = x?;
    Ok(Attempt {
        part: Condition::Or(part),
        changed,
    })
}

pub fn and_of(
    x: Result<Attempt<Items<Condition>>, AllocError>,
) -> Result<Attempt<Condition>, AllocError>
    ensures { (a : Attempt (List Condition)) → IfOk x (λ y. y ≡ a)
        → IfOk result (λ made. made ≡ mapped (λ p. c.And p) a) }
{
    let Attempt { part, changed } = x?;
    Ok(Attempt {
        part: Condition::And(part),
        changed,
    })
}

pub fn not_of(
    x: Result<Attempt<Boxed<Condition>>, AllocError>,
) -> Result<Attempt<Condition>, AllocError>
    ensures { (a : Attempt (Condition)) → IfOk x (λ y. y ≡ a) → IfOk result (λ made. made ≡ mapped (λ p. c.Not p) a) }
{
    let Attempt { part, changed } = x?;
    Ok(Attempt {
        part: Condition::Not(part),
        changed,
    })
}

pub fn truth_of(
    x: Result<Attempt<Boxed<Condition>>, AllocError>,
    truth: Truth,
) -> Result<Attempt<Condition>, AllocError>
    ensures { (a : Attempt (Condition)) → IfOk x (λ y. y ≡ a)
        → IfOk result (λ made. made ≡ mapped (λ p. c.IsTruth p truth) a) }
{
    let Attempt { part, changed } = x?;
    Ok(Attempt {
        part: Condition::IsTruth(part, truth),
        changed,
    })
}

pub fn compare_of(
    operator: CompOp,
    x: Result<Attempt<Boxed<Expression>>, AllocError>,
    y: Result<Attempt<Boxed<Expression>>, AllocError>,
) -> Result<Attempt<Condition>, AllocError>
    ensures { (a : Attempt (Expression)) (b : Attempt (Expression)) → IfOk x (λ z. z ≡ a) → IfOk y (λ z. z ≡ b)
        → IfOk result (λ made. made ≡ together (λ (v : Expression) (w : Expression). c.Compare operator v w) a b) }
{
    let Attempt { part, changed } = both(x, y)?;
    Ok(Attempt {
        part: Condition::Compare(operator, part.0, part.1),
        changed,
    })
}

pub fn between_of(
    x: Result<Attempt<Boxed<Expression>>, AllocError>,
    y: Result<Attempt<(Boxed<Expression>, Boxed<Expression>)>, AllocError>,
) -> Result<Attempt<Condition>, AllocError>
    ensures { (a : Attempt (Expression)) (b : Attempt ((Expression × Expression))) → IfOk x (λ z. z ≡ a)
        → IfOk y (λ z. z ≡ b)
        → IfOk result (λ made. made ≡ together (λ (v : Expression) (w : (Expression
        × Expression)). c.Between v w.0 w.1) a b) }
{
    let Attempt { part, changed } = both(x, y)?;
    Ok(Attempt {
        part: Condition::Between(part.0, part.1.0, part.1.1),
        changed,
    })
}

pub fn in_list_of(
    x: Result<Attempt<Boxed<Expression>>, AllocError>,
    values: Items<Value>,
) -> Result<Attempt<Condition>, AllocError>
    ensures { (a : Attempt (Expression)) → IfOk x (λ y. y ≡ a)
        → IfOk result (λ made. made ≡ mapped (λ p. c.InList p values) a) }
{
    let Attempt { part, changed } = x?;
    Ok(Attempt {
        part: Condition::InList(part, values),
        changed,
    })
}

pub fn in_query_of(
    x: Result<Attempt<Boxed<Expression>>, AllocError>,
    y: Result<Attempt<Boxed<Tree>>, AllocError>,
) -> Result<Attempt<Condition>, AllocError>
    ensures { (a : Attempt (Expression)) (b : Attempt (Tree)) → IfOk x (λ z. z ≡ a) → IfOk y (λ z. z ≡ b)
        → IfOk result (λ made. made ≡ together (λ (v : Expression) (w : Tree). c.InQuery v w) a b) }
{
    let Attempt { part, changed } = both(x, y)?;
    Ok(Attempt {
        part: Condition::InQuery(part.0, part.1),
        changed,
    })
}

pub fn like_of(
    x: Result<Attempt<Boxed<Expression>>, AllocError>,
    y: Result<Attempt<Boxed<Expression>>, AllocError>,
) -> Result<Attempt<Condition>, AllocError>
    ensures { (a : Attempt (Expression)) (b : Attempt (Expression)) → IfOk x (λ z. z ≡ a) → IfOk y (λ z. z ≡ b)
        → IfOk result (λ made. made ≡ together (λ (v : Expression) (w : Expression). c.Like v w) a b) }
{
    let Attempt { part, changed } = both(x, y)?;
    Ok(Attempt {
        part: Condition::Like(part.0, part.1),
        changed,
    })
}

pub fn null_of(
    x: Result<Attempt<Boxed<Expression>>, AllocError>,
) -> Result<Attempt<Condition>, AllocError>
    ensures { (a : Attempt (Expression)) → IfOk x (λ y. y ≡ a)
        → IfOk result (λ made. made ≡ mapped (λ p. c.IsNull p) a) }
{
    let Attempt { part, changed } = x?;
    Ok(Attempt {
        part: Condition::IsNull(part),
        changed,
    })
}

pub fn exists_of(
    x: Result<Attempt<Boxed<Tree>>, AllocError>,
) -> Result<Attempt<Condition>, AllocError>
    ensures { (a : Attempt (Tree)) → IfOk x (λ y. y ≡ a) → IfOk result (λ made. made ≡ mapped (λ p. c.Exists p) a) }
{
    let Attempt { part, changed } = x?;
    Ok(Attempt {
        part: Condition::Exists(part),
        changed,
    })
}

pub fn over_of(
    function: SetFunctionType,
    distinct: bool,
    x: Result<Attempt<Expression>, AllocError>,
) -> Result<Attempt<SetFunction>, AllocError>
    ensures { (a : Attempt (Expression)) → IfOk x (λ y. y ≡ a)
        → IfOk result (λ made. made ≡ mapped (λ p. f.Over function distinct p) a) }
{
    let Attempt { part, changed } = x?;
    Ok(Attempt {
        part: SetFunction::Over {
            function,
            distinct,
            argument: part,
        },
        changed,
    })
}

pub fn filter_of(
    x: Result<Attempt<Boxed<Tree>>, AllocError>,
    y: Result<Attempt<Boxed<Condition>>, AllocError>,
) -> Result<Attempt<Tree>, AllocError>
    ensures { (a : Attempt (Tree)) (b : Attempt (Condition)) → IfOk x (λ z. z ≡ a) → IfOk y (λ z. z ≡ b)
        → IfOk result (λ made. made ≡ together (λ (v : Tree) (w : Condition). t.Filter w v) a b) }
{
    let Attempt { part, changed } = both(x, y)?;
    Ok(Attempt {
        part: Tree::Filter(part.1, part.0),
        changed,
    })
}

pub fn product_of(
    x: Result<Attempt<Boxed<Tree>>, AllocError>,
    y: Result<Attempt<Boxed<Tree>>, AllocError>,
) -> Result<Attempt<Tree>, AllocError>
    ensures { (a : Attempt (Tree)) (b : Attempt (Tree)) → IfOk x (λ z. z ≡ a) → IfOk y (λ z. z ≡ b)
        → IfOk result (λ made. made ≡ together (λ (v : Tree) (w : Tree). t.Product v w) a b) }
{
    let Attempt { part, changed } = both(x, y)?;
    Ok(Attempt {
        part: Tree::Product(part.0, part.1),
        changed,
    })
}

pub fn set_of(
    operation: SetOperation,
    x: Result<Attempt<Boxed<Tree>>, AllocError>,
    y: Result<Attempt<Boxed<Tree>>, AllocError>,
) -> Result<Attempt<Tree>, AllocError>
    ensures { (a : Attempt (Tree)) (b : Attempt (Tree)) → IfOk x (λ z. z ≡ a) → IfOk y (λ z. z ≡ b)
        → IfOk result (λ made. made ≡ together (λ (v : Tree) (w : Tree). t.Set operation v w) a b) }
{
    let Attempt { part, changed } = both(x, y)?;
    Ok(Attempt {
        part: Tree::Set(operation, part.0, part.1),
        changed,
    })
}

pub fn inner_of(
    x: Result<Attempt<(Boxed<Tree>, Boxed<Tree>)>, AllocError>,
    y: Result<Attempt<Boxed<Condition>>, AllocError>,
) -> Result<Attempt<Tree>, AllocError>
    ensures { (a : Attempt ((Tree × Tree))) (b : Attempt (Condition)) → IfOk x (λ z. z ≡ a) → IfOk y (λ z. z ≡ b)
        → IfOk result (λ made. made ≡ together (λ (v : (Tree × Tree)) (w : Condition). t.Inner w v.0 v.1) a b) }
{
    let Attempt { part, changed } = both(x, y)?;
    Ok(Attempt {
        part: Tree::Inner(part.1, part.0.0, part.0.1),
        changed,
    })
}

pub fn left_join_of(
    x: Result<Attempt<(Boxed<Tree>, Boxed<Tree>)>, AllocError>,
    y: Result<Attempt<Boxed<Condition>>, AllocError>,
    width: usize,
) -> Result<Attempt<Tree>, AllocError>
    ensures { (a : Attempt ((Tree × Tree))) (b : Attempt (Condition)) → IfOk x (λ z. z ≡ a) → IfOk y (λ z. z ≡ b)
        → IfOk result (λ made. made ≡ together (λ (v : (Tree × Tree)) (w : Condition). t.Left w v.0 v.1 width) a b) }
{
    let Attempt { part, changed } = both(x, y)?;
    Ok(Attempt {
        part: Tree::Left {
            on: part.1,
            left: part.0.0,
            right: part.0.1,
            width,
        },
        changed,
    })
}

pub fn half_of(
    x: Result<Attempt<(Boxed<Tree>, Boxed<Tree>)>, AllocError>,
    y: Result<Attempt<Boxed<Condition>>, AllocError>,
) -> Result<Attempt<Tree>, AllocError>
    ensures { (a : Attempt ((Tree × Tree))) (b : Attempt (Condition)) → IfOk x (λ z. z ≡ a) → IfOk y (λ z. z ≡ b)
        → IfOk result (λ made. made ≡ together (λ (v : (Tree × Tree)) (w : Condition). t.Half w v.0 v.1) a b) }
{
    let Attempt { part, changed } = both(x, y)?;
    Ok(Attempt {
        part: Tree::Half(part.1, part.0.0, part.0.1),
        changed,
    })
}

pub fn opposite_half_of(
    x: Result<Attempt<(Boxed<Tree>, Boxed<Tree>)>, AllocError>,
    y: Result<Attempt<Boxed<Condition>>, AllocError>,
) -> Result<Attempt<Tree>, AllocError>
    ensures { (a : Attempt ((Tree × Tree))) (b : Attempt (Condition)) → IfOk x (λ z. z ≡ a) → IfOk y (λ z. z ≡ b)
        → IfOk result (λ made. made ≡ together (λ (v : (Tree × Tree)) (w : Condition). t.OppositeHalf w v.0 v.1) a b) }
{
    let Attempt { part, changed } = both(x, y)?;
    Ok(Attempt {
        part: Tree::OppositeHalf(part.1, part.0.0, part.0.1),
        changed,
    })
}

pub fn group_of(
    columns: Option<Items<usize>>,
    x: Result<Attempt<Boxed<Tree>>, AllocError>,
    y: Result<Attempt<Items<SetFunction>>, AllocError>,
) -> Result<Attempt<Tree>, AllocError>
    ensures { (a : Attempt (Tree)) (b : Attempt (List SetFunction)) → IfOk x (λ z. z ≡ a) → IfOk y (λ z. z ≡ b)
        → IfOk result (λ made. made ≡ together (λ (v : Tree) (w : List SetFunction). t.Group columns w v) a b) }
{
    let Attempt { part, changed } = both(x, y)?;
    Ok(Attempt {
        part: Tree::Group {
            columns,
            functions: part.1,
            rows: part.0,
        },
        changed,
    })
}

pub fn project_of(
    x: Result<Attempt<Boxed<Tree>>, AllocError>,
    y: Result<Attempt<Items<Expression>>, AllocError>,
) -> Result<Attempt<Tree>, AllocError>
    ensures { (a : Attempt (Tree)) (b : Attempt (List Expression)) → IfOk x (λ z. z ≡ a) → IfOk y (λ z. z ≡ b)
        → IfOk result (λ made. made ≡ together (λ (v : Tree) (w : List Expression). t.Project w v) a b) }
{
    let Attempt { part, changed } = both(x, y)?;
    Ok(Attempt {
        part: Tree::Project(part.1, part.0),
        changed,
    })
}

pub fn distinct_of(x: Result<Attempt<Boxed<Tree>>, AllocError>) -> Result<Attempt<Tree>, AllocError>
    ensures { (a : Attempt (Tree)) → IfOk x (λ y. y ≡ a) → IfOk result (λ made. made ≡ mapped (λ p. t.Distinct p) a) }
{
    let Attempt { part, changed } = x?;
    Ok(Attempt {
        part: Tree::Distinct(part),
        changed,
    })
}

pub fn sort_of(
    keys: Items<OrderKey>,
    x: Result<Attempt<Boxed<Tree>>, AllocError>,
) -> Result<Attempt<Tree>, AllocError>
    ensures { (a : Attempt (Tree)) → IfOk x (λ y. y ≡ a) → IfOk result (λ made. made ≡ mapped (λ p. t.Sort keys p) a) }
{
    let Attempt { part, changed } = x?;
    Ok(Attempt {
        part: Tree::Sort(keys, part),
        changed,
    })
}

pub fn index_loop_of(
    x: Result<Attempt<Boxed<Tree>>, AllocError>,
    y: Result<Attempt<Boxed<Condition>>, AllocError>,
    places: Items<usize>,
    table: StoredTable,
    columns: Items<usize>,
) -> Result<Attempt<Tree>, AllocError>
    ensures { (a : Attempt Tree) (b : Attempt Condition) → IfOk x (λ z. z ≡ a) → IfOk y (λ z. z ≡ b)
        → IfOk result (λ made. made ≡ together (λ (v : Tree) (w : Condition). t.IndexLoop w v places table columns) a b) }
{
    let Attempt { part, changed } = both(x, y)?;
    Ok(Attempt {
        part: Tree::IndexLoop {
            on: part.1,
            left: part.0,
            places,
            table,
            columns,
        },
        changed,
    })
}

pub fn hash_join_of(
    x: Result<Attempt<(Boxed<Tree>, Boxed<Tree>)>, AllocError>,
    y: Result<Attempt<Boxed<Condition>>, AllocError>,
    left_places: Items<usize>,
    right_places: Items<usize>,
) -> Result<Attempt<Tree>, AllocError>
    ensures { (a : Attempt (Tree × Tree)) (b : Attempt Condition) → IfOk x (λ z. z ≡ a) → IfOk y (λ z. z ≡ b)
        → IfOk result (λ made. made ≡ together (λ (v : Tree × Tree) (w : Condition). t.HashJoin w v.0 v.1 left_places right_places) a b) }
{
    let Attempt { part, changed } = both(x, y)?;
    Ok(Attempt {
        part: Tree::HashJoin {
            on: part.1,
            left: part.0.0,
            right: part.0.1,
            left_places,
            right_places,
        },
        changed,
    })
}

pub fn member_of(
    negated: bool,
    x: Result<Attempt<(Boxed<Tree>, Boxed<Tree>)>, AllocError>,
    y: Result<Attempt<Boxed<Expression>>, AllocError>,
) -> Result<Attempt<Tree>, AllocError>
    ensures { (a : Attempt ((Tree × Tree))) (b : Attempt (Expression)) → IfOk x (λ z. z ≡ a) → IfOk y (λ z. z ≡ b)
        → IfOk result (λ made. made ≡ together (λ (v : (Tree
        × Tree)) (w : Expression). t.Member w negated v.1 v.0) a b) }
{
    let Attempt { part, changed } = both(x, y)?;
    Ok(Attempt {
        part: Tree::Member {
            operand: part.1,
            negated,
            members: part.0.1,
            rows: part.0.0,
        },
        changed,
    })
}
