//! Expressions, conditions and queries, which hold one another.

use crate::operator::{
    AddOperator, Alias, Column, Comparison, Literal, MultiplyOperator, Quantifier, SetFunction,
    SetOperator, Sign, TruthTest,
};
use items::{Boxed, Items, Text};
use lexer::{Name, Number};

/// A chain of terms, which groups to the left.
#[cycle(ast)]
#[derive(Drop)]
pub struct Expression {
    pub first: Term,
    pub others: Items<(AddOperator, Term)>,
}

/// A chain of factors, which groups to the left.
#[cycle(ast)]
#[derive(Drop)]
pub struct Term {
    pub first: Factor,
    pub others: Items<(MultiplyOperator, Factor)>,
}

/// A primary, with a sign where that is written.
#[cycle(ast)]
#[derive(Drop)]
pub struct Factor {
    pub sign: Option<Sign>,
    pub primary: Primary,
}

/// The smallest part of an expression.
#[cycle(ast)]
#[derive(Drop)]
pub enum Primary {
    Number(Number),
    Text(Text),
    Column(Column),
    /// `COUNT ( * )`
    CountRows,
    Aggregate(SetFunction, Option<Quantifier>, Boxed<Expression>),
    Parenthesized(Boxed<Expression>),
    Subquery(Boxed<Query>),
}

/// Conjunctions joined by OR.
#[cycle(ast)]
#[derive(Drop)]
pub struct Condition {
    pub first: Conjunction,
    pub others: Items<Conjunction>,
}

/// Negations joined by AND.
#[cycle(ast)]
#[derive(Drop)]
pub struct Conjunction {
    pub first: Negation,
    pub others: Items<Negation>,
}

/// A test, or NOT and a test.
#[cycle(ast)]
#[derive(Drop)]
pub struct Negation {
    pub is_negated: bool,
    pub test: Test,
}

/// A predicate, with the truth value that it is tested for where that is written.
#[cycle(ast)]
#[derive(Drop)]
pub struct Test {
    pub predicate: Predicate,
    pub truth: Option<TruthTest>,
}

/// A predicate, or a condition in parentheses. A `bool` says whether NOT is written.
#[cycle(ast)]
#[derive(Drop)]
pub enum Predicate {
    Nested(Boxed<Condition>),
    Compare(Expression, Comparison, Expression),
    /// The operand, NOT, the lower and the upper bound.
    Between(Expression, bool, Expression, Expression),
    InList(Expression, bool, Items<Literal>),
    InQuery(Expression, bool, Boxed<Query>),
    Like(Expression, bool, Expression),
    IsNull(Expression, bool),
    Exists(Boxed<Query>),
}

/// Addends joined by UNION or EXCEPT, grouping to the left; a SELECT alone is one addend of one
/// operand. Where there is one addend with one operand, that is no query in parentheses.
#[cycle(ast)]
#[derive(Drop)]
pub struct Query {
    pub first: Addend,
    pub others: Items<(SetOperator, Addend)>,
}

/// Operands joined by INTERSECT, grouping to the left. A `bool` says whether ALL is written.
#[cycle(ast)]
#[derive(Drop)]
pub struct Addend {
    pub first: Operand,
    pub others: Items<(bool, Operand)>,
}

/// An operand of INTERSECT.
#[cycle(ast)]
#[derive(Drop)]
pub enum Operand {
    Select(Boxed<Select>),
    /// A query in parentheses.
    Grouped(Boxed<Query>),
}

/// One SELECT, up to its HAVING.
#[cycle(ast)]
#[derive(Drop)]
pub struct Select {
    pub quantifier: Option<Quantifier>,
    /// What is selected, at least one; `None` where `*` is written.
    pub items: Option<Items<SelectItem>>,
    /// At least one.
    pub from: Items<TableReference>,
    pub filter: Option<Boxed<Condition>>,
    /// The columns after GROUP BY; empty where that is not written.
    pub groups: Items<Column>,
    pub having: Option<Boxed<Condition>>,
}

/// One result column: its value, with a name where that is written.
#[cycle(ast)]
#[derive(Drop)]
pub struct SelectItem {
    pub value: Expression,
    pub alias: Option<Alias>,
}

/// A table and those joined to it, grouping to the left.
#[cycle(ast)]
#[derive(Drop)]
pub struct TableReference {
    pub first: TableSource,
    pub joins: Items<Join>,
}

/// A table that is joined to those before it.
#[cycle(ast)]
#[derive(Drop)]
pub enum Join {
    Cross(TableSource),
    /// Whether INNER is written, the table, and the condition after ON.
    Inner(bool, TableSource, Boxed<Condition>),
    /// Whether OUTER is written, the table, and the condition after ON.
    Left(bool, TableSource, Boxed<Condition>),
}

/// One table of a FROM.
#[cycle(ast)]
#[derive(Drop)]
pub enum TableSource {
    Table(Name, Option<Alias>),
    /// A query in parentheses and its name.
    Derived(Boxed<Query>, Alias),
}
