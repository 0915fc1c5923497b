//! The parts of trees that hold no tree.

use items::Text;
use lexer::{Name, Number};

/// An operator between terms.
#[derive(Clone, Copy, PartialEq, Eq)]
pub enum AddOperator {
    Plus,
    Minus,
    /// `||`
    Concatenate,
}

/// An operator between factors.
#[derive(Clone, Copy, PartialEq, Eq)]
pub enum MultiplyOperator {
    Times,
    Divide,
}

/// A sign before a primary or a number.
#[derive(Clone, Copy, PartialEq, Eq)]
pub enum Sign {
    Plus,
    Minus,
}

/// How two values are compared.
#[derive(Clone, Copy, PartialEq, Eq)]
pub enum Comparison {
    Equal,
    NotEqual,
    Less,
    Greater,
    LessOrEqual,
    GreaterOrEqual,
}

/// Whether repeated rows or values count, where that is written.
#[derive(Clone, Copy, PartialEq, Eq)]
pub enum Quantifier {
    All,
    Distinct,
}

/// A function of the values in a group.
#[derive(Clone, Copy, PartialEq, Eq)]
pub enum SetFunction {
    Count,
    Sum,
    Avg,
    Min,
    Max,
}

/// An operator between the addends of a query. (INTERSECT, which binds tighter, is a level of its
/// own.)
#[derive(Clone, Copy, PartialEq, Eq)]
pub enum SetOperator {
    Union,
    UnionAll,
    Except,
    ExceptAll,
}

/// The truth value that a condition is tested for.
#[derive(Clone, Copy, PartialEq, Eq)]
pub enum TruthValue {
    True,
    False,
    Unknown,
}

/// `IS [NOT]` and a truth value.
#[derive(Clone, Copy, PartialEq, Eq)]
pub struct TruthTest {
    pub is_negated: bool,
    pub value: TruthValue,
}

/// The direction of a sort key, where it is written.
#[derive(Clone, Copy, PartialEq, Eq)]
pub enum Direction {
    Ascending,
    Descending,
}

/// A constant in a list after IN.
#[derive(Drop)]
pub enum Literal {
    Number(Option<Sign>, Number),
    Text(Text),
}

/// A column, with the table's name where that is written.
#[derive(Drop)]
pub struct Column {
    pub table: Option<Name>,
    pub name: Name,
}

/// A name given to a table or to a result column.
#[derive(Drop)]
pub struct Alias {
    /// Whether AS is written.
    pub has_as: bool,
    pub name: Name,
}
