//! Syntax trees of the whole language, and its grammar.
//!
//! The trees are concrete: each says which of the words that may be left out were written, where
//! parentheses and signs stand, and in which order the parts of a chain follow one another. So the
//! tokens of a statement have one tree, and a tree has one list of tokens.
#![tactic(auto)]

mod operator;
mod statement;
mod tree;

pub use operator::{
    AddOperator, Alias, Column, Comparison, Direction, Literal, MultiplyOperator, Quantifier,
    SetFunction, SetOperator, Sign, TruthTest, TruthValue,
};
pub use statement::{
    AccessMode, Assignment, ColumnConstraint, ColumnDefinition, ColumnRule, CreateIndex,
    CreateTable, DeclareCursor, Delete, ForeignKey, Insert, InsertRows, OrderedQuery, References,
    SortColumn, SortKey, Statement, StoredSource, TableConstraint, TableElement, TableRule,
    TypeName, Update,
};
pub use tree::{
    Addend, Condition, Conjunction, Expression, Factor, Join, Negation, Operand, Predicate,
    Primary, Query, Select, SelectItem, TableReference, TableSource, Term, Test,
};
