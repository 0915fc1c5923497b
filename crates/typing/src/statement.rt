//! Typed statements. Tables, indexes and cursors go by name, columns by their places in the table,
//! from 0.

use crate::typed::{Condition, Expression, OrderedQuery, Query};
use ast::DeclareCursor;
use items::{Items, Text};
use sqlval::{Column, Constraint};

/// A statement.
#[derive(Drop)]
pub enum Typed {
    Query(OrderedQuery),
    Explain(OrderedQuery),
    Change(Change),
    Commit,
    Rollback,
    SetTransaction(AccessMode),
    /// A cursor's name and its query, which is typed at each OPEN.
    Declare(DeclareCursor),
    Open(Text),
    Fetch(Text),
    Close(Text),
}

/// What a transaction may do.
#[derive(Clone, Copy, PartialEq, Eq)]
pub enum AccessMode {
    ReadOnly,
    ReadWrite,
}

/// A statement that changes tables.
#[derive(Drop)]
pub enum Change {
    CreateTable(CreateTable),
    DropTable(Text),
    CreateIndex(CreateIndex),
    DropIndex(Text),
    Insert(Insert),
    Update(Update),
    Delete(Delete),
}

/// Constraints are in the order of the text, NOT NULL among them, each with the name given or `#n`
/// for the n-th from 1. A CHECK is held as its printed text.
#[derive(Drop)]
pub struct CreateTable {
    pub name: Text,
    pub columns: Items<Column>,
    pub constraints: Items<Constraint>,
}

#[derive(Drop)]
pub struct CreateIndex {
    pub name: Text,
    pub table: Text,
    pub columns: Items<usize>,
}

/// The n-th source of a row goes to the n-th of `columns`; the other columns get null.
#[derive(Drop)]
pub struct Insert {
    pub table: Text,
    pub columns: Items<usize>,
    pub source: InsertSource,
}

#[derive(Drop)]
pub enum InsertSource {
    /// The rows of VALUES, whose sources see no column.
    Values(Items<Items<Expression>>),
    Query(Query),
}

/// Sources and filter see the old row.
#[derive(Drop)]
pub struct Update {
    pub table: Text,
    pub assignments: Items<Assignment>,
    pub filter: Option<Condition>,
}

#[derive(Drop)]
pub struct Assignment {
    pub column: usize,
    pub source: Expression,
}

#[derive(Drop)]
pub struct Delete {
    pub table: Text,
    pub filter: Option<Condition>,
}
