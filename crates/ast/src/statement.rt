//! Statements.

use crate::operator::Direction;
use crate::tree::{Condition, Expression, Query};
use items::{Boxed, Items};
use lexer::{Name, Number};

/// A statement, without the `;` that may follow it.
#[derive(Drop)]
pub enum Statement {
    Query(Boxed<OrderedQuery>),
    Explain(Boxed<OrderedQuery>),
    CreateTable(Boxed<CreateTable>),
    DropTable(Name),
    CreateIndex(Boxed<CreateIndex>),
    DropIndex(Name),
    Insert(Boxed<Insert>),
    Update(Boxed<Update>),
    Delete(Boxed<Delete>),
    /// Whether WORK is written.
    Commit(bool),
    /// Whether WORK is written.
    Rollback(bool),
    SetTransaction(AccessMode),
    DeclareCursor(Boxed<DeclareCursor>),
    OpenCursor(Name),
    Fetch(Name),
    CloseCursor(Name),
}

/// A query and the order of its rows.
#[derive(Drop)]
pub struct OrderedQuery {
    pub query: Query,
    /// The keys after ORDER BY, the first one first; empty where that is not written.
    pub order: Items<SortKey>,
}

/// A key of ORDER BY, with its direction where that is written.
#[derive(Drop)]
pub struct SortKey {
    pub column: SortColumn,
    pub direction: Option<Direction>,
}

/// A result column, by its name or by its place, counted from 1.
#[derive(Drop)]
pub enum SortColumn {
    Named(Name),
    Position(Number),
}

/// CREATE TABLE: the table's name and what stands in its parentheses.
#[derive(Drop)]
pub struct CreateTable {
    pub table: Name,
    /// The columns and the rules of the table, at least one.
    pub elements: Items<TableElement>,
}

/// A part of a table's definition: a column, or a rule of the table.
#[derive(Drop)]
pub enum TableElement {
    Column(ColumnDefinition),
    Constraint(TableConstraint),
}

/// A column of CREATE TABLE: its name, its type and its rules.
#[derive(Drop)]
pub struct ColumnDefinition {
    pub column: Name,
    pub type_name: TypeName,
    pub constraints: Items<ColumnConstraint>,
}

/// A column's type, with the greatest length of a text.
#[derive(Clone, Copy, PartialEq, Eq)]
pub enum TypeName {
    Integer,
    /// `INT`
    Int,
    Varchar(Number),
    CharacterVarying(Number),
}

/// A rule that stands behind a column, with a name where that is written.
#[derive(Drop)]
pub struct ColumnConstraint {
    /// The name after CONSTRAINT, where that is written.
    pub name: Option<Name>,
    pub rule: ColumnRule,
}

/// What a column's constraint asks of it.
#[derive(Drop)]
pub enum ColumnRule {
    NotNull,
    PrimaryKey,
    Unique,
    Check(Condition),
    References(References),
}

/// REFERENCES: the table, and the columns that are listed behind it.
#[derive(Drop)]
pub struct References {
    pub table: Name,
    /// The columns listed; empty where none are written.
    pub columns: Items<Name>,
}

/// A rule of the table, with a name where that is written.
#[derive(Drop)]
pub struct TableConstraint {
    /// The name after CONSTRAINT, where that is written.
    pub name: Option<Name>,
    pub rule: TableRule,
}

/// A rule of a table. The names are columns, at least one.
#[derive(Drop)]
pub enum TableRule {
    PrimaryKey(Items<Name>),
    Unique(Items<Name>),
    Check(Condition),
    ForeignKey(ForeignKey),
}

/// FOREIGN KEY: columns of the table itself, at least one, and what they reference.
#[derive(Drop)]
pub struct ForeignKey {
    pub columns: Items<Name>,
    pub references: References,
}

/// CREATE INDEX: the index's name, its table and its columns.
#[derive(Drop)]
pub struct CreateIndex {
    pub index: Name,
    pub table: Name,
    /// At least one.
    pub columns: Items<Name>,
}

/// INSERT: the table, the columns that are named, and the rows.
#[derive(Drop)]
pub struct Insert {
    pub table: Name,
    /// The columns named; empty where none are written.
    pub columns: Items<Name>,
    pub rows: InsertRows,
}

/// Where an INSERT has its rows from.
#[derive(Drop)]
pub enum InsertRows {
    /// The rows after VALUES, at least one, each of at least one value.
    Values(Items<Items<StoredSource>>),
    Query(Query),
}

/// What is stored into a column.
#[derive(Drop)]
pub enum StoredSource {
    Value(Expression),
    Null,
}

/// UPDATE: the table, what its columns are set to, and the condition after WHERE.
#[derive(Drop)]
pub struct Update {
    pub table: Name,
    /// At least one.
    pub assignments: Items<Assignment>,
    pub filter: Option<Condition>,
}

/// A column of an UPDATE, and what is stored into it.
#[derive(Drop)]
pub struct Assignment {
    pub column: Name,
    pub source: StoredSource,
}

/// DELETE: the table, and the condition after WHERE.
#[derive(Drop)]
pub struct Delete {
    pub table: Name,
    pub filter: Option<Condition>,
}

/// What a transaction may do: read, or also write.
#[derive(Clone, Copy, PartialEq, Eq)]
pub enum AccessMode {
    ReadOnly,
    ReadWrite,
}

/// DECLARE: the cursor's name and its query.
#[derive(Drop)]
pub struct DeclareCursor {
    pub cursor: Name,
    pub query: OrderedQuery,
}
