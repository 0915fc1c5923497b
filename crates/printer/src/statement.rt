//! Statements.

ghost use Rattle.std.specs.Prelude.{OnOk};
ghost use Rattle.ast.specs.Expressions.{Nested};
ghost use Rattle.ast.specs.Notation.{◌⊳◌, MaybeListed, Parenthesized, Written};
ghost use Rattle.ast.specs.Statements.{AreNames, IsConstraintName, IsDirection, IsFilter, IsOrder};
ghost use Rattle.ast.specs.Terminals.{IsName, IsNumber};
ghost use Rattle.ast.specs.Words.{CHECK, WORK};
ghost use Rattle.printer.specs.Writing.{IsWrittenAs, Prints};

use crate::writer::{Part, Writer};
use ast::{
    AccessMode, Assignment, ColumnConstraint, ColumnDefinition, ColumnRule, Condition, CreateIndex,
    CreateTable, DeclareCursor, Delete, Direction, ForeignKey, Insert, InsertRows, OrderedQuery,
    References, SortColumn, SortKey, Statement, StoredSource, TableConstraint, TableElement,
    TableRule, TypeName, Update,
};
use items::Items;
use lexer::{Kind, Name, Number, Symbol, Word};
use std::alloc::AllocError;

fn direction_word(direction: Direction) -> Word
    ensures { IsWrittenAs IsDirection direction (Kind.Word result) }
{
    match direction {
        Direction::Ascending => Word::Asc,
        Direction::Descending => Word::Desc,
    }
}

impl Writer {
    /// Writes ORDER BY and its keys, or nothing where there are none.
    fn order(&mut self, keys: &[SortKey]) -> Result<(), AllocError>
        ensures { OnOk result (Prints (λ _ _. MaybeListed IsOrder) keys.now self.old self.new) }
    {
        if keys.is_empty() {
            return Ok(());
        }
        self.word(Word::Order)?;
        self.word(Word::By)?;
        self.list(keys)
    }

    /// Writes names in parentheses, or nothing where there are none.
    fn column_names(&mut self, names: &[Name]) -> Result<(), AllocError>
        ensures { OnOk result (Prints (λ _ _. MaybeListed (Parenthesized AreNames)) names.now self.old self.new) }
    {
        if names.is_empty() {
            return Ok(());
        }
        self.list_in_parentheses(names)
    }

    /// Writes WHERE and a condition, or nothing.
    fn filter_of(&mut self, condition: &Option<Condition>) -> Result<(), AllocError>
        ensures { OnOk result (Prints (λ _. IsFilter) condition.now self.old self.new) }
    {
        match condition {
            None => Ok(()),
            Some(condition) => {
                self.word(Word::Where)?;
                self.condition(condition)
            }
        }
    }

    /// Writes CONSTRAINT and a name, or nothing.
    fn constraint_name(&mut self, name: &Option<Name>) -> Result<(), AllocError>
        ensures { OnOk result (Prints (λ _ _. IsConstraintName) name.now self.old self.new) }
    {
        match name {
            None => Ok(()),
            Some(name) => {
                self.word(Word::Constraint)?;
                self.name(name)
            }
        }
    }

    /// Writes CHECK and a condition in parentheses.
    fn check(&mut self, condition: &Condition) -> Result<(), AllocError>
        ensures { OnOk result (Prints (λ _ inner. CHECK ⊳ Parenthesized (Nested.condition inner)) condition.now self.old self.new) }
    {
        self.word(Word::Check)?;
        self.symbol(Symbol::LeftParenthesis)?;
        self.condition(condition)?;
        self.symbol(Symbol::RightParenthesis)
    }

    /// Writes a word and a name.
    fn named(&mut self, word: Word, name: &Name) -> Result<(), AllocError>
        ensures { OnOk result (Prints (λ _ _. Kind.Word word ⊳ IsName) name.now self.old self.new) }
    {
        self.word(word)?;
        self.name(name)
    }

    /// Writes a word, and WORK where that is written.
    fn with_work(&mut self, word: Word, has_work: bool) -> Result<(), AllocError>
        ensures { OnOk result (Prints (λ _ _. Kind.Word word ⊳ Written WORK) has_work self.old self.new) }
    {
        self.word(word)?;
        self.word_if(has_work, Word::Work)
    }

    /// Writes a number in parentheses.
    fn length(&mut self, length: Number) -> Result<(), AllocError>
        ensures { OnOk result (Prints (λ _ _. Parenthesized IsNumber) length self.old self.new) }
    {
        self.symbol(Symbol::LeftParenthesis)?;
        self.number(length)?;
        self.symbol(Symbol::RightParenthesis)
    }
}

impl Part for Name {
    ghost use Rattle.ast.specs.Terminals.{IsName};

    ghost rule = { λ _ _. IsName };

    fn write(&self, writer: &mut Writer) -> Result<(), AllocError> {
        writer.name(self)
    }
}

impl Part for Direction {
    ghost use Rattle.ast.specs.Statements.{IsDirection};

    ghost rule = { λ _ _. IsDirection };

    fn write(&self, writer: &mut Writer) -> Result<(), AllocError> {
        writer.word(direction_word(*self))
    }
}

impl Part for SortColumn {
    ghost use Rattle.ast.specs.Statements.{IsSortColumn};

    ghost rule = { λ _ _. IsSortColumn };

    fn write(&self, writer: &mut Writer) -> Result<(), AllocError> {
        match self {
            SortColumn::Named(name) => writer.name(name),
            SortColumn::Position(position) => writer.number(*position),
        }
    }
}

impl Part for SortKey {
    ghost use Rattle.ast.specs.Statements.{IsSortKey};

    ghost rule = { λ _ _. IsSortKey };

    fn write(&self, writer: &mut Writer) -> Result<(), AllocError> {
        self.column.write(writer)?;
        writer.maybe(&self.direction)
    }
}

impl Part for OrderedQuery {
    ghost use Rattle.ast.specs.Statements.{IsOrderedQuery};

    ghost rule = { λ _. IsOrderedQuery };

    fn write(&self, writer: &mut Writer) -> Result<(), AllocError> {
        writer.query(&self.query)?;
        writer.order(self.order.as_slice())
    }
}

impl Part for TypeName {
    ghost use Rattle.ast.specs.Statements.{IsTypeName};

    ghost rule = { λ _ _. IsTypeName };

    fn write(&self, writer: &mut Writer) -> Result<(), AllocError> {
        match self {
            TypeName::Integer => writer.word(Word::Integer),
            TypeName::Int => writer.word(Word::Int),
            TypeName::Varchar(length) => {
                writer.word(Word::Varchar)?;
                writer.length(*length)
            }
            TypeName::CharacterVarying(length) => {
                writer.word(Word::Character)?;
                writer.word(Word::Varying)?;
                writer.length(*length)
            }
        }
    }
}

impl Part for References {
    ghost use Rattle.ast.specs.Statements.{AreReferences};

    ghost rule = { λ _ _. AreReferences };

    fn write(&self, writer: &mut Writer) -> Result<(), AllocError> {
        writer.named(Word::References, &self.table)?;
        writer.column_names(self.columns.as_slice())
    }
}

impl Part for ForeignKey {
    ghost use Rattle.ast.specs.Statements.{IsForeignKey};

    ghost rule = { λ _ _. IsForeignKey };

    fn write(&self, writer: &mut Writer) -> Result<(), AllocError> {
        writer.word(Word::Foreign)?;
        writer.word(Word::Key)?;
        writer.list_in_parentheses(self.columns.as_slice())?;
        self.references.write(writer)
    }
}

impl Part for ColumnRule {
    ghost use Rattle.ast.specs.Statements.{IsColumnRule};

    ghost rule = { λ _. IsColumnRule };

    fn write(&self, writer: &mut Writer) -> Result<(), AllocError> {
        match self {
            ColumnRule::NotNull => {
                writer.word(Word::Not)?;
                writer.word(Word::Null)
            }
            ColumnRule::PrimaryKey => {
                writer.word(Word::Primary)?;
                writer.word(Word::Key)
            }
            ColumnRule::Unique => writer.word(Word::Unique),
            ColumnRule::Check(condition) => writer.check(condition),
            ColumnRule::References(references) => references.write(writer),
        }
    }
}

impl Part for ColumnConstraint {
    ghost use Rattle.ast.specs.Statements.{IsColumnConstraint};

    ghost rule = { λ _. IsColumnConstraint };

    fn write(&self, writer: &mut Writer) -> Result<(), AllocError> {
        writer.constraint_name(&self.name)?;
        self.rule.write(writer)
    }
}

impl Part for ColumnDefinition {
    ghost use Rattle.ast.specs.Statements.{IsColumnDefinition};

    ghost rule = { λ _. IsColumnDefinition };

    fn write(&self, writer: &mut Writer) -> Result<(), AllocError> {
        writer.name(&self.column)?;
        self.type_name.write(writer)?;
        writer.all(self.constraints.as_slice())
    }
}

impl Part for TableRule {
    ghost use Rattle.ast.specs.Statements.{IsTableRule};

    ghost rule = { λ _. IsTableRule };

    fn write(&self, writer: &mut Writer) -> Result<(), AllocError> {
        match self {
            TableRule::PrimaryKey(columns) => {
                writer.word(Word::Primary)?;
                writer.word(Word::Key)?;
                writer.list_in_parentheses(columns.as_slice())
            }
            TableRule::Unique(columns) => {
                writer.word(Word::Unique)?;
                writer.list_in_parentheses(columns.as_slice())
            }
            TableRule::Check(condition) => writer.check(condition),
            TableRule::ForeignKey(key) => key.write(writer),
        }
    }
}

impl Part for TableConstraint {
    ghost use Rattle.ast.specs.Statements.{IsTableConstraint};

    ghost rule = { λ _. IsTableConstraint };

    fn write(&self, writer: &mut Writer) -> Result<(), AllocError> {
        writer.constraint_name(&self.name)?;
        self.rule.write(writer)
    }
}

impl Part for TableElement {
    ghost use Rattle.ast.specs.Statements.{IsTableElement};

    ghost rule = { λ _. IsTableElement };

    fn write(&self, writer: &mut Writer) -> Result<(), AllocError> {
        match self {
            TableElement::Column(column) => column.write(writer),
            TableElement::Constraint(constraint) => constraint.write(writer),
        }
    }
}

impl Part for CreateTable {
    ghost use Rattle.ast.specs.Statements.{IsCreateTable};

    ghost rule = { λ _. IsCreateTable };

    fn write(&self, writer: &mut Writer) -> Result<(), AllocError> {
        writer.word(Word::Create)?;
        writer.word(Word::Table)?;
        writer.name(&self.table)?;
        writer.list_in_parentheses(self.elements.as_slice())
    }
}

impl Part for CreateIndex {
    ghost use Rattle.ast.specs.Statements.{IsCreateIndex};

    ghost rule = { λ _. IsCreateIndex };

    fn write(&self, writer: &mut Writer) -> Result<(), AllocError> {
        writer.word(Word::Create)?;
        writer.word(Word::Index)?;
        writer.name(&self.index)?;
        writer.word(Word::On)?;
        writer.name(&self.table)?;
        writer.list_in_parentheses(self.columns.as_slice())
    }
}

impl Part for StoredSource {
    ghost use Rattle.ast.specs.Statements.{IsStoredSource};

    ghost rule = { λ _. IsStoredSource };

    fn write(&self, writer: &mut Writer) -> Result<(), AllocError> {
        match self {
            StoredSource::Value(expression) => writer.expression(expression),
            StoredSource::Null => writer.word(Word::Null),
        }
    }
}

impl Part for Items<StoredSource> {
    ghost use Rattle.ast.specs.Statements.{IsRow};

    ghost rule = { λ _. IsRow };

    fn write(&self, writer: &mut Writer) -> Result<(), AllocError> {
        writer.list_in_parentheses(self.as_slice())
    }
}

impl Part for InsertRows {
    ghost use Rattle.ast.specs.Statements.{AreInsertRows};

    ghost rule = { λ _. AreInsertRows };

    fn write(&self, writer: &mut Writer) -> Result<(), AllocError> {
        match self {
            InsertRows::Values(rows) => {
                writer.word(Word::Values)?;
                writer.list(rows.as_slice())
            }
            InsertRows::Query(query) => writer.query(query),
        }
    }
}

impl Part for Insert {
    ghost use Rattle.ast.specs.Statements.{IsInsert};

    ghost rule = { λ _. IsInsert };

    fn write(&self, writer: &mut Writer) -> Result<(), AllocError> {
        writer.word(Word::Insert)?;
        writer.word(Word::Into)?;
        writer.name(&self.table)?;
        writer.column_names(self.columns.as_slice())?;
        self.rows.write(writer)
    }
}

impl Part for Assignment {
    ghost use Rattle.ast.specs.Statements.{IsAssignment};

    ghost rule = { λ _. IsAssignment };

    fn write(&self, writer: &mut Writer) -> Result<(), AllocError> {
        writer.name(&self.column)?;
        writer.symbol(Symbol::Equal)?;
        self.source.write(writer)
    }
}

impl Part for Update {
    ghost use Rattle.ast.specs.Statements.{IsUpdate};

    ghost rule = { λ _. IsUpdate };

    fn write(&self, writer: &mut Writer) -> Result<(), AllocError> {
        writer.word(Word::Update)?;
        writer.name(&self.table)?;
        writer.word(Word::Set)?;
        writer.list(self.assignments.as_slice())?;
        writer.filter_of(&self.filter)
    }
}

impl Part for Delete {
    ghost use Rattle.ast.specs.Statements.{IsDelete};

    ghost rule = { λ _. IsDelete };

    fn write(&self, writer: &mut Writer) -> Result<(), AllocError> {
        writer.word(Word::Delete)?;
        writer.word(Word::From)?;
        writer.name(&self.table)?;
        writer.filter_of(&self.filter)
    }
}

impl Part for AccessMode {
    ghost use Rattle.ast.specs.Statements.{IsAccessMode};

    ghost rule = { λ _. IsAccessMode };

    fn write(&self, writer: &mut Writer) -> Result<(), AllocError> {
        writer.word(Word::Read)?;
        match self {
            AccessMode::ReadOnly => writer.word(Word::Only),
            AccessMode::ReadWrite => writer.word(Word::Write),
        }
    }
}

impl Part for DeclareCursor {
    ghost use Rattle.ast.specs.Statements.{IsDeclareCursor};

    ghost rule = { λ _. IsDeclareCursor };

    fn write(&self, writer: &mut Writer) -> Result<(), AllocError> {
        writer.word(Word::Declare)?;
        writer.name(&self.cursor)?;
        writer.word(Word::Cursor)?;
        writer.word(Word::For)?;
        self.query.write(writer)
    }
}

impl Part for Statement {
    ghost use Rattle.ast.specs.Statements.{IsStatement};

    ghost rule = { λ _. IsStatement };

    fn write(&self, writer: &mut Writer) -> Result<(), AllocError> {
        match self {
            Statement::Query(query) => query.write(writer),
            Statement::Explain(query) => {
                writer.word(Word::Explain)?;
                query.write(writer)
            }
            Statement::CreateTable(table) => table.write(writer),
            Statement::DropTable(table) => {
                writer.word(Word::Drop)?;
                writer.named(Word::Table, table)
            }
            Statement::CreateIndex(index) => index.write(writer),
            Statement::DropIndex(index) => {
                writer.word(Word::Drop)?;
                writer.named(Word::Index, index)
            }
            Statement::Insert(insert) => insert.write(writer),
            Statement::Update(update) => update.write(writer),
            Statement::Delete(delete) => delete.write(writer),
            Statement::Commit(has_work) => writer.with_work(Word::Commit, *has_work),
            Statement::Rollback(has_work) => writer.with_work(Word::Rollback, *has_work),
            Statement::SetTransaction(mode) => {
                writer.word(Word::Set)?;
                writer.word(Word::Transaction)?;
                mode.write(writer)
            }
            Statement::DeclareCursor(declaration) => declaration.write(writer),
            Statement::OpenCursor(cursor) => writer.named(Word::Open, cursor),
            Statement::Fetch(cursor) => writer.named(Word::Fetch, cursor),
            Statement::CloseCursor(cursor) => writer.named(Word::Close, cursor),
        }
    }
}
