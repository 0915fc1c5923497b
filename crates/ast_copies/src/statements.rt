//! Statements and their parts.

ghost use Rattle.std.specs.Prelude.{◌≡◌, IfOk};

use crate::conditions::copy_condition;
use crate::expressions::copy_expression;
use crate::parts::{Part, both, three};
use crate::queries::copy_query;
use ast::{
    Assignment, ColumnConstraint, ColumnDefinition, ColumnRule, Condition, CreateIndex,
    CreateTable, DeclareCursor, Delete, Expression, ForeignKey, Insert, InsertRows, OrderedQuery,
    Query, References, SortColumn, SortKey, Statement, StoredSource, TableConstraint, TableElement,
    TableRule, Update,
};
use std::alloc::{AllocError, Global};

impl Part for Expression {
    fn copy(&self, alloc: Global) -> Result<Expression, AllocError> {
        copy_expression(self, alloc)
    }
}

impl Part for Condition {
    fn copy(&self, alloc: Global) -> Result<Condition, AllocError> {
        copy_condition(self, alloc)
    }
}

impl Part for Query {
    fn copy(&self, alloc: Global) -> Result<Query, AllocError> {
        copy_query(self, alloc)
    }
}

/// A copy of a statement. Refuses for want of memory alone.
pub fn copy_statement(statement: &Statement, alloc: Global) -> Result<Statement, AllocError>
    ensures copied { IfOk result (λ copied. copied ≡ statement.now) }
{
    match statement {
        Statement::Query(query) => Ok(Statement::Query(query.copy(alloc)?)),
        Statement::Explain(query) => Ok(Statement::Explain(query.copy(alloc)?)),
        Statement::CreateTable(table) => Ok(Statement::CreateTable(table.copy(alloc)?)),
        Statement::DropTable(table) => Ok(Statement::DropTable(table.copy(alloc)?)),
        Statement::CreateIndex(index) => Ok(Statement::CreateIndex(index.copy(alloc)?)),
        Statement::DropIndex(index) => Ok(Statement::DropIndex(index.copy(alloc)?)),
        Statement::Insert(insert) => Ok(Statement::Insert(insert.copy(alloc)?)),
        Statement::Update(update) => Ok(Statement::Update(update.copy(alloc)?)),
        Statement::Delete(delete) => Ok(Statement::Delete(delete.copy(alloc)?)),
        Statement::Commit(has_work) => Ok(Statement::Commit(*has_work)),
        Statement::Rollback(has_work) => Ok(Statement::Rollback(*has_work)),
        Statement::SetTransaction(mode) => Ok(Statement::SetTransaction(*mode)),
        Statement::DeclareCursor(cursor) => Ok(Statement::DeclareCursor(cursor.copy(alloc)?)),
        Statement::OpenCursor(cursor) => Ok(Statement::OpenCursor(cursor.copy(alloc)?)),
        Statement::Fetch(cursor) => Ok(Statement::Fetch(cursor.copy(alloc)?)),
        Statement::CloseCursor(cursor) => Ok(Statement::CloseCursor(cursor.copy(alloc)?)),
    }
}

impl Part for OrderedQuery {
    fn copy(&self, alloc: Global) -> Result<OrderedQuery, AllocError> {
        let (query, order) = both(self.query.copy(alloc), self.order.copy(alloc))?;
        Ok(OrderedQuery { query, order })
    }
}

impl Part for SortKey {
    fn copy(&self, alloc: Global) -> Result<SortKey, AllocError> {
        let column = self.column.copy(alloc)?;
        Ok(SortKey {
            column,
            direction: self.direction,
        })
    }
}

impl Part for SortColumn {
    fn copy(&self, alloc: Global) -> Result<SortColumn, AllocError> {
        match self {
            SortColumn::Named(name) => Ok(SortColumn::Named(name.copy(alloc)?)),
            SortColumn::Position(position) => Ok(SortColumn::Position(*position)),
        }
    }
}

impl Part for CreateTable {
    fn copy(&self, alloc: Global) -> Result<CreateTable, AllocError> {
        let (table, elements) = both(self.table.copy(alloc), self.elements.copy(alloc))?;
        Ok(CreateTable { table, elements })
    }
}

impl Part for TableElement {
    fn copy(&self, alloc: Global) -> Result<TableElement, AllocError> {
        match self {
            TableElement::Column(column) => Ok(TableElement::Column(column.copy(alloc)?)),
            TableElement::Constraint(constraint) => {
                Ok(TableElement::Constraint(constraint.copy(alloc)?))
            }
        }
    }
}

impl Part for ColumnDefinition {
    fn copy(&self, alloc: Global) -> Result<ColumnDefinition, AllocError> {
        let (column, constraints) = both(self.column.copy(alloc), self.constraints.copy(alloc))?;
        Ok(ColumnDefinition {
            column,
            type_name: self.type_name,
            constraints,
        })
    }
}

impl Part for ColumnConstraint {
    fn copy(&self, alloc: Global) -> Result<ColumnConstraint, AllocError> {
        let (name, rule) = both(self.name.copy(alloc), self.rule.copy(alloc))?;
        Ok(ColumnConstraint { name, rule })
    }
}

impl Part for ColumnRule {
    fn copy(&self, alloc: Global) -> Result<ColumnRule, AllocError> {
        match self {
            ColumnRule::NotNull => Ok(ColumnRule::NotNull),
            ColumnRule::PrimaryKey => Ok(ColumnRule::PrimaryKey),
            ColumnRule::Unique => Ok(ColumnRule::Unique),
            ColumnRule::Check(condition) => Ok(ColumnRule::Check(condition.copy(alloc)?)),
            ColumnRule::References(references) => {
                Ok(ColumnRule::References(references.copy(alloc)?))
            }
        }
    }
}

impl Part for References {
    fn copy(&self, alloc: Global) -> Result<References, AllocError> {
        let (table, columns) = both(self.table.copy(alloc), self.columns.copy(alloc))?;
        Ok(References { table, columns })
    }
}

impl Part for TableConstraint {
    fn copy(&self, alloc: Global) -> Result<TableConstraint, AllocError> {
        let (name, rule) = both(self.name.copy(alloc), self.rule.copy(alloc))?;
        Ok(TableConstraint { name, rule })
    }
}

impl Part for TableRule {
    fn copy(&self, alloc: Global) -> Result<TableRule, AllocError> {
        match self {
            TableRule::PrimaryKey(columns) => Ok(TableRule::PrimaryKey(columns.copy(alloc)?)),
            TableRule::Unique(columns) => Ok(TableRule::Unique(columns.copy(alloc)?)),
            TableRule::Check(condition) => Ok(TableRule::Check(condition.copy(alloc)?)),
            TableRule::ForeignKey(key) => Ok(TableRule::ForeignKey(key.copy(alloc)?)),
        }
    }
}

impl Part for ForeignKey {
    fn copy(&self, alloc: Global) -> Result<ForeignKey, AllocError> {
        let (columns, references) = both(self.columns.copy(alloc), self.references.copy(alloc))?;
        Ok(ForeignKey {
            columns,
            references,
        })
    }
}

impl Part for CreateIndex {
    fn copy(&self, alloc: Global) -> Result<CreateIndex, AllocError> {
        let (index, table, columns) = three(
            self.index.copy(alloc),
            self.table.copy(alloc),
            self.columns.copy(alloc),
        )?;
        Ok(CreateIndex {
            index,
            table,
            columns,
        })
    }
}

impl Part for Insert {
    fn copy(&self, alloc: Global) -> Result<Insert, AllocError> {
        let (table, columns, rows) = three(
            self.table.copy(alloc),
            self.columns.copy(alloc),
            self.rows.copy(alloc),
        )?;
        Ok(Insert {
            table,
            columns,
            rows,
        })
    }
}

impl Part for InsertRows {
    fn copy(&self, alloc: Global) -> Result<InsertRows, AllocError> {
        match self {
            InsertRows::Values(rows) => Ok(InsertRows::Values(rows.copy(alloc)?)),
            InsertRows::Query(query) => Ok(InsertRows::Query(query.copy(alloc)?)),
        }
    }
}

impl Part for StoredSource {
    fn copy(&self, alloc: Global) -> Result<StoredSource, AllocError> {
        match self {
            StoredSource::Value(value) => Ok(StoredSource::Value(value.copy(alloc)?)),
            StoredSource::Null => Ok(StoredSource::Null),
        }
    }
}

impl Part for Update {
    fn copy(&self, alloc: Global) -> Result<Update, AllocError> {
        let (table, assignments, filter) = three(
            self.table.copy(alloc),
            self.assignments.copy(alloc),
            self.filter.copy(alloc),
        )?;
        Ok(Update {
            table,
            assignments,
            filter,
        })
    }
}

impl Part for Assignment {
    fn copy(&self, alloc: Global) -> Result<Assignment, AllocError> {
        let (column, source) = both(self.column.copy(alloc), self.source.copy(alloc))?;
        Ok(Assignment { column, source })
    }
}

impl Part for Delete {
    fn copy(&self, alloc: Global) -> Result<Delete, AllocError> {
        let (table, filter) = both(self.table.copy(alloc), self.filter.copy(alloc))?;
        Ok(Delete { table, filter })
    }
}

impl Part for DeclareCursor {
    fn copy(&self, alloc: Global) -> Result<DeclareCursor, AllocError> {
        let (cursor, query) = both(self.cursor.copy(alloc), self.query.copy(alloc))?;
        Ok(DeclareCursor { cursor, query })
    }
}
