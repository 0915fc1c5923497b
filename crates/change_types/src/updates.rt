//! UPDATE and DELETE.

ghost use Rattle.std.specs.Prelude.{◌≡◌, ℕ, List, Option, map, IfOk};
ghost use Rattle.typing.specs.Finding.{Finding, each};
ghost use Rattle.typing.specs.Finds.{Finds};
ghost use Rattle.typing.specs.Insert.{Target};
ghost use Rattle.typing.specs.Known.{known, known_table};
ghost use Rattle.typing.specs.Table.{distinct_found};
ghost use Rattle.typing.specs.Update.{assignment_found, changes_found, delete_found, update_found};
ghost use Rattle.scopes.specs.Seen.{frames};
ghost use Rattle.change_types.specs.Parts.{assigned, assignment_of, changes_in, delete_of, filter_in, own_rows, update_of};

use crate::names::distinct_texts;
use crate::sources::{stored, typed_filter, typed_source};
use crate::targets::target_named;
use items::{Items, Text};
use lexer::Name;
use refusals::Refusal;
use scopes::Scope;
use sqlval::{Schema, Table, ValueType};
use std::alloc::{AllocError, Global};
use type_rules::{both, frame_of, second, table_named};
use typing::{Assignment, Condition, Delete, Expression, Frame, TypedExpression, Update};

/// What a DELETE stands for over a schema.
///
/// Refused by a reason of names or types, or a limit, that holds of it; where several hold, by any
/// of these. Refuses for want of memory too.
pub fn typed_delete(alloc: Global, tree: &ast::Delete, schema: &Schema) -> Result<Delete, Refusal>
    ensures { Finds result (delete_found (known schema.now) tree.now) }
{
    let table = table_named(schema, tree.table.as_text())?;
    let frame = frame_of(alloc, tree.table.as_text(), table)?;
    let filter = filter_in(alloc, schema, &tree.filter, &frame);
    delete_of(alloc, &tree.table, filter)
}

fn delete_of(
    alloc: Global,
    table: &Name,
    filter: Result<Option<Condition>, Refusal>,
) -> Result<Delete, Refusal>
    ensures { (x : Finding (Option Condition)) → Finds filter x → Finds result (delete_of table.now x) }
{
    let filter = filter?;
    Ok(Delete {
        table: table.as_text().copy(alloc)?,
        filter,
    })
}

/// The condition after WHERE, which sees one table.
fn filter_in(
    alloc: Global,
    schema: &Schema,
    filter: &Option<ast::Condition>,
    frame: &Frame,
) -> Result<Option<Condition>, Refusal>
    ensures { Finds result (filter_in (known schema.now) frame.now filter.now) }
{
    let outer = Scope::Outermost;
    typed_filter(alloc, schema, filter, &Scope::Inside(frame, None, &outer))
}

/// What an UPDATE stands for over a schema.
///
/// Refused by a reason of names or types, or a limit, that holds of it; where several hold, by any
/// of these. Refuses for want of memory too.
pub fn typed_update(alloc: Global, tree: &ast::Update, schema: &Schema) -> Result<Update, Refusal>
    ensures { Finds result (update_found (known schema.now) tree.now) }
{
    let columns = distinct_columns(alloc, tree.assignments.as_slice());
    second(both(columns, changes_in(alloc, schema, tree)))
}

fn distinct_columns(alloc: Global, assignments: &[ast::Assignment]) -> Result<(), Refusal>
    ensures { Finds result (distinct_found (map (λ assignment. assignment.column) assignments.now)) }
{
    let columns = columns_of(alloc, assignments)?;
    distinct_texts(columns.as_slice())
}

fn columns_of(alloc: Global, assignments: &[ast::Assignment]) -> Result<Items<Text>, AllocError>
    ensures { IfOk result (λ columns. columns ≡ map (λ assignment. assignment.column) assignments.now) }
{
    let mut columns = Items::with_capacity(alloc, assignments.len())?;
    for assignment in assignments {
        columns.push(assignment.column.as_text().copy(alloc)?)?;
    }
    Ok(columns)
}

/// What stands after UPDATE and the table.
fn changes_in(alloc: Global, schema: &Schema, tree: &ast::Update) -> Result<Update, Refusal>
    ensures { Finds result (changes_in (known schema.now) tree.now) }
{
    let table = table_named(schema, tree.table.as_text())?;
    let frame = frame_of(alloc, tree.table.as_text(), table)?;
    let assignments = assignments_in(alloc, schema, table, tree.assignments.as_slice(), &frame);
    let filter = filter_in(alloc, schema, &tree.filter, &frame);
    update_of(alloc, &tree.table, both(assignments, filter))
}

fn update_of(
    alloc: Global,
    table: &Name,
    parts: Result<(Items<Assignment>, Option<Condition>), Refusal>,
) -> Result<Update, Refusal>
    ensures { (x : Finding (List Assignment × Option Condition)) → Finds parts x
        → Finds result (update_of table.now x) }
{
    let (assignments, filter) = parts?;
    Ok(Update {
        table: table.as_text().copy(alloc)?,
        assignments,
        filter,
    })
}

/// The assignments, whose sources see one table.
fn assignments_in(
    alloc: Global,
    schema: &Schema,
    table: &Table,
    assignments: &[ast::Assignment],
    frame: &Frame,
) -> Result<Items<Assignment>, Refusal>
    ensures { Finds result (each (map (assignment_found (known schema.now) (own_rows frame.now) table.now.columns) assignments.now)) }
{
    let outer = Scope::Outermost;
    typed_assignments(
        alloc,
        schema,
        table,
        assignments,
        &Scope::Inside(frame, None, &outer),
    )
}

fn typed_assignments(
    alloc: Global,
    schema: &Schema,
    table: &Table,
    assignments: &[ast::Assignment],
    scope: &Scope,
) -> Result<Items<Assignment>, Refusal>
    ensures { Finds result (each (map (assignment_found (known schema.now) (frames scope.now) table.now.columns) assignments.now)) }
{
    let mut typed = Items::new(alloc);
    for assignment in assignments {
        typed.push(typed_assignment(alloc, schema, table, assignment, scope)?)?;
    }
    Ok(typed)
}

fn typed_assignment(
    alloc: Global,
    schema: &Schema,
    table: &Table,
    assignment: &ast::Assignment,
    scope: &Scope,
) -> Result<Assignment, Refusal>
    ensures { Finds result (assignment_found (known schema.now) (frames scope.now) table.now.columns assignment.now) }
{
    let target = target_named(table, &assignment.column);
    let source = typed_source(alloc, schema, &assignment.source, scope);
    assignment_of(both(target, source))
}

fn assignment_of(
    parts: Result<((usize, ValueType), Option<TypedExpression>), Refusal>,
) -> Result<Assignment, Refusal>
    ensures { (x : Finding (Target × Option TypedExpression)) → Finds parts x → Finds result (assignment_of x) }
{
    let ((column, wanted), source) = parts?;
    assigned(column, stored(wanted, Ok(source)))
}

#[tactic(auto, using(type_rules::proofs::FindsLemmas::part_steps))]
fn assigned(column: usize, source: Result<Expression, Refusal>) -> Result<Assignment, Refusal>
    ensures { (x : Finding Expression) → Finds source x → Finds result (assigned column x) }
{
    let source = source?;
    Ok(Assignment { column, source })
}
