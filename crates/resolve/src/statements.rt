//! Statements: names and types settled.

ghost use Rattle.std.specs.Prelude.{◌≡◌, true, Ok};
ghost use Rattle.typing.specs.Built.{is_built};
ghost use Rattle.typing.specs.Finds.{Finds};
ghost use Rattle.typing.specs.Statement.{answered_found, mode_of, statement_found};

use crate::built::is_built;
use crate::changes::{
    change, close_cursor, create_index, create_table, delete, drop_index, drop_table, explain,
    fetch_cursor, insert, open_cursor, query, update,
};
use ast::Statement;
use change_types::{
    typed_create_index, typed_delete, typed_drop_index, typed_drop_table, typed_insert,
    typed_update,
};
use items::Text;
use lexer::Name;
use query_types::typed_query;
use refusals::Refusal;
use sqlval::Schema;
use std::alloc::Global;
use table_types::typed_create_table;
use typing::{AccessMode, Typed};

/// What a statement stands for over a schema.
///
/// A statement with a form that is not built yet is `NotSupported`, whatever else may be wrong with
/// it. Else it is refused by a reason of names or types, or a limit, that holds of it; where
/// several hold, by any of these. Refuses for want of memory too.
#[tactic(auto, using(crate::proofs::Answering::answer_steps))]
pub fn typed_statement(
    alloc: Global,
    statement: &Statement,
    schema: &Schema,
) -> Result<Typed, Refusal>
    ensures { Finds result (answered_found statement.now schema.now) }
{
    if is_built(statement) {
        typed_built(alloc, statement, schema)
    } else {
        Err(Refusal::NotSupported)
    }
}

fn typed_built(alloc: Global, statement: &Statement, schema: &Schema) -> Result<Typed, Refusal>
    requires built { is_built statement.now ≡ true }
    ensures { Finds result (statement_found statement.now schema.now) }
{
    match statement {
        Statement::Query(tree) => query(typed_query(alloc, tree.get(), schema)),
        Statement::Explain(tree) => explain(typed_query(alloc, tree.get(), schema)),
        Statement::CreateTable(tree) => {
            change(create_table(typed_create_table(alloc, tree.get(), schema)))
        }
        Statement::DropTable(name) => change(drop_table(typed_drop_table(alloc, name, schema))),
        Statement::CreateIndex(tree) => {
            change(create_index(typed_create_index(alloc, tree.get(), schema)))
        }
        Statement::DropIndex(name) => change(drop_index(typed_drop_index(alloc, name, schema))),
        Statement::Insert(tree) => change(insert(typed_insert(alloc, tree.get(), schema))),
        Statement::Update(tree) => change(update(typed_update(alloc, tree.get(), schema))),
        Statement::Delete(tree) => change(delete(typed_delete(alloc, tree.get(), schema))),
        Statement::Commit(_) => Ok(Typed::Commit),
        Statement::Rollback(_) => Ok(Typed::Rollback),
        Statement::SetTransaction(mode) => Ok(Typed::SetTransaction(mode_of(*mode))),
        Statement::DeclareCursor(_) => Err(Refusal::NotSupported),
        Statement::OpenCursor(name) => open_cursor(copied(alloc, name)),
        Statement::Fetch(name) => fetch_cursor(copied(alloc, name)),
        Statement::CloseCursor(name) => close_cursor(copied(alloc, name)),
    }
}

fn copied(alloc: Global, name: &Name) -> Result<Text, Refusal>
    ensures { Finds result (Ok name.now) }
{
    Ok(name.as_text().copy(alloc)?)
}

fn mode_of(mode: ast::AccessMode) -> AccessMode
    ensures { result ≡ mode_of mode }
{
    match mode {
        ast::AccessMode::ReadOnly => AccessMode::ReadOnly,
        ast::AccessMode::ReadWrite => AccessMode::ReadWrite,
    }
}
