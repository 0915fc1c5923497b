//! What a session does with a statement, by what it asks for.
ghost use Rattle.sessions.specs.Kinds.{IsOfKind};

use ast::{AccessMode, Statement};

/// What a statement asks of a session.
#[derive(Clone, Copy, PartialEq, Eq)]
pub(crate) enum Kind {
    Query,
    Change,
    Commit,
    Rollback,
    SetTransaction(AccessMode),
    /// DECLARE, OPEN, FETCH or CLOSE.
    Cursor,
    Explain,
}

/// The kind of a statement.
pub(crate) fn kind_of(statement: &Statement) -> Kind
    ensures { IsOfKind result statement.now }
{
    match statement {
        Statement::Query(_) => Kind::Query,
        Statement::CreateTable(_) => Kind::Change,
        Statement::DropTable(_) => Kind::Change,
        Statement::CreateIndex(_) => Kind::Change,
        Statement::DropIndex(_) => Kind::Change,
        Statement::Insert(_) => Kind::Change,
        Statement::Update(_) => Kind::Change,
        Statement::Delete(_) => Kind::Change,
        Statement::Commit(_) => Kind::Commit,
        Statement::Rollback(_) => Kind::Rollback,
        Statement::SetTransaction(mode) => Kind::SetTransaction(*mode),
        Statement::Explain(_) => Kind::Explain,
        Statement::DeclareCursor(_) => Kind::Cursor,
        Statement::OpenCursor(_) => Kind::Cursor,
        Statement::Fetch(_) => Kind::Cursor,
        Statement::CloseCursor(_) => Kind::Cursor,
    }
}
