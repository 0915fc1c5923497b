//! Which forms of a statement are built yet.

ghost use Rattle.std.specs.Prelude.{◌≡◌};
ghost use Rattle.typing.specs.Built.{is_built};

use ast::Statement;

/// Whether all forms of a statement are built: all but those of cursors.
pub fn is_built(statement: &Statement) -> bool
    ensures { result ≡ is_built statement.now }
{
    match statement {
        Statement::Query(_) => true,
        Statement::Explain(_) => true,
        Statement::CreateTable(_) => true,
        Statement::DropTable(_) => true,
        Statement::CreateIndex(_) => true,
        Statement::DropIndex(_) => true,
        Statement::Insert(_) => true,
        Statement::Update(_) => true,
        Statement::Delete(_) => true,
        Statement::Commit(_) => true,
        Statement::Rollback(_) => true,
        Statement::SetTransaction(_) => true,
        Statement::DeclareCursor(_) => false,
        Statement::OpenCursor(_) => false,
        Statement::Fetch(_) => false,
        Statement::CloseCursor(_) => false,
    }
}
