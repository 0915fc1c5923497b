//! What every refusal of names and types has.

ghost use Rattle.sqlval.specs.declared.schema.Schema.{Schema};
ghost use Rattle.ast.specs.declared.statement.Statement.{Statement};
ghost use Rattle.typing.specs.Statement.{statement_found};
ghost use Rattle.typing_laws.specs.Reasons.{IsReasoned};

/// Where the rules of names and types find nothing that a statement stands for they find at least
/// one reason, and each reason is a fault of names or types, or a limit of what is written.
pub fn refusals_have_reasons()
    ensures { (tree : Statement) (schema : Schema) → IsReasoned (statement_found tree schema) }
{}
