//! That the text of a CHECK stands for one condition, that the text that a CREATE TABLE keeps can
//! be read, and that what is declared of columns is declared of those that are there.

ghost use Rattle.std.specs.Prelude.{◌≡◌, true, false, List, ℕ, length, None, Ok, Some};
ghost use Rattle.std.specs.FinMap.{get, insert};
ghost use Rattle.ast.specs.Grammar.{IsText};
ghost use Rattle.ast.specs.Nesting.{IsNestedWithin};
ghost use Rattle.ast.specs.Notation.{Tokens};
ghost use Rattle.ast.specs.declared.statement.CreateIndex.{CreateIndex as IndexTree};
ghost use Rattle.ast.specs.declared.statement.CreateTable.{CreateTable as Tree};
ghost use Rattle.ast.specs.declared.statement.Statement.{Statement};
ghost use Rattle.denote.specs.Change.{created};
ghost use Rattle.denote.specs.Database.{AreReadable, AreReferencesIn, Database, NamesItsColumns, Table, are_places, constraint_columns};
ghost use Rattle.denote.specs.SchemaOf.{IsSchemaOf};
ghost use Rattle.lexer.specs.Printing.{HasKinds};
ghost use Rattle.sqlval.specs.declared.schema.Column.{Column};
ghost use Rattle.sqlval.specs.declared.schema.Schema.{Schema};
ghost use Rattle.sqlval.specs.Schema.{same_name};
ghost use Rattle.typing.specs.declared.statement.CreateIndex.{CreateIndex};
ghost use Rattle.typing.specs.declared.statement.CreateTable.{CreateTable};
ghost use Rattle.typing.specs.declared.typed.Condition.{Condition};
ghost use Rattle.typing.specs.Check.{ReadsCheck};
ghost use Rattle.typing.specs.CreateTable.{create_found};
ghost use Rattle.typing.specs.Index.{dropped_table, index_found};
ghost use Rattle.typing.specs.Known.{Known, known, references};

use syntax_laws::{a_text_has_tokens_or_a_fault, tokens_have_at_most_one_tree};
use typing::laws::checks_are_kept;

/// The text that is kept of a CHECK stands for one condition at most, in a table of given columns.
pub fn a_check_is_one_condition()
    ensures { (name : List ℕ) (columns : List Column) (text : List ℕ) (one other : Condition)
        → ReadsCheck name columns text one → ReadsCheck name columns text other → one ≡ other }
{
    a_text_has_tokens_or_a_fault();
    tokens_have_at_most_one_tree();
}

/// The texts that a CREATE TABLE keeps of its CHECKs can be read, where its own text is within the
/// limits: of the parentheses that are open at once, and of the operands of a chain.
pub fn kept_checks_can_be_read()
    ensures { (known : Known) (tree : Tree) (table : CreateTable) (text : List ℕ) (kinds : Tokens) → HasKinds text kinds
        → IsNestedWithin 64 kinds
        → IsText (Some 64) kinds (Statement.CreateTable tree) → create_found known tree ≡ Ok table
        → AreReadable table.name table.columns table.constraints }
{
    checks_are_kept();
}

/// What a CREATE TABLE declares of columns by their places it declares of its own, and so does a
/// CREATE INDEX of those of its table.
pub fn declared_columns_are_there()
    ensures created { (known : Known) (tree : Tree) (table : CreateTable) → create_found known tree ≡ Ok table
        → are_places (length table.columns) (constraint_columns table.constraints) ≡ true }
    ensures indexed { (schema : Schema) (db : Database) (tree : IndexTree) (index : CreateIndex) (table : Table)
        → IsSchemaOf schema db → index_found (known schema) tree ≡ Ok index
        → get db index.table ≡ Some table → are_places (length table.columns) index.columns ≡ true }
{}

/// A CREATE TABLE takes a name that is free, and its foreign keys reference columns that are there,
/// as many as they have themselves, in a database whose tables name columns of their own. A DROP
/// TABLE drops no table that another one references.
pub fn what_is_referenced_is_there()
    ensures free { (schema : Schema) (db : Database) (tree : Tree) (table : CreateTable) → IsSchemaOf schema db
        → create_found (known schema) tree ≡ Ok table → get db table.name ≡ None }
    ensures referenced { (schema : Schema) (db : Database) (tree : Tree) (table : CreateTable) → IsSchemaOf schema db
        → ((name : List ℕ) (other : Table) → get db name ≡ Some other → NamesItsColumns other)
        → create_found (known schema) tree ≡ Ok table
        → AreReferencesIn (insert db table.name (created table)) table.constraints }
    ensures dropped { (schema : Schema) (db : Database) (name dropped : List ℕ) → IsSchemaOf schema db
        → dropped_table (known schema) name ≡ Ok dropped → (other : List ℕ) (table : Table) → get db other ≡ Some table
        → same_name other dropped ≡ false → references dropped table.constraints ≡ false }
{}
