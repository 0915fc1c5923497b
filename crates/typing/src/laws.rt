//! What follows from the definitions. These functions do nothing: their contracts are the laws.

ghost use Rattle.std.specs.Prelude.{ℕ, ◌≡◌, Bool, true, false, List, [], ◌∷◌, ◌++◌, flat_map, Option, Some, Ok, Err};
ghost use Rattle.std.specs.List.{list_all};
ghost use Rattle.sqlval.specs.declared.schema.Column.{Column};
ghost use Rattle.sqlval.specs.declared.schema.Schema.{Schema};
ghost use Rattle.sqlval.specs.Schema.{AreSameButForRoots};
ghost use Rattle.refusals.specs.declared.refusal.Refusal.TheVariants.{NotSupported};
ghost use Rattle.lexer.specs.Printing.{HasKinds};
ghost use Rattle.ast.specs.declared.statement.CreateTable.{CreateTable as Tree};
ghost use Rattle.ast.specs.declared.statement.OrderedQuery.{OrderedQuery};
ghost use Rattle.ast.specs.declared.statement.Statement.{Statement};
ghost use Rattle.ast.specs.declared.tree.Condition.{Condition};
ghost use Rattle.ast.specs.Grammar.{IsConditionText, IsText, nested_at};
ghost use Rattle.ast.specs.Notation.{Tokens};
ghost use Rattle.typing.specs.declared.statement.CreateTable.{CreateTable};
ghost use Rattle.typing.specs.declared.statement.Typed.{Typed};
ghost use Rattle.typing.specs.declared.typed.Condition.{Condition as TypedCondition};
ghost use Rattle.typing.specs.Built.{is_built};
ghost use Rattle.typing.specs.Condition.{conjuncts, disjuncts, and_of, or_of};
ghost use Rattle.typing.specs.Flat.{has_flat_and, has_flat_or};
ghost use Rattle.typing.specs.Known.{Known, table_of, has_index, is_referenced};
ghost use Rattle.typing.specs.CreateTable.{create_found};
ghost use Rattle.typing.specs.Check.{ReadsCheck, check_found};
ghost use Rattle.typing.specs.Kept.{AreChecksKept, IsConditionIn};
ghost use Rattle.typing.specs.Printed.{condition_tokens, printed};
ghost use Rattle.typing.specs.Table.{frame_of};
ghost use Rattle.typing.specs.Statement.{statement_found, answered_found};

/// Two schemas in which each name means the same, a table of these columns and keys and so many
/// indexes, or an index, and in which the same tables are referenced by others, give a statement
/// the same names and types, whatever else they differ in.
pub fn names_decide()
    ensures { (one other : Schema) → ((name : List ℕ) → table_of one name ≡ table_of other name)
        → ((name : List ℕ) → has_index one name ≡ has_index other name)
        → ((name : List ℕ) → is_referenced one name ≡ is_referenced other name)
        → (tree : Statement) → statement_found tree one ≡ statement_found tree other }
{}

/// Where the trees of tables and indexes begin is no matter of names and types.
pub fn roots_are_not_read()
    ensures { (one other : Schema) → AreSameButForRoots one other
        → (tree : Statement) → statement_found tree one ≡ statement_found tree other }
{}

/// COMMIT and ROLLBACK, with WORK or without, stand for themselves over every schema.
pub fn transactions_end_over_every_schema()
    ensures commit { (has_work : Bool) (schema : Schema)
        → statement_found (Statement.Commit has_work) schema ≡ Ok Typed.Commit }
    ensures rollback { (has_work : Bool) (schema : Schema)
        → statement_found (Statement.Rollback has_work) schema ≡ Ok Typed.Rollback }
{}

/// Every query is answered as it stands, as is every other form that is built; a form that is not
/// built is refused as such.
pub fn only_what_is_built_is_answered()
    ensures query { (query : OrderedQuery) (schema : Schema)
        → answered_found (Statement.Query query) schema ≡ statement_found (Statement.Query query) schema }
    ensures built { (tree : Statement) (schema : Schema) → is_built tree ≡ true
        → answered_found tree schema ≡ statement_found tree schema }
    ensures not_built { (tree : Statement) (schema : Schema) → is_built tree ≡ false
        → answered_found tree schema ≡ Err (NotSupported ∷ []) }
{}

/// An AND of conditions that have no AND directly inside an AND has none there either; likewise for
/// OR.
pub fn chains_stay_flat()
    ensures and { (operands : List TypedCondition) → list_all has_flat_and operands ≡ true
        → has_flat_and (and_of (flat_map conjuncts operands)) ≡ true }
    ensures or { (operands : List TypedCondition) → list_all has_flat_or operands ≡ true
        → has_flat_or (or_of (flat_map disjuncts operands)) ≡ true }
{}

/// A condition of the grammar has the tokens of its tree and no others, and these alone are the
/// condition again. So the text kept of a CHECK, which is printed of the tree, stands for the
/// condition that the CHECK is found to be; and conditions with the same kept text have the same
/// tokens.
pub fn a_condition_has_one_text()
    ensures tokens { (limit : Option ℕ) (depth : ℕ) (ts rest : Tokens) (x : Condition)
        → (nested_at limit depth).condition ts x rest → ts ≡ condition_tokens x ++ rest }
    ensures again { (limit : Option ℕ) (depth : ℕ) (ts rest : Tokens) (x : Condition)
        → (nested_at limit depth).condition ts x rest → IsConditionText limit (condition_tokens x) x }
    ensures stands { (name : List ℕ) (columns : List Column) (x : Condition) (text : List ℕ) (condition : TypedCondition)
        → IsConditionIn (Some 64) x text
        → check_found (frame_of name columns) x ≡ Ok condition → ReadsCheck name columns (printed x) condition }
    ensures alone { (one other : Option ℕ) (x y : Condition) (text twin : List ℕ) → IsConditionIn one x text
        → IsConditionIn other y twin
        → printed x ≡ printed y → condition_tokens x ≡ condition_tokens y }
{}

/// What a CREATE TABLE keeps of its CHECKs are their texts, in their order, and each stands for the
/// condition that its CHECK is found to be.
pub fn checks_are_kept()
    ensures { (known : Known) (tree : Tree) (table : CreateTable) (text : List ℕ) (kinds : Tokens) → HasKinds text kinds
        → IsText (Some 64) kinds (Statement.CreateTable tree)
        → create_found known tree ≡ Ok table → AreChecksKept tree table }
{}
