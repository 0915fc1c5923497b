//! What the rules of names and types find is well typed: its columns are there, and its operands
//! fit.

ghost use Rattle.std.specs.Prelude.{◌≡◌, ℕ, List, [], ◌∷◌, Ok};
ghost use Rattle.ast.specs.declared.statement.OrderedQuery.{OrderedQuery as OrderedTree};
ghost use Rattle.ast.specs.declared.statement.Statement.{Statement};
ghost use Rattle.ast.specs.declared.tree.Condition.{Condition as ConditionTree};
ghost use Rattle.ast.specs.declared.tree.Expression.{Expression as ExpressionTree};
ghost use Rattle.ast.specs.declared.tree.Query.{Query as QueryTree};
ghost use Rattle.ast.specs.declared.tree.Select.{Select as SelectTree};
ghost use Rattle.sqlval.specs.declared.schema.Column.{Column};
ghost use Rattle.sqlval.specs.declared.schema.Schema.{Schema};
ghost use Rattle.typing.specs.declared.scope.TypedExpression.{TypedExpression};
ghost use Rattle.typing.specs.declared.scope.TypedQuery.{TypedQuery};
ghost use Rattle.typing.specs.declared.statement.Typed.{Typed};
ghost use Rattle.typing.specs.declared.typed.Condition.{Condition};
ghost use Rattle.typing.specs.declared.typed.OrderedQuery.{OrderedQuery};
ghost use Rattle.typing.specs.Check.{ReadsCheck, check_found};
ghost use Rattle.typing.specs.Known.{Known, known, nothing_known};
ghost use Rattle.typing.specs.Order.{ordered_found};
ghost use Rattle.typing.specs.Part.{Plain};
ghost use Rattle.typing.specs.Scope.{Scope};
ghost use Rattle.typing.specs.SetOperator.{types_of};
ghost use Rattle.typing.specs.Statement.{statement_found};
ghost use Rattle.typing.specs.Table.{frame_of};
ghost use Rattle.typing.specs.Typing.{condition_part, expression_part, query_found, select_found};
ghost use Rattle.typing_laws.specs.Scopes.{AreRowsOf};
ghost use Rattle.typing_laws.specs.Statements.{IsOrderedWell, IsStatementWell};
ghost use Rattle.typing_laws.specs.WellTyped.{HasResult, HasType, IsWellTyped, Rows, column_types};

/// Whatever query the rules of names and types find for a text is well typed in the rows that it
/// sees, and its result has just the types that they tell of its columns. A query that stands in no
/// other sees no row, and its ORDER BY names columns of its result.
pub fn typed_queries_are_well_typed()
    ensures queries { (known : Known) (tree : QueryTree) (outer : Scope) (rows : Rows) (found : TypedQuery) → AreRowsOf outer rows → query_found known tree outer ≡ Ok found
        → HasResult known rows found.query (types_of found.columns) }
    ensures selects { (known : Known) (tree : SelectTree) (outer : Scope) (rows : Rows) (found : TypedQuery)
        → AreRowsOf outer rows → select_found known tree outer ≡ Ok found
        → HasResult known rows found.query (types_of found.columns) }
    ensures ordered { (known : Known) (tree : OrderedTree) (found : OrderedQuery) → ordered_found known tree ≡ Ok found
        → IsOrderedWell known found }
{}

/// Likewise an expression and a condition where no set function may stand; and the condition of a
/// CHECK, which sees a row of its own table and no other table, as it is written and as its kept
/// text is read.
pub fn typed_parts_are_well_typed()
    ensures expressions { (known : Known) (tree : ExpressionTree) (scope : Scope) (rows : Rows) (found : TypedExpression)
        → AreRowsOf scope rows
        → (expression_part known tree).found (record { scope = scope; clause = Plain }) ≡ Ok found → HasType known rows found.expression found.value_type }
    ensures conditions { (known : Known) (tree : ConditionTree) (scope : Scope) (rows : Rows) (found : Condition)
        → AreRowsOf scope rows
        → (condition_part known tree).found (record { scope = scope; clause = Plain }) ≡ Ok found
        → IsWellTyped known rows found }
    ensures checks { (name : List ℕ) (columns : List Column) (tree : ConditionTree) (found : Condition)
        → check_found (frame_of name columns) tree ≡ Ok found
        → IsWellTyped nothing_known (column_types columns ∷ []) found }
    ensures kept { (name : List ℕ) (columns : List Column) (text : List ℕ) (found : Condition)
        → ReadsCheck name columns text found
        → IsWellTyped nothing_known (column_types columns ∷ []) found }
{}

/// A statement over a schema stands for queries and changes of rows that are well typed over it:
/// what is stored in a column has its type, and conditions and sources see a row of the table.
pub fn typed_statements_are_well_typed()
    ensures { (tree : Statement) (schema : Schema) (found : Typed) → statement_found tree schema ≡ Ok found
        → IsStatementWell (known schema) found }
{}
