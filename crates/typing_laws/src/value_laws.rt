//! What a well typed query or expression gives has the types that it is told to have.

ghost use Rattle.std.specs.Prelude.{◌≡◌, ℕ, List, [], ◌∷◌, map, slice_get, Contains, IfOk, Ok, Some};
ghost use Rattle.ast.specs.declared.statement.OrderedQuery.{OrderedQuery as OrderedTree};
ghost use Rattle.sqlval.specs.declared.schema.Column.{Column};
ghost use Rattle.sqlval.specs.declared.schema.Schema.{Schema};
ghost use Rattle.sqlval.specs.declared.value.Value.{Value};
ghost use Rattle.sqlval.specs.declared.value.ValueType.{ValueType};
ghost use Rattle.sqlval.specs.Value.{Row};
ghost use Rattle.typing.specs.declared.scope.TypedQuery.{TypedQuery};
ghost use Rattle.typing.specs.declared.statement.Assignment.{Assignment};
ghost use Rattle.typing.specs.declared.statement.Insert.{Insert};
ghost use Rattle.typing.specs.declared.statement.Update.{Update};
ghost use Rattle.typing.specs.declared.typed.Expression.{Expression};
ghost use Rattle.typing.specs.declared.typed.OrderedQuery.{OrderedQuery};
ghost use Rattle.typing.specs.declared.typed.Query.{Query};
ghost use Rattle.typing.specs.declared.typed.SetFunction.{SetFunction};
ghost use Rattle.typing.specs.declared.typed.Source.{Source};
ghost use Rattle.typing.specs.Known.{Known, known};
ghost use Rattle.typing.specs.Order.{ordered_found};
ghost use Rattle.typing.specs.SetOperator.{types_of};
ghost use Rattle.typing.specs.Typing.{query_found};
ghost use Rattle.denote.specs.Answer.{Answers};
ghost use Rattle.denote.specs.Database.{CheckReading, Database, IsGood, rows_in};
ghost use Rattle.denote.specs.Evaluation.{Env, Evaluation};
ghost use Rattle.denote.specs.Meaning.{Tables, function_value, query_outcome, source_outcome, value_of};
ghost use Rattle.denote.specs.Query.{denotes};
ghost use Rattle.denote.specs.SchemaOf.{IsSchemaOf};
ghost use Rattle.denote.specs.StoredRow.{given_for};
ghost use Rattle.typing_laws.specs.Statements.{IsInsertWell, IsOrderedWell, IsUpdateWell};
ghost use Rattle.typing_laws.specs.WellTyped.{FunctionHasType, HasColumns, HasResult, HasType, Rows};
ghost use Rattle.typing_laws.specs.Stored.{AreGiven, IsKeptBy};
ghost use Rattle.typing_laws.specs.Types.{AreRows, HoldsTypes, IsOfType, SeesRows};

use crate::column_laws::typed_queries_are_well_typed;

/// A well typed expression that has a value has one of its type, or null. So has a set function
/// over rows of the types that its argument sees.
pub fn expressions_have_their_types()
    ensures expressions { (known : Known) (tables : Tables) (rows : Rows) (env : Env) (expression : Expression) (type : ValueType)
        → HoldsTypes known tables → SeesRows rows env
        → HasType known rows expression type → IfOk (value_of tables expression env) (IsOfType type) }
    ensures functions { (known : Known) (tables : Tables) (from : List ValueType) (rows : Rows) (env : Env) (group : List Row) (function : SetFunction) (type : ValueType)
        → HoldsTypes known tables → SeesRows rows env → AreRows from group → FunctionHasType known (from ∷ rows) function type
        → IfOk (function_value tables function env group) (IsOfType type) }
{}

/// Each row of the outcome of a well typed query, or of what gives the rows of a FROM, has the
/// types that are told of it, also where the outcome has faults beside its rows. So each row of an
/// answer to a query that stands in no other; where such a query is found for a text, the types are
/// those of its columns.
pub fn queries_have_rows_of_their_types()
    ensures queries { (known : Known) (tables : Tables) (rows : Rows) (env : Env) (query : Query) (types : List ValueType) → HoldsTypes known tables → SeesRows rows env
        → HasResult known rows query types → AreRows types (query_outcome tables query env).rows }
    ensures sources { (known : Known) (tables : Tables) (rows : Rows) (env : Env) (source : Source) (types : List ValueType)
        → HoldsTypes known tables → SeesRows rows env
        → HasColumns known rows source types → AreRows types (source_outcome tables source env).rows }
    ensures answers { (known : Known) (db : Database) (query : OrderedQuery) (answer : List Row)
        → HoldsTypes known (rows_in db) → (well : IsOrderedWell known query)
        → Answers (Ok answer) (denotes db query) → AreRows well.types answer }
    ensures found { (known : Known) (db : Database) (tree : OrderedTree) (found : TypedQuery) (query : OrderedQuery) (answer : List Row)
        → HoldsTypes known (rows_in db)
        → query_found known tree.query [] ≡ Ok found → ordered_found known tree ≡ Ok query
        → Answers (Ok answer) (denotes db query) → AreRows (types_of found.columns) answer }
{
    typed_queries_are_well_typed();
}

/// The tables of a good database have rows of the types that its schema tells of their columns. So
/// an answer to a query that is found for a text over the schema has rows of the types of the
/// columns that are found with it.
pub fn good_databases_hold_their_types()
    ensures tables { (reading : CheckReading) (schema : Schema) (db : Database) → IsSchemaOf schema db → IsGood reading db → HoldsTypes (known schema) (rows_in db) }
    ensures answers { (reading : CheckReading) (schema : Schema) (db : Database) (tree : OrderedTree) (found : TypedQuery) (query : OrderedQuery) (answer : List Row)
        → IsSchemaOf schema db → IsGood reading db → query_found (known schema) tree.query [] ≡ Ok found
        → ordered_found (known schema) tree ≡ Ok query
        → Answers (Ok answer) (denotes db query) → AreRows (types_of found.columns) answer }
{
    queries_have_rows_of_their_types();
}

/// What a well typed INSERT or UPDATE gives for a column has the column's type, and the column
/// keeps null of null alone: that a value of the other type would be stored as null does not
/// happen. An UPDATE sees a row of the table.
pub fn columns_keep_what_they_are_given()
    ensures inserted { (known : Known) (tables : Tables) (insert : Insert) (given : List (Evaluation Value)) (place : ℕ) (column : Column) (value : Evaluation Value)
        → HoldsTypes known tables
        → (well : IsInsertWell known insert) → AreGiven tables insert.source given
        → slice_get well.table.columns place ≡ Some column → given_for place insert.columns given ≡ Some value
        → IfOk value (IsKeptBy column) }
    ensures updated { (known : Known) (tables : Tables) (update : Update) (row : Row) (place : ℕ) (column : Column) (value : Evaluation Value)
        → HoldsTypes known tables
        → (well : IsUpdateWell known update) → Contains (tables update.table) row → slice_get well.table.columns place ≡ Some column
        → given_for place (map (λ (a : Assignment). a.column) update.assignments) (map (λ (a : Assignment). value_of tables a.source (row ∷ [])) update.assignments) ≡ Some value
        → IfOk value (IsKeptBy column) }
{}
