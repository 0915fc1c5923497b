//! What the operators say, in the words of the subject.

ghost use Rattle.std.specs.Prelude.{◌≡◌, ℕ, [], ◌∷◌, ◌++◌, List, map, filter, Ok};
ghost use Rattle.sqlval.specs.declared.truth.Truth.{Truth};
ghost use Rattle.sqlval.specs.Truth.{truth_and, truth_or, truth_not};
ghost use Rattle.sqlval.specs.Value.{Row};
ghost use Rattle.typing.specs.declared.typed.Condition.{Condition};
ghost use Rattle.typing.specs.declared.typed.Condition.TheVariants as c;
ghost use Rattle.typing.specs.declared.typed.SetOperation.{SetOperation};
ghost use Rattle.denote.specs.Evaluation.{Env};
ghost use Rattle.denote.specs.Outcome.{Outcome};
ghost use Rattle.denote.specs.Condition.{ConditionMeaning};
ghost use Rattle.denote.specs.From.{kept, product, inner_join, left_join, is_unmatched, nulls};
ghost use Rattle.denote.specs.Bag.{times};
ghost use Rattle.denote.specs.SetOperator.{multiplicity, combined};
ghost use Rattle.denote.specs.Meaning.{Tables, truth_at};
ghost use Rattle.operator_laws.specs.Law.{is_true_at};

/// AND, OR and NOT of conditions without faults are the three-valued tables.
pub fn connectives_are_the_tables()
    ensures and { (tables : Tables) (env : Env) (a b : Condition) (x y : Truth) → truth_at tables a env ≡ Ok x → truth_at tables b env ≡ Ok y → truth_at tables (c.And (a ∷ b ∷ [])) env ≡ Ok (truth_and x y) }
    ensures or { (tables : Tables) (env : Env) (a b : Condition) (x y : Truth) → truth_at tables a env ≡ Ok x → truth_at tables b env ≡ Ok y → truth_at tables (c.Or (a ∷ b ∷ [])) env ≡ Ok (truth_or x y) }
    ensures not { (tables : Tables) (env : Env) (a : Condition) (x : Truth) → truth_at tables a env ≡ Ok x → truth_at tables (c.Not a) env ≡ Ok (truth_not x) }
{}

/// Parentheses round an AND that is an operand of an AND change nothing, faults included; likewise
/// for OR.
pub fn nested_chains_are_one_chain()
    ensures and { (tables : Tables) (env : Env) (before xs after : List Condition) → truth_at tables (c.And (before ++ c.And xs ∷ after)) env ≡ truth_at tables (c.And (before ++ xs ++ after)) env }
    ensures or { (tables : Tables) (env : Env) (before xs after : List Condition) → truth_at tables (c.Or (before ++ c.Or xs ∷ after)) env ≡ truth_at tables (c.Or (before ++ xs ++ after)) env }
{}

/// A filter gives the rows at which its condition is true; an inner join is the filter of the
/// product; a left join's rows are the inner join's, and, each once and padded, the left rows none
/// of whose pairs is true or faults.
pub fn joins_are_filters_of_products()
    ensures filter { (condition : ConditionMeaning) (env : Env) (rows : List Row) → (kept condition env rows).rows ≡ filter (is_true_at condition env) rows }
    ensures inner { (on : ConditionMeaning) (env : Env) (left right : Outcome) → (inner_join on env left right).rows ≡ filter (is_true_at on env) (product left right).rows }
    ensures left { (on : ConditionMeaning) (env : Env) (width : ℕ) (left right : Outcome) → (left_join on env width left right).rows ≡ (inner_join on env left right).rows ++ map (λ row. row ++ nulls width) (filter (is_unmatched on env right.rows) left.rows) }
{}

/// A row comes in what a set operator makes as often as its multiplicities on both sides say.
pub fn set_operators_go_by_multiplicities()
    ensures { (op : SetOperation) (left right : List Row) (row : Row) → times row (combined op left right) ≡ multiplicity op.operator op.all (times row left) (times row right) }
{}
