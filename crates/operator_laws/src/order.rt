//! That the order of rows never matters to an operator.

ghost use Rattle.std.specs.Prelude.{ℕ, Bool, List, Option};
ghost use Rattle.sqlval.specs.Value.{Row};
ghost use Rattle.typing.specs.declared.typed.SetFunctionType.{SetFunctionType};
ghost use Rattle.typing.specs.declared.typed.SetOperation.{SetOperation};
ghost use Rattle.denote.specs.Evaluation.{Env};
ghost use Rattle.denote.specs.Outcome.{Outcome, through};
ghost use Rattle.denote.specs.Expression.{ExpressionMeaning};
ghost use Rattle.denote.specs.Condition.{ConditionMeaning};
ghost use Rattle.denote.specs.From.{kept, product, inner_join, left_join};
ghost use Rattle.denote.specs.Group.{SetFunctionMeaning, count_of_rows, set_function, grouped};
ghost use Rattle.denote.specs.Select.{shown, only};
ghost use Rattle.denote.specs.SetOperator.{set_operation};
ghost use Rattle.denote.specs.Bag.{IsSame};
ghost use Rattle.operator_laws.specs.Law.{IsOrderless};
ghost use Rattle.operator_laws.specs.Same.{AgreeOnGroups, AgreeOnParts, Every};

/// The order of rows never matters to an operator on rows: the same bags and fault sets give the
/// same. A filter, a select list, what is made of a part, a product, an inner join, a left join,
/// DISTINCT, a set function, groups with set functions and HAVING, set operators.
pub fn order_of_rows_never_matters()
    ensures filter { (condition : ConditionMeaning) (env : Env) → IsOrderless (kept condition env) }
    ensures list { (items : List ExpressionMeaning) (env : Env) → IsOrderless (shown items env) }
    ensures part { (made : List Row → Outcome) (o p : Outcome) → IsOrderless made → IsSame o p
        → IsSame (through o made) (through p made) }
    ensures product { (l m r s : Outcome) → IsSame l m → IsSame r s → IsSame (product l r) (product m s) }
    ensures inner { (on : ConditionMeaning) (env : Env) (l m r s : Outcome) → IsSame l m → IsSame r s
        → IsSame (inner_join on env l r) (inner_join on env m s) }
    ensures left { (on : ConditionMeaning) (env : Env) (width : ℕ) (l m r s : Outcome) → IsSame l m → IsSame r s → IsSame (left_join on env width l r) (left_join on env width m s) }
    ensures distinct { (is_distinct : Bool) (o p : Outcome) → IsSame o p
        → IsSame (only is_distinct o) (only is_distinct p) }
    ensures function { (function : SetFunctionType) (is_distinct : Bool) (argument : ExpressionMeaning)
        → AgreeOnGroups (set_function function is_distinct argument) (set_function function is_distinct argument) }
    ensures count { AgreeOnGroups count_of_rows count_of_rows }
    ensures groups { (columns : Option (List ℕ)) (functions : List SetFunctionMeaning) (having : Option ConditionMeaning) → Every (λ f. AgreeOnGroups f f) functions → AgreeOnParts (grouped columns functions having) (grouped columns functions having) }
    ensures operator { (op : SetOperation) (l m r s : Outcome) → IsSame l m → IsSame r s
        → IsSame (set_operation op l r) (set_operation op m s) }
{}
