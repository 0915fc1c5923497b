//! The set functions of a text and those of its typed tree.

ghost use Rattle.std.specs.Prelude.{◌≡◌, ℕ, List, Ok};
ghost use Rattle.ast.specs.declared.tree.Condition.{Condition};
ghost use Rattle.ast.specs.declared.tree.Expression.{Expression};
ghost use Rattle.ast.specs.declared.tree.Primary.{Primary};
ghost use Rattle.ast.specs.declared.tree.Select.{Select};
ghost use Rattle.typing.specs.declared.scope.Frame.{Frame};
ghost use Rattle.typing.specs.declared.scope.TypedExpression.{TypedExpression};
ghost use Rattle.typing.specs.declared.scope.TypedQuery.{TypedQuery};
ghost use Rattle.typing.specs.declared.typed.Condition.{Condition as TypedCondition};
ghost use Rattle.typing.specs.declared.typed.Grouping.{Grouping};
ghost use Rattle.typing.specs.Known.{Known};
ghost use Rattle.typing.specs.Scope.{Scope};
ghost use Rattle.typing.specs.Typing.{select_found};
ghost use Rattle.denote.specs.Evaluation.{Env};
ghost use Rattle.denote.specs.Meaning.{Tables};
ghost use Rattle.sqlval.specs.Value.{Row};
ghost use Rattle.typing_laws.specs.Listed.{Lists, shown_nodes};
ghost use Rattle.typing_laws.specs.Numbered.{IsNumbered};
ghost use Rattle.typing_laws.specs.Placed.{IsConditionPlaced, IsExpressionPlaced, IsPlaced, IsValued};

/// The set functions that stand in a SELECT's select list and in its HAVING, those of queries
/// inside left out, are a list in the order of the text; and the k-th of them is what the k-th set
/// function of the typed SELECT stands for.
pub fn set_functions_are_listed()
    ensures listed { (tree : Select) → (functions : List Primary) × Lists (shown_nodes tree) functions }
    ensures numbered { (known : Known) (tree : Select) (outer : Scope) (found : TypedQuery) (functions : List Primary)
        → Lists (shown_nodes tree) functions
        → select_found known tree outer ≡ Ok found → IsNumbered known tree outer found functions }
{}

/// The value of the k-th set function stands where the k-th one was written. The select list and
/// HAVING of a SELECT with groups name the columns behind the key of a group's row in order, from
/// left to right, each once and as many as there are set functions (`placed`); what an expression
/// or a condition inside stands for names those of the set functions that are written in it, and no
/// others (`expressions`, `conditions`). And the k-th of these columns has the value of the
/// k-th set function over the rows of the group (`valued`).
pub fn set_functions_stand_in_place()
    ensures placed { (known : Known) (tree : Select) (outer : Scope) (found : TypedQuery)
        → select_found known tree outer ≡ Ok found → IsPlaced known tree outer found }
    ensures expressions { (known : Known) (tree : Expression) (frame : Frame) (outer : Scope) (key : List ℕ) (first : ℕ) (found : TypedExpression) (functions : List Primary)
        → IsExpressionPlaced known tree frame outer key first found functions }
    ensures conditions { (known : Known) (tree : Condition) (frame : Frame) (outer : Scope) (key : List ℕ) (first : ℕ) (found : TypedCondition) (functions : List Primary)
        → IsConditionPlaced known tree frame outer key first found functions }
    ensures valued { (tables : Tables) (grouping : Grouping) (env : Env) (rows : List Row) (key : Row) (row : Row)
        → IsValued tables grouping env rows key row }
{}
