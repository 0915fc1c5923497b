//! What a part of a statement sees.

ghost use Rattle.std.specs.Prelude.{◌≡◌, ◌<◌, ◌^◌, ◌-◌, IfOk, IfErr, map};
ghost use Rattle.std.specs.Option.{option_map};
ghost use Rattle.refusals.specs.declared.refusal.Refusal.TheVariants.{Memory};
ghost use Rattle.typing.specs.Known.{Known};
ghost use Rattle.typing.specs.Part.{past};
ghost use Rattle.typing.specs.Select.{select_list};
ghost use Rattle.typing.specs.Typing.{conjunction_part, expression_part, factor_part, item_part, negation_part, term_part};
ghost use Rattle.scopes.specs.Seen.{moved_on, seen};

use crate::counts::{
    count_in_conjunction, count_in_expression, count_in_factor, count_in_items, count_in_negation,
    count_in_term,
};
use ast::{Conjunction, Expression, Factor, Negation, SelectItem, Term};
use items::Items;
use refusals::Refusal;
use typing::Frame;

/// The FROMs that a part sees.
#[derive(Clone, Copy)]
pub enum Scope<'a> {
    /// Outside all queries.
    Outermost,
    /// Inside a SELECT: what its FROM shows, its grouping columns where they alone may be named,
    /// and what is seen around it.
    Inside(&'a Frame, Option<&'a Items<usize>>, &'a Scope<'a>),
}

/// The clause in which a part stands.
#[derive(Clone, Copy, PartialEq, Eq)]
pub enum Clause {
    /// A select list or HAVING. The values of its set functions stand in the row that is seen, from
    /// this place on.
    Shown(usize),
    /// WHERE, ON, or a source, where no set function may stand.
    Plain,
    /// The argument of a set function. It sees the rows of FROM, whatever the grouping columns are.
    Argument,
    /// A CHECK.
    Checked,
}

/// What a part of a statement sees: the FROMs around it, and the clause in which it stands.
#[derive(Clone, Copy)]
pub struct View<'a> {
    pub scope: &'a Scope<'a>,
    pub clause: Clause,
}

/// The view after a part that has so many set functions, of which the values come first. Refuses
/// for want of memory where the numbers do not reach so far.
fn past<'a>(view: &View<'a>, count: usize) -> Result<View<'a>, Refusal>
    ensures ok { IfOk result (λ next. count < 2 ^ 64 - 1 × next ≡ moved_on count view.now) }
    ensures err { IfErr result (λ refusal. refusal ≡ Memory) }
{
    if count == usize::MAX {
        return Err(Refusal::Memory);
    }
    let clause = match view.clause {
        Clause::Shown(first) => match first.checked_add(count) {
            Some(first) => Clause::Shown(first),
            None => return Err(Refusal::Memory),
        },
        other => other,
    };
    Ok(View {
        scope: view.scope,
        clause,
    })
}

/// The view after an expression.
pub fn after_expression<'a>(tree: &Expression, view: &View<'a>) -> Result<View<'a>, Refusal>
    ensures ok { (k : Known) → IfOk result (λ next. seen next ≡ past (expression_part k tree.now) (seen view.now)) }
    ensures err { IfErr result (λ refusal. refusal ≡ Memory) }
{
    past(view, count_in_expression(tree))
}

/// The view after a term.
pub fn after_term<'a>(tree: &Term, view: &View<'a>) -> Result<View<'a>, Refusal>
    ensures ok { (k : Known) → IfOk result (λ next. seen next ≡ past (term_part k tree.now) (seen view.now)) }
    ensures err { IfErr result (λ refusal. refusal ≡ Memory) }
{
    past(view, count_in_term(tree))
}

/// The view after a factor.
pub fn after_factor<'a>(tree: &Factor, view: &View<'a>) -> Result<View<'a>, Refusal>
    ensures ok { (k : Known) → IfOk result (λ next. seen next ≡ past (factor_part k tree.now) (seen view.now)) }
    ensures err { IfErr result (λ refusal. refusal ≡ Memory) }
{
    past(view, count_in_factor(tree))
}

/// The view after operands of an OR.
pub fn after_conjunction<'a>(tree: &Conjunction, view: &View<'a>) -> Result<View<'a>, Refusal>
    ensures ok { (k : Known) → IfOk result (λ next. seen next ≡ past (conjunction_part k tree.now) (seen view.now)) }
    ensures err { IfErr result (λ refusal. refusal ≡ Memory) }
{
    past(view, count_in_conjunction(tree))
}

/// The view after an operand of an AND.
pub fn after_negation<'a>(tree: &Negation, view: &View<'a>) -> Result<View<'a>, Refusal>
    ensures ok { (k : Known) → IfOk result (λ next. seen next ≡ past (negation_part k tree.now) (seen view.now)) }
    ensures err { IfErr result (λ refusal. refusal ≡ Memory) }
{
    past(view, count_in_negation(tree))
}

/// The view after a select list.
pub fn after_items<'a>(
    items: &Option<Items<SelectItem>>,
    view: &View<'a>,
) -> Result<View<'a>, Refusal>
    ensures ok { (k : Known)
        → IfOk result (λ next. seen next ≡ past (select_list (option_map (map (item_part k)) items.now)) (seen view.now)) }
    ensures err { IfErr result (λ refusal. refusal ≡ Memory) }
{
    past(view, count_in_items(items))
}
