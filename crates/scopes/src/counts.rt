//! How many set functions a part has, queries inside it left out. Numbers stop at the greatest of
//! the machine.

ghost use Rattle.std.specs.Prelude.{◌≡◌, map};
ghost use Rattle.std.specs.Option.{option_map};
ghost use Rattle.typing.specs.Known.{Known};
ghost use Rattle.typing.specs.Select.{select_list};
ghost use Rattle.typing.specs.Typing.{condition_part, conjunction_part, expression_part, factor_part, item_part, negation_part, predicate_part, term_part};
ghost use Rattle.scopes.specs.Seen.{capped, count_of};

use ast::{
    Condition, Conjunction, Expression, Factor, Negation, Predicate, Primary, SelectItem, Term,
};
use items::Items;

/// Of an expression.
#[cycle(expressions)]
pub fn count_in_expression(tree: &Expression) -> usize
    ensures { (k : Known) → result ≡ capped (count_of (expression_part k tree.now)) }
{
    let mut count = count_in_term(&tree.first);
    for (_, term) in tree.others.as_slice() {
        count = count.saturating_add(count_in_term(term));
    }
    count
}

/// Of a term.
#[cycle(expressions)]
pub fn count_in_term(tree: &Term) -> usize
    ensures { (k : Known) → result ≡ capped (count_of (term_part k tree.now)) }
{
    let mut count = count_in_factor(&tree.first);
    for (_, factor) in tree.others.as_slice() {
        count = count.saturating_add(count_in_factor(factor));
    }
    count
}

/// Of a factor.
#[cycle(expressions)]
pub fn count_in_factor(tree: &Factor) -> usize
    ensures { (k : Known) → result ≡ capped (count_of (factor_part k tree.now)) }
{
    match &tree.primary {
        Primary::CountRows => 1,
        Primary::Aggregate(_, _, _) => 1,
        Primary::Parenthesized(inner) => count_in_expression(inner.get()),
        Primary::Number(_) => 0,
        Primary::Text(_) => 0,
        Primary::Column(_) => 0,
        Primary::Subquery(_) => 0,
    }
}

/// Of a condition.
#[cycle(conditions)]
pub fn count_in_condition(tree: &Condition) -> usize
    ensures { (k : Known) → result ≡ capped (count_of (condition_part k tree.now)) }
{
    let mut count = count_in_conjunction(&tree.first);
    for other in tree.others.as_slice() {
        count = count.saturating_add(count_in_conjunction(other));
    }
    count
}

/// Of the operands of an AND.
#[cycle(conditions)]
pub fn count_in_conjunction(tree: &Conjunction) -> usize
    ensures { (k : Known) → result ≡ capped (count_of (conjunction_part k tree.now)) }
{
    let mut count = count_in_negation(&tree.first);
    for other in tree.others.as_slice() {
        count = count.saturating_add(count_in_negation(other));
    }
    count
}

/// Of an operand of an AND.
#[cycle(conditions)]
pub fn count_in_negation(tree: &Negation) -> usize
    ensures { (k : Known) → result ≡ capped (count_of (negation_part k tree.now)) }
{
    count_in_predicate(&tree.test.predicate)
}

#[cycle(conditions)]
fn count_in_predicate(tree: &Predicate) -> usize
    ensures { (k : Known) → result ≡ capped (count_of (predicate_part k tree.now)) }
{
    match tree {
        Predicate::Nested(inner) => count_in_condition(inner.get()),
        Predicate::Compare(x, _, y) => {
            count_in_expression(x).saturating_add(count_in_expression(y))
        }
        Predicate::Between(x, _, low, high) => count_in_expression(x)
            .saturating_add(count_in_expression(low))
            .saturating_add(count_in_expression(high)),
        Predicate::Like(x, _, pattern) => {
            count_in_expression(x).saturating_add(count_in_expression(pattern))
        }
        Predicate::InList(x, _, _) => count_in_expression(x),
        Predicate::InQuery(x, _, _) => count_in_expression(x),
        Predicate::IsNull(x, _) => count_in_expression(x),
        Predicate::Exists(_) => 0,
    }
}

/// Of a select list.
pub fn count_in_items(items: &Option<Items<SelectItem>>) -> usize
    ensures { (k : Known) → result ≡ capped (count_of (select_list (option_map (map (item_part k)) items.now))) }
{
    let Some(items) = items else {
        return 0;
    };
    let mut count = 0usize;
    for item in items.as_slice() {
        count = count.saturating_add(count_in_expression(&item.value));
    }
    count
}
