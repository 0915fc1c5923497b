//! Parts that are found, put together.

ghost use Rattle.std.specs.Prelude.{◌≡◌, ◌++◌, ◌∷◌, [], List, Option, None, length};
ghost use Rattle.typing.specs.Finding.{Finding, each};
ghost use Rattle.typing.specs.Finds.{Finds};
ghost use Rattle.typing.specs.From.{inner_join, left_join};
ghost use Rattle.typing.specs.Known.{Known};
ghost use Rattle.typing.specs.Part.{FunctionFinding};
ghost use Rattle.typing.specs.Scope.{Scope as Frames};
ghost use Rattle.typing.specs.Typing.{expression_part};
ghost use Rattle.std.specs.Option.{option_copied};
ghost use Rattle.ast.specs.declared.tree.SelectItem.{out-SelectItem};
ghost use Rattle.typing.specs.Select.{is_grouped, item_name, tables_found, width};
ghost use Rattle.typing.specs.SetFunction.{Aggregate, query_seen};
ghost use Rattle.typing.specs.Table.{at_most, distinct_found};
ghost use Rattle.scopes.specs.Seen.{clause_in, frames, scope_in};
ghost use Rattle.query_types.specs.Parts.{appended, function_of, functions_in, negation_of, not_of, test_of, written};
ghost use Rattle.query_types.specs.Selects.{clauses_of, groups_of, join_of, keyed, select_from, select_over, with_key};

use ast::{Column, Quantifier, SelectItem, TruthTest};
use items::{Items, Text};
use refusals::{Limit, Reason, Refusal};
use scopes::{Clause, Scope, are_distinct, count_in_items};
use sqlval::ValueType;
use std::alloc::Global;
use type_rules::{Joined, both, column_name, inner, left, negated, tested};
use typing::{
    Condition, Frame, Groups, SetFunction, Settled, ShownItem, Sides, Source, TypedFrom, TypedQuery,
};

/// The greatest number of tables in one FROM, derived tables among them.
const MAXIMUM_TABLES: usize = 8;

/// The set functions of a part and then those of the next.
pub fn joined(
    first: Result<Items<SetFunction>, Refusal>,
    others: Result<Items<SetFunction>, Refusal>,
) -> Result<Items<SetFunction>, Refusal>
    ensures { (scope : Frames) (fs gs : List FunctionFinding) → Finds first (functions_in scope fs)
        → Finds others (functions_in scope gs) → Finds result (functions_in scope (fs ++ gs)) }
{
    appended(both(first, others))
}

#[tactic(auto, using(type_rules::proofs::FindsLemmas::part_steps))]
fn appended<T: Drop>(lists: Result<(Items<T>, Items<T>), Refusal>) -> Result<Items<T>, Refusal>
    ensures { (x : Finding (List T × List T)) → Finds lists x → Finds result (appended x) }
{
    let (mut all, others) = lists?;
    all.append(others)?;
    Ok(all)
}

/// A set function alone, without its type.
pub fn only_function(
    alloc: Global,
    aggregate: Result<(SetFunction, ValueType), Refusal>,
) -> Result<Items<SetFunction>, Refusal>
    ensures { (x : Finding Aggregate) → Finds aggregate x → Finds result (each (function_of x ∷ [])) }
{
    let (function, _) = aggregate?;
    let mut functions = Items::new(alloc);
    functions.push(function)?;
    Ok(functions)
}

/// A query inside an expression or a condition, which may not stand in each clause.
pub fn query_seen(clause: Clause, query: Result<TypedQuery, Refusal>) -> Result<TypedQuery, Refusal>
    ensures { (found : Frames → Finding TypedQuery) (scope : Frames) → Finds query (found scope)
        → Finds result (query_seen (clause_in clause) (found (scope_in clause scope))) }
{
    match clause {
        Clause::Shown(_) => query,
        Clause::Plain => query,
        Clause::Argument => Err(Refusal::Invalid(Reason::Grouping)),
        Clause::Checked => Err(Refusal::Invalid(Reason::Check)),
    }
}

/// NOT and IS, where they are written.
pub fn tested_negation(
    alloc: Global,
    is_negated: bool,
    test: Option<TruthTest>,
    predicate: Result<Condition, Refusal>,
) -> Result<Condition, Refusal>
    ensures { (x : Finding Condition) → Finds predicate x → Finds result (negation_of is_negated test x) }
{
    negation(alloc, is_negated, test_of(alloc, test, predicate))
}

#[tactic(auto, using(type_rules::proofs::FindsLemmas::part_steps))]
fn test_of(
    alloc: Global,
    test: Option<TruthTest>,
    predicate: Result<Condition, Refusal>,
) -> Result<Condition, Refusal>
    ensures { (x : Finding Condition) → Finds predicate x → Finds result (test_of test x) }
{
    tested(alloc, test, predicate?)
}

#[tactic(auto, using(type_rules::proofs::FindsLemmas::part_steps))]
fn negation(
    alloc: Global,
    is_negated: bool,
    condition: Result<Condition, Refusal>,
) -> Result<Condition, Refusal>
    ensures { (x : Finding Condition) → Finds condition x → Finds result (not_of is_negated x) }
{
    negated(alloc, is_negated, condition?)
}

/// A condition that is written.
#[tactic(auto, using(type_rules::proofs::FindsLemmas::part_steps))]
pub fn written(condition: Result<Condition, Refusal>) -> Result<Option<Condition>, Refusal>
    ensures { (x : Finding Condition) → Finds condition x → Finds result (written x) }
{
    Ok(Some(condition?))
}

/// What is seen inside a SELECT or an ON: what its FROM shows, and what is seen around it.
pub fn inside<'a>(scope: &'a Scope<'a>, frame: &'a Frame) -> Scope<'a>
    ensures { frames result ≡ with_key None frame.now (frames scope.now) }
{
    Scope::Inside(frame, None, scope)
}

/// What the groups of a SELECT show in place of its rows.
pub fn grouped<'a>(rows: &'a Scope<'a>, key: Option<&'a Items<usize>>) -> Scope<'a>
    ensures { frames result ≡ keyed (option_copied key.entry) (frames rows.now) }
{
    match rows {
        Scope::Outermost => Scope::Outermost,
        Scope::Inside(frame, _, outer) => Scope::Inside(frame, key, outer),
    }
}

// ---- joins

/// INNER JOIN, over sides that are found.
#[tactic(auto, using(type_rules::proofs::FindsLemmas::part_steps))]
pub fn inner_join(
    alloc: Global,
    sides: Joined,
    on: Result<Condition, Refusal>,
) -> Result<TypedFrom, Refusal>
    ensures { (x : Finding Condition) → Finds on x → Finds result (join_of inner_join sides x) }
{
    let on = on?;
    let Joined {
        frame,
        left,
        right,
        right_width,
    } = sides;
    let sides = Sides {
        left,
        right,
        right_width,
        on,
    };
    let source = inner(alloc, sides)?;
    Ok(TypedFrom { frame, source })
}

/// LEFT JOIN, over sides that are found.
#[tactic(auto, using(type_rules::proofs::FindsLemmas::part_steps))]
pub fn left_join(
    alloc: Global,
    sides: Joined,
    on: Result<Condition, Refusal>,
) -> Result<TypedFrom, Refusal>
    ensures { (x : Finding Condition) → Finds on x → Finds result (join_of left_join sides x) }
{
    let on = on?;
    let Joined {
        frame,
        left: left_side,
        right,
        right_width,
    } = sides;
    let sides = Sides {
        left: left_side,
        right,
        right_width,
        on,
    };
    let source = left(alloc, sides)?;
    Ok(TypedFrom { frame, source })
}

// ---- SELECT

/// Whether a SELECT has groups: where it has GROUP BY, HAVING or a set function.
pub fn is_grouped(tree: &ast::Select) -> bool
    ensures { (k : Known) → result ≡ is_grouped (clauses_of k tree.now) }
{
    if !tree.groups.is_empty() {
        return true;
    }
    if tree.having.is_some() {
        return true;
    }
    count_in_items(&tree.items) > 0
}

/// How many columns a group's key has.
pub fn width_of(key: &Option<Items<usize>>) -> usize
    ensures { result ≡ width key.now }
{
    match key {
        None => 0,
        Some(key) => key.len(),
    }
}

/// The tables of a FROM, of which there may be no more than eight, each with a name of its own.
fn tables_found(names: &[Text]) -> Result<((), ()), Refusal>
    ensures { Finds result (tables_found names.now) }
{
    both(few_tables(names), distinct_tables(names))
}

fn few_tables(names: &[Text]) -> Result<(), Refusal>
    ensures { Finds result (at_most 8 Limit.Tables (length names.now)) }
{
    if names.len() > MAXIMUM_TABLES {
        return Err(Refusal::Exceeded(Limit::Tables));
    }
    Ok(())
}

fn distinct_tables(names: &[Text]) -> Result<(), Refusal>
    ensures { Finds result (distinct_found names.now) }
{
    if !are_distinct(names) {
        return Err(Refusal::Invalid(Reason::Duplicate));
    }
    Ok(())
}

/// The groups, from what they show.
#[tactic(auto, using(type_rules::proofs::FindsLemmas::part_steps))]
pub fn groups_of(
    key: Option<Items<usize>>,
    shown: Result<(Items<ShownItem>, Option<Condition>), Refusal>,
) -> Result<Groups, Refusal>
    ensures { (x : Finding (List ShownItem × Option Condition)) → Finds shown x → Finds result (groups_of key x) }
{
    let (items, having) = shown?;
    Ok(Groups { key, items, having })
}

/// A SELECT over a FROM that is found.
pub fn select_over(
    alloc: Global,
    quantifier: Option<Quantifier>,
    groups: &[Column],
    from: TypedFrom,
    settled: Result<Settled, Refusal>,
) -> Result<TypedQuery, Refusal>
    ensures { (x : Finding Settled) → Finds settled x → Finds result (select_over quantifier groups.now from x) }
{
    let TypedFrom { frame, source } = from;
    let settled = both(tables_found(frame.tables.as_slice()), settled);
    select_from(alloc, quantifier, groups, source, settled)
}

#[tactic(auto, using(type_rules::proofs::FindsLemmas::part_steps))]
fn select_from(
    alloc: Global,
    quantifier: Option<Quantifier>,
    groups: &[Column],
    source: Source,
    settled: Result<(((), ()), Settled), Refusal>,
) -> Result<TypedQuery, Refusal>
    ensures { (x : Finding ((Unit {0} × Unit {0}) × Settled)) → Finds settled x
        → Finds result (select_from quantifier groups.now source x) }
{
    let (_, settled) = settled?;
    type_rules::made_select(alloc, quantifier, groups, source, settled)
}

/// The name after AS, else that of the column that the item is. `( A )` is no column.
pub fn item_name(item: &SelectItem) -> Option<&Text>
    ensures { (k : Known)
        → option_copied result ≡ item_name (out-SelectItem item.now).alias (expression_part k (out-SelectItem item.now).value).name }
{
    match &item.alias {
        Some(alias) => Some(alias.name.as_text()),
        None => column_name(&item.value),
    }
}
