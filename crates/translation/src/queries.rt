//! Queries, FROM, and what a SELECT makes of it.

ghost use Rattle.std.specs.Prelude.{◌≡◌, map, IfOk};
ghost use Rattle.std.specs.Option.{option_map};
ghost use Rattle.algebra.specs.declared.tree.Tree.{Tree as Rows};
ghost use Rattle.algebra.specs.Described.{described_in};
ghost use Rattle.algebra.specs.Translated.{filter_tree, grouped_tree, distinct_tree, set_tree, tree_of_query, tree_of_ordered, tree_of_source, tree_of_condition, tree_of_grouping, tree_of_select};

use crate::conditions::translate_condition;
use crate::described::describe;
use crate::expressions::{select_list, set_functions};
use crate::nodes::{distinct, filter, group, inner, left_join, product, project, set, sorted};
use crate::parts::boxed;
use algebra::Tree;
use items::{Boxed, Items};
use sqlval::Schema;
use std::alloc::{AllocError, Global};
use typing::{Condition, Grouping, OrderedQuery, Query, Select, SetOperation, Source};

/// The tree of a query with its ORDER BY. Refuses for want of memory alone.
pub fn translate(alloc: Global, schema: &Schema, ordered: &OrderedQuery) -> Result<Tree, AllocError>
    ensures translated { IfOk result (λ tree. tree ≡ tree_of_ordered (described_in schema.now) ordered.now) }
{
    let keys = Items::from_slice(alloc, ordered.keys.as_slice());
    sorted(alloc, keys, translate_query(alloc, schema, &ordered.query))
}

/// The tree of a query without ORDER BY. Refuses for want of memory alone.
#[cycle(translations)]
#[tactic(auto, using(crate::proofs::TreeNodes::tree_nodes))]
pub fn translate_query(alloc: Global, schema: &Schema, query: &Query) -> Result<Tree, AllocError>
    ensures translated { IfOk result (λ tree. tree ≡ tree_of_query (described_in schema.now) query.now) }
{
    match query {
        Query::Select(chosen) => select(alloc, schema, chosen.get()),
        Query::Combined(first, others) => {
            let first = translate_query(alloc, schema, first.get())?;
            combined(alloc, schema, others, first)
        }
    }
}

#[cycle(translations)]
#[tactic(auto, using(crate::proofs::TreeNodes::tree_nodes))]
pub fn boxed_query(
    alloc: Global,
    schema: &Schema,
    query: &Boxed<Query>,
) -> Result<Boxed<Tree>, AllocError>
    ensures { IfOk result (λ tree. tree ≡ tree_of_query (described_in schema.now) query.now) }
{
    boxed(alloc, translate_query(alloc, schema, query.get()))
}

/// A chain of set operators after its first operand.
#[cycle(translations)]
#[tactic(auto, using(crate::proofs::TreeNodes::tree_nodes))]
fn combined(
    alloc: Global,
    schema: &Schema,
    others: &Items<(SetOperation, Query)>,
    first: Tree,
) -> Result<Tree, AllocError>
    ensures { IfOk result (λ tree. tree ≡ set_tree first (map (λ other. (other.0, tree_of_query (described_in schema.now) other.1)) others.now)) }
{
    let mut tree = first;
    for (operation, operand) in others.as_slice() {
        tree = set(
            alloc,
            *operation,
            tree,
            translate_query(alloc, schema, operand),
        )?;
    }
    Ok(tree)
}

#[cycle(translations)]
#[tactic(auto, using(crate::proofs::TreeNodes::tree_nodes))]
fn select(alloc: Global, schema: &Schema, select: &Select) -> Result<Tree, AllocError>
    ensures { IfOk result (λ tree. tree ≡ tree_of_select (described_in schema.now) select.now) }
{
    let tree = source(alloc, schema, &select.from);
    let tree = filtered(alloc, schema, &select.filter, tree);
    let tree = grouped(alloc, schema, &select.grouping, tree);
    let tree = project(alloc, select_list(alloc, schema, &select.items), tree);
    if select.distinct {
        distinct(alloc, tree)
    } else {
        tree
    }
}

#[cycle(translations)]
#[tactic(auto, using(crate::proofs::TreeNodes::tree_nodes))]
fn source(alloc: Global, schema: &Schema, source_of: &Source) -> Result<Tree, AllocError>
    ensures { IfOk result (λ tree. tree ≡ tree_of_source (described_in schema.now) source_of.now) }
{
    match source_of {
        Source::Table(name) => Ok(Tree::Scan(describe(alloc, schema, name)?)),
        Source::Derived(query) => translate_query(alloc, schema, query.get()),
        Source::Product(left, right) => {
            let left = source(alloc, schema, left.get());
            product(alloc, left, source(alloc, schema, right.get()))
        }
        Source::Inner(on, left, right) => {
            let on = translate_condition(alloc, schema, on.get());
            let left = source(alloc, schema, left.get());
            inner(alloc, on, left, source(alloc, schema, right.get()))
        }
        Source::Left {
            on,
            left,
            right,
            width,
        } => {
            let on = translate_condition(alloc, schema, on.get());
            let left = source(alloc, schema, left.get());
            left_join(alloc, on, left, source(alloc, schema, right.get()), *width)
        }
    }
}

/// A filter, where there is one.
#[cycle(translations)]
#[tactic(auto, using(crate::proofs::TreeNodes::tree_nodes))]
fn filtered(
    alloc: Global,
    schema: &Schema,
    condition: &Option<Condition>,
    tree: Result<Tree, AllocError>,
) -> Result<Tree, AllocError>
    ensures { (x : Rows) → IfOk tree (λ a. a ≡ x)
        → IfOk result (λ made. made ≡ filter_tree (option_map (tree_of_condition (described_in schema.now)) condition.now) x) }
{
    match condition {
        None => tree,
        Some(condition) => filter(alloc, translate_condition(alloc, schema, condition), tree),
    }
}

/// Groups, where the SELECT is grouped.
#[cycle(translations)]
#[tactic(auto, using(crate::proofs::TreeNodes::tree_nodes))]
fn grouped(
    alloc: Global,
    schema: &Schema,
    grouping: &Option<Grouping>,
    tree: Result<Tree, AllocError>,
) -> Result<Tree, AllocError>
    ensures { (x : Rows) → IfOk tree (λ a. a ≡ x)
        → IfOk result (λ made. made ≡ grouped_tree (option_map (tree_of_grouping (described_in schema.now)) grouping.now) x) }
{
    match grouping {
        None => tree,
        Some(grouping) => {
            let columns = copied_columns(alloc, &grouping.columns);
            let functions = set_functions(alloc, schema, &grouping.functions);
            let tree = group(alloc, columns, functions, tree);
            filtered(alloc, schema, &grouping.having, tree)
        }
    }
}

fn copied_columns(
    alloc: Global,
    columns: &Option<Items<usize>>,
) -> Result<Option<Items<usize>>, AllocError>
    ensures { IfOk result (λ copied. copied ≡ columns.now) }
{
    match columns {
        None => Ok(None),
        Some(columns) => Ok(Some(Items::from_slice(alloc, columns.as_slice())?)),
    }
}
