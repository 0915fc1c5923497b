//! Rules by what is known of a table's rows: Q12 and Q15.

ghost use Rattle.std.specs.Prelude.{◌≡◌, ℕ, List, map, is_some, Some, None, IfOk};
ghost use Rattle.std.specs.List.{list_all, position_from};
ghost use Rattle.std.specs.Option.{option_copied, option_map};
ghost use Rattle.algebra.specs.OrderKeys.{column_of, handed_on, is_column};
ghost use Rattle.algebra.specs.Sorted.{ascending};
ghost use Rattle.algebra.specs.declared.tree.Tree.{Tree};
ghost use Rattle.algebra.specs.declared.tree.Tree.TheVariants as t;
ghost use Rattle.rules.specs.Nodes.{first_found};
ghost use Rattle.rules.specs.OrderRules.{drop_distinct, has_key, is_item, key_in, keys_begin, ordered_by, sort_to_range, source_of};
ghost use Rattle.rule_steps.specs.Found.{order_by, own_column};

use algebra::{Expression, StoredTable, Tree};
use items::{Boxed, Items};
use std::alloc::{AllocError, Global};
use typing::OrderKey;

// ---- Q12

/// Whether Q12 may be used: DISTINCT stands above items of a table, or of filters of one, and all
/// columns of its primary key are among the items.
#[tactic(auto, using(crate::proofs::Nodes::nodes, crate::proofs::Chosen::chosen))]
pub fn can_drop_distinct(tree: &Tree) -> bool
    ensures { result ≡ is_some (drop_distinct tree.now) }
{
    match tree {
        Tree::Distinct(below) => match below.get() {
            Tree::Project(items, rows) => has_key(items.as_slice(), source_of(rows.get())),
            _ => false,
        },
        _ => false,
    }
}

/// The table whose rows a tree gives, each once at most.
#[tactic(auto, using(crate::proofs::Sources::sources))]
fn source_of(tree: &Tree) -> Option<&StoredTable>
    ensures { option_copied result ≡ source_of tree.now }
{
    match tree {
        Tree::Scan(table) => Some(table),
        Tree::Seek { table, .. } => Some(table),
        Tree::Range { table, .. } => Some(table),
        Tree::Filter(_, rows) => source_of(rows.get()),
        Tree::Product(_, _) => None,
        Tree::Inner(_, _, _) => None,
        Tree::Left { .. } => None,
        Tree::Half(_, _, _) => None,
        Tree::OppositeHalf(_, _, _) => None,
        Tree::Group { .. } => None,
        Tree::Project(_, _) => None,
        Tree::Distinct(_) => None,
        Tree::Set(_, _, _) => None,
        Tree::Sort(_, _) => None,
        Tree::IndexLoop { .. } => None,
        Tree::HashJoin { .. } => None,
        Tree::Member { .. } => None,
    }
}

fn has_key(items: &[Expression], source: Option<&StoredTable>) -> bool
    ensures { result ≡ has_key items.now (option_copied source.entry) }
{
    match source {
        Some(table) => key_in(items, &table.key),
        None => false,
    }
}

fn key_in(items: &[Expression], key: &Option<Items<usize>>) -> bool
    ensures { result ≡ key_in items.now key.now }
{
    match key {
        Some(columns) => all_items(items, columns.as_slice()),
        None => false,
    }
}

fn all_items(items: &[Expression], columns: &[usize]) -> bool
    ensures { result ≡ list_all (is_item items.now) columns.now }
{
    for column in columns {
        if !is_item(items, *column) {
            return false;
        }
    }
    true
}

fn is_item(items: &[Expression], column: usize) -> bool
    ensures { result ≡ is_item items.now column }
{
    for item in items {
        if is_column(column, item) {
            return true;
        }
    }
    false
}

/// Whether an item is this column of the row itself.
#[tactic(auto, using(crate::proofs::Sources::columns))]
fn is_column(column: usize, item: &Expression) -> bool
    ensures { result ≡ is_column column (column_of item.now) }
{
    match item {
        Expression::Column { depth, place } => is_own(column, *depth, *place),
        Expression::Constant(_) => false,
        Expression::Calculation(_, _) => false,
        Expression::Concatenation(_, _) => false,
        Expression::Negation(_) => false,
        Expression::Scalar(_) => false,
    }
}

fn is_own(column: usize, depth: usize, place: usize) -> bool
    ensures { result ≡ is_column column (own_column depth place) }
{
    match depth {
        0 => column == place,
        _ => false,
    }
}

/// Q12: the items alone.
#[tactic(auto, using(crate::proofs::Nodes::nodes))]
pub fn drop_distinct(tree: Tree) -> Tree
    ensures { (new : Tree) → drop_distinct tree ≡ Some new → result ≡ new }
{
    match tree {
        Tree::Distinct(below) => match below.into_inner() {
            Tree::Project(items, rows) => Tree::Project(items, rows),
            other => other,
        },
        other => other,
    }
}

// ---- Q15

/// Whether Q15 may be used: a sort stands above items of a table, and its keys are those of an
/// index as far as the items hand them on.
#[tactic(auto, using(crate::proofs::Nodes::nodes))]
pub fn can_go_in_order(tree: &Tree) -> bool
    ensures { result ≡ is_some (sort_to_range tree.now) }
{
    match tree {
        Tree::Sort(keys, below) => match below.get() {
            Tree::Project(items, rows) => match rows.get() {
                Tree::Scan(table) => serves_order(keys.as_slice(), items.as_slice(), table),
                _ => false,
            },
            _ => false,
        },
        _ => false,
    }
}

fn serves_order(keys: &[OrderKey], items: &[Expression], table: &StoredTable) -> bool
    ensures { result ≡ is_some (first_found (ordered_by keys.now items.now table.now) table.now.indexes) }
{
    has_order(keys, items, table)
}

fn has_order(keys: &[OrderKey], items: &[Expression], table: &StoredTable) -> bool
    ensures { result ≡ is_some (first_found (order_by keys.now items.now) table.now.indexes) }
{
    index_in_order(keys, items, table.indexes.as_slice()).is_some()
}

/// The first index whose order the items hand on as it is asked for.
fn index_in_order<'a>(
    keys: &[OrderKey],
    items: &[Expression],
    indexes: &'a [Items<usize>],
) -> Option<&'a Items<usize>>
    ensures { option_copied result ≡ first_found (order_by keys.now items.now) indexes.now }
{
    for columns in indexes {
        if keys_begin(keys, items, columns.as_slice()) {
            return Some(columns);
        }
    }
    None
}

/// Whether the order of these columns, as far as the items hand it on, begins with these keys.
fn keys_begin(keys: &[OrderKey], items: &[Expression], columns: &[usize]) -> bool
    ensures { result ≡ keys_begin keys.now (handed_on (map column_of items.now) (ascending columns.now)) }
{
    let mut columns = columns;
    for key in keys {
        let Some((column, rest)) = columns.split_first() else {
            return false;
        };
        let Some(place) = place_of(items, *column) else {
            return false;
        };
        if !(key.place == place && !key.descending) {
            return false;
        }
        columns = rest;
    }
    true
}

/// The first place at which an item is this column.
fn place_of(items: &[Expression], column: usize) -> Option<usize>
    ensures { result ≡ position_from (is_column column) 0 (map column_of items.now) }
{
    let mut place = 0;
    for item in items {
        if is_column(column, item) {
            return Some(place);
        }
        place += 1;
    }
    None
}

/// Q15: the items of a range in the order of the first index that serves.
#[tactic(auto, using(crate::proofs::Nodes::nodes))]
pub fn go_in_order(alloc: Global, tree: Tree) -> Result<Tree, AllocError>
    ensures { (new : Tree) → sort_to_range tree ≡ Some new → IfOk result (λ made. made ≡ new) }
{
    match tree {
        Tree::Sort(keys, below) => match below.into_inner() {
            Tree::Project(items, rows) => match rows.into_inner() {
                Tree::Scan(table) => in_order(alloc, keys.as_slice(), items, table),
                other => Ok(other),
            },
            other => Ok(other),
        },
        other => Ok(other),
    }
}

fn in_order(
    alloc: Global,
    keys: &[OrderKey],
    items: Items<Expression>,
    table: StoredTable,
) -> Result<Tree, AllocError>
    ensures { (new : Tree)
        → option_map (λ columns. t.Project items (t.Range table columns None None)) (first_found (order_by keys.now items) table.indexes) ≡ Some new
        → IfOk result (λ made. made ≡ new) }
{
    match columns_in_order(alloc, keys, items.as_slice(), table.indexes.as_slice()) {
        Ok(columns) => ordered(alloc, items, table, columns),
        Err(error) => Err(error),
    }
}

/// A copy of the columns of that index.
fn columns_in_order(
    alloc: Global,
    keys: &[OrderKey],
    items: &[Expression],
    indexes: &[Items<usize>],
) -> Result<Items<usize>, AllocError>
    ensures { (columns : List ℕ) → first_found (order_by keys.now items.now) indexes.now ≡ Some columns
        → IfOk result (λ made. made ≡ columns) }
{
    match index_in_order(keys, items, indexes) {
        Some(columns) => Items::from_slice(alloc, columns.as_slice()),
        None => Ok(Items::new(alloc)),
    }
}

fn ordered(
    alloc: Global,
    items: Items<Expression>,
    table: StoredTable,
    columns: Items<usize>,
) -> Result<Tree, AllocError>
    ensures { IfOk result (λ made. made ≡ t.Project items (t.Range table columns None None)) }
{
    let rows = Tree::Range {
        table,
        columns,
        low: None,
        high: None,
    };
    Ok(Tree::Project(items, Boxed::new(alloc, rows)?))
}
