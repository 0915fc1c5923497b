//! Nodes of trees, made of parts that are taken with their refusals.

ghost use Rattle.std.specs.Prelude.{◌≡◌, ℕ, List, Option, IfOk};
ghost use Rattle.typing.specs.declared.typed.OrderKey.{OrderKey as Key};
ghost use Rattle.algebra.specs.declared.tree.Condition.{Condition as Truth};
ghost use Rattle.algebra.specs.declared.tree.Expression.{Expression as Operand};
ghost use Rattle.algebra.specs.declared.tree.SetFunction.{SetFunction as Function};
ghost use Rattle.algebra.specs.declared.tree.Tree.{Tree as Rows};
ghost use Rattle.algebra.specs.declared.tree.Tree.TheVariants as t;

use crate::parts::{both, three};
use crate::tables::{copied_bound, copied_table, copied_values};
use algebra::{Bound, Condition, Expression, SetFunction, StoredTable, Tree};
use items::{Boxed, Items};
use sqlval::Value;
use std::alloc::{AllocError, Global};
use typing::{OrderKey, SetOperation};

pub fn set_of(
    operation: SetOperation,
    left: Result<Boxed<Tree>, AllocError>,
    right: Result<Boxed<Tree>, AllocError>,
) -> Result<Tree, AllocError>
    ensures { (x y : Rows) → IfOk left (λ a. a ≡ x) → IfOk right (λ b. b ≡ y)
        → IfOk result (λ made. made ≡ t.Set operation x y) }
{
    let (left, right) = both(left, right)?;
    Ok(Tree::Set(operation, left, right))
}

pub fn seek_of(
    alloc: Global,
    table: &StoredTable,
    columns: &Items<usize>,
    key: &Items<Value>,
) -> Result<Tree, AllocError>
    ensures { IfOk result (λ made. made ≡ t.Seek table.now columns.now key.now) }
{
    let table = copied_table(alloc, table);
    let columns = Items::from_slice(alloc, columns.as_slice());
    let (table, columns, key) = three(table, columns, copied_values(alloc, key))?;
    Ok(Tree::Seek {
        table,
        columns,
        key,
    })
}

pub fn range_of(
    alloc: Global,
    table: &StoredTable,
    columns: &Items<usize>,
    low: &Option<Bound>,
    high: &Option<Bound>,
) -> Result<Tree, AllocError>
    ensures { IfOk result (λ made. made ≡ t.Range table.now columns.now low.now high.now) }
{
    let table = copied_table(alloc, table);
    let (table, columns) = both(table, Items::from_slice(alloc, columns.as_slice()))?;
    let (low, high) = both(copied_bound(alloc, low), copied_bound(alloc, high))?;
    Ok(Tree::Range {
        table,
        columns,
        low,
        high,
    })
}

pub fn index_loop_of(
    alloc: Global,
    sides: Result<(Boxed<Condition>, Boxed<Tree>), AllocError>,
    places: &Items<usize>,
    table: &StoredTable,
    columns: &Items<usize>,
) -> Result<Tree, AllocError>
    ensures { (c : Truth) (x : Rows) → IfOk sides (λ a. a.0 ≡ c) → IfOk sides (λ a. a.1 ≡ x)
        → IfOk result (λ made. made ≡ t.IndexLoop c x places.now table.now columns.now) }
{
    let table = copied_table(alloc, table);
    let places = Items::from_slice(alloc, places.as_slice());
    let (table, places, columns) = three(
        table,
        places,
        Items::from_slice(alloc, columns.as_slice()),
    )?;
    let (on, left) = sides?;
    Ok(Tree::IndexLoop {
        on,
        left,
        places,
        table,
        columns,
    })
}

pub fn hash_join_of(
    alloc: Global,
    sides: Result<(Boxed<Condition>, Boxed<Tree>, Boxed<Tree>), AllocError>,
    left_places: &Items<usize>,
    right_places: &Items<usize>,
) -> Result<Tree, AllocError>
    ensures { (c : Truth) (x y : Rows) → IfOk sides (λ a. a.0 ≡ c) → IfOk sides (λ a. a.1 ≡ x)
        → IfOk sides (λ a. a.2 ≡ y) → IfOk result (λ made. made ≡ t.HashJoin c x y left_places.now right_places.now) }
{
    let left_places = Items::from_slice(alloc, left_places.as_slice());
    let (left_places, right_places) = both(
        left_places,
        Items::from_slice(alloc, right_places.as_slice()),
    )?;
    let (on, left, right) = sides?;
    Ok(Tree::HashJoin {
        on,
        left,
        right,
        left_places,
        right_places,
    })
}

pub fn filter_of(
    condition: Result<Boxed<Condition>, AllocError>,
    rows: Result<Boxed<Tree>, AllocError>,
) -> Result<Tree, AllocError>
    ensures { (c : Truth) (x : Rows) → IfOk condition (λ a. a ≡ c) → IfOk rows (λ b. b ≡ x)
        → IfOk result (λ made. made ≡ t.Filter c x) }
{
    let (condition, rows) = both(condition, rows)?;
    Ok(Tree::Filter(condition, rows))
}

pub fn product_of(
    left: Result<Boxed<Tree>, AllocError>,
    right: Result<Boxed<Tree>, AllocError>,
) -> Result<Tree, AllocError>
    ensures { (x y : Rows) → IfOk left (λ a. a ≡ x) → IfOk right (λ b. b ≡ y)
        → IfOk result (λ made. made ≡ t.Product x y) }
{
    let (left, right) = both(left, right)?;
    Ok(Tree::Product(left, right))
}

pub fn inner_of(
    sides: Result<(Boxed<Condition>, Boxed<Tree>, Boxed<Tree>), AllocError>,
) -> Result<Tree, AllocError>
    ensures { (c : Truth) (x y : Rows) → IfOk sides (λ a. a.0 ≡ c) → IfOk sides (λ a. a.1 ≡ x)
        → IfOk sides (λ a. a.2 ≡ y) → IfOk result (λ made. made ≡ t.Inner c x y) }
{
    let (on, left, right) = sides?;
    Ok(Tree::Inner(on, left, right))
}

pub fn left_join_of(
    sides: Result<(Boxed<Condition>, Boxed<Tree>, Boxed<Tree>), AllocError>,
    width: usize,
) -> Result<Tree, AllocError>
    ensures { (c : Truth) (x y : Rows) → IfOk sides (λ a. a.0 ≡ c) → IfOk sides (λ a. a.1 ≡ x)
        → IfOk sides (λ a. a.2 ≡ y) → IfOk result (λ made. made ≡ t.Left c x y width) }
{
    let (on, left, right) = sides?;
    Ok(Tree::Left {
        on,
        left,
        right,
        width,
    })
}

pub fn half_of(
    sides: Result<(Boxed<Condition>, Boxed<Tree>, Boxed<Tree>), AllocError>,
) -> Result<Tree, AllocError>
    ensures { (c : Truth) (x y : Rows) → IfOk sides (λ a. a.0 ≡ c) → IfOk sides (λ a. a.1 ≡ x)
        → IfOk sides (λ a. a.2 ≡ y) → IfOk result (λ made. made ≡ t.Half c x y) }
{
    let (on, left, right) = sides?;
    Ok(Tree::Half(on, left, right))
}

pub fn opposite_half_of(
    sides: Result<(Boxed<Condition>, Boxed<Tree>, Boxed<Tree>), AllocError>,
) -> Result<Tree, AllocError>
    ensures { (c : Truth) (x y : Rows) → IfOk sides (λ a. a.0 ≡ c) → IfOk sides (λ a. a.1 ≡ x)
        → IfOk sides (λ a. a.2 ≡ y) → IfOk result (λ made. made ≡ t.OppositeHalf c x y) }
{
    let (on, left, right) = sides?;
    Ok(Tree::OppositeHalf(on, left, right))
}

pub fn group_of(
    columns: Result<Option<Items<usize>>, AllocError>,
    functions: Result<Items<SetFunction>, AllocError>,
    rows: Result<Boxed<Tree>, AllocError>,
) -> Result<Tree, AllocError>
    ensures { (cs : Option (List ℕ)) (fs : List Function) (x : Rows) → IfOk columns (λ a. a ≡ cs)
        → IfOk functions (λ b. b ≡ fs) → IfOk rows (λ d. d ≡ x) → IfOk result (λ made. made ≡ t.Group cs fs x) }
{
    let (columns, functions, rows) = three(columns, functions, rows)?;
    Ok(Tree::Group {
        columns,
        functions,
        rows,
    })
}

pub fn project_of(
    items: Result<Items<Expression>, AllocError>,
    rows: Result<Boxed<Tree>, AllocError>,
) -> Result<Tree, AllocError>
    ensures { (es : List Operand) (x : Rows) → IfOk items (λ a. a ≡ es) → IfOk rows (λ b. b ≡ x)
        → IfOk result (λ made. made ≡ t.Project es x) }
{
    let (items, rows) = both(items, rows)?;
    Ok(Tree::Project(items, rows))
}

pub fn distinct_of(rows: Result<Boxed<Tree>, AllocError>) -> Result<Tree, AllocError>
    ensures { (x : Rows) → IfOk rows (λ a. a ≡ x) → IfOk result (λ made. made ≡ t.Distinct x) }
{
    Ok(Tree::Distinct(rows?))
}

pub fn sort_of(
    keys: Result<Items<OrderKey>, AllocError>,
    rows: Result<Boxed<Tree>, AllocError>,
) -> Result<Tree, AllocError>
    ensures { (ks : List Key) (x : Rows) → IfOk keys (λ a. a ≡ ks) → IfOk rows (λ b. b ≡ x)
        → IfOk result (λ made. made ≡ t.Sort ks x) }
{
    let (keys, rows) = both(keys, rows)?;
    Ok(Tree::Sort(keys, rows))
}

pub fn member_of(
    operand: Result<Boxed<Expression>, AllocError>,
    negated: bool,
    members: Result<Boxed<Tree>, AllocError>,
    rows: Result<Boxed<Tree>, AllocError>,
) -> Result<Tree, AllocError>
    ensures { (o : Operand) (x y : Rows) → IfOk operand (λ a. a ≡ o) → IfOk members (λ b. b ≡ x)
        → IfOk rows (λ d. d ≡ y) → IfOk result (λ made. made ≡ t.Member o negated x y) }
{
    let (operand, members, rows) = three(operand, members, rows)?;
    Ok(Tree::Member {
        operand,
        negated,
        members,
        rows,
    })
}
