//! Queries, and the tables that they read.

ghost use Rattle.std.specs.Prelude.{◌≡◌, IfOk};

use crate::conditions::{copy_boxed_condition, copy_condition};
use crate::expressions::copy_expression;
use crate::parts::{Part, both, boxed, five, pushed, some, with};
use ast::{
    Addend, Condition, Join, Operand, Query, Select, SelectItem, SetOperator, TableReference,
    TableSource,
};
use items::{Boxed, Items};
use std::alloc::{AllocError, Global};

/// A copy of a query. Refuses for want of memory alone.
#[cycle(copies)]
pub fn copy_query(query: &Query, alloc: Global) -> Result<Query, AllocError>
    ensures copied { IfOk result (λ copied. copied ≡ query.now) }
{
    let first = copy_addend(&query.first, alloc);
    let (first, others) = both(first, copy_addends(&query.others, alloc))?;
    Ok(Query { first, others })
}

#[cycle(copies)]
pub fn copy_boxed_query(query: &Boxed<Query>, alloc: Global) -> Result<Boxed<Query>, AllocError>
    ensures { IfOk result (λ copied. copied ≡ query.now) }
{
    boxed(alloc, copy_query(query.get(), alloc))
}

#[cycle(copies)]
fn copy_addends(
    others: &Items<(SetOperator, Addend)>,
    alloc: Global,
) -> Result<Items<(SetOperator, Addend)>, AllocError>
    ensures { IfOk result (λ copied. copied ≡ others.now) }
{
    let mut copied = Items::new(alloc);
    for (operator, addend) in others.as_slice() {
        copied = pushed(copied, with(*operator, copy_addend(addend, alloc)))?;
    }
    Ok(copied)
}

#[cycle(copies)]
fn copy_addend(addend: &Addend, alloc: Global) -> Result<Addend, AllocError>
    ensures { IfOk result (λ copied. copied ≡ addend.now) }
{
    let first = copy_operand(&addend.first, alloc);
    let (first, others) = both(first, copy_operands(&addend.others, alloc))?;
    Ok(Addend { first, others })
}

#[cycle(copies)]
fn copy_operands(
    others: &Items<(bool, Operand)>,
    alloc: Global,
) -> Result<Items<(bool, Operand)>, AllocError>
    ensures { IfOk result (λ copied. copied ≡ others.now) }
{
    let mut copied = Items::new(alloc);
    for (has_all, operand) in others.as_slice() {
        copied = pushed(copied, with(*has_all, copy_operand(operand, alloc)))?;
    }
    Ok(copied)
}

#[cycle(copies)]
fn copy_operand(operand: &Operand, alloc: Global) -> Result<Operand, AllocError>
    ensures { IfOk result (λ copied. copied ≡ operand.now) }
{
    match operand {
        Operand::Select(select) => Ok(Operand::Select(copy_boxed_select(select, alloc)?)),
        Operand::Grouped(query) => Ok(Operand::Grouped(copy_boxed_query(query, alloc)?)),
    }
}

#[cycle(copies)]
fn copy_boxed_select(select: &Boxed<Select>, alloc: Global) -> Result<Boxed<Select>, AllocError>
    ensures { IfOk result (λ copied. copied ≡ select.now) }
{
    boxed(alloc, copy_select(select.get(), alloc))
}

#[cycle(copies)]
fn copy_select(select: &Select, alloc: Global) -> Result<Select, AllocError>
    ensures { IfOk result (λ copied. copied ≡ select.now) }
{
    let (items, from, filter, groups, having) = five(
        copy_select_items(&select.items, alloc),
        copy_table_references(&select.from, alloc),
        copy_filter(&select.filter, alloc),
        select.groups.copy(alloc),
        copy_filter(&select.having, alloc),
    )?;
    Ok(Select {
        quantifier: select.quantifier,
        items,
        from,
        filter,
        groups,
        having,
    })
}

#[cycle(copies)]
fn copy_select_items(
    items: &Option<Items<SelectItem>>,
    alloc: Global,
) -> Result<Option<Items<SelectItem>>, AllocError>
    ensures { IfOk result (λ copied. copied ≡ items.now) }
{
    let Some(items) = items else {
        return Ok(None);
    };
    let mut copied = Items::new(alloc);
    for item in items.as_slice() {
        copied = pushed(copied, copy_select_item(item, alloc))?;
    }
    Ok(Some(copied))
}

#[cycle(copies)]
fn copy_select_item(item: &SelectItem, alloc: Global) -> Result<SelectItem, AllocError>
    ensures { IfOk result (λ copied. copied ≡ item.now) }
{
    let value = copy_expression(&item.value, alloc);
    let (value, alias) = both(value, item.alias.copy(alloc))?;
    Ok(SelectItem { value, alias })
}

#[cycle(copies)]
fn copy_table_references(
    references: &Items<TableReference>,
    alloc: Global,
) -> Result<Items<TableReference>, AllocError>
    ensures { IfOk result (λ copied. copied ≡ references.now) }
{
    let mut copied = Items::new(alloc);
    for reference in references.as_slice() {
        copied = pushed(copied, copy_table_reference(reference, alloc))?;
    }
    Ok(copied)
}

#[cycle(copies)]
fn copy_table_reference(
    reference: &TableReference,
    alloc: Global,
) -> Result<TableReference, AllocError>
    ensures { IfOk result (λ copied. copied ≡ reference.now) }
{
    let first = copy_table_source(&reference.first, alloc);
    let (first, joins) = both(first, copy_joins(&reference.joins, alloc))?;
    Ok(TableReference { first, joins })
}

#[cycle(copies)]
fn copy_joins(joins: &Items<Join>, alloc: Global) -> Result<Items<Join>, AllocError>
    ensures { IfOk result (λ copied. copied ≡ joins.now) }
{
    let mut copied = Items::new(alloc);
    for join in joins.as_slice() {
        copied = pushed(copied, copy_join(join, alloc))?;
    }
    Ok(copied)
}

#[cycle(copies)]
fn copy_join(join: &Join, alloc: Global) -> Result<Join, AllocError>
    ensures { IfOk result (λ copied. copied ≡ join.now) }
{
    match join {
        Join::Cross(source) => Ok(Join::Cross(copy_table_source(source, alloc)?)),
        Join::Inner(has_inner, source, condition) => {
            let source = copy_table_source(source, alloc);
            let (source, condition) = both(source, copy_boxed_condition(condition, alloc))?;
            Ok(Join::Inner(*has_inner, source, condition))
        }
        Join::Left(has_outer, source, condition) => {
            let source = copy_table_source(source, alloc);
            let (source, condition) = both(source, copy_boxed_condition(condition, alloc))?;
            Ok(Join::Left(*has_outer, source, condition))
        }
    }
}

#[cycle(copies)]
fn copy_table_source(source: &TableSource, alloc: Global) -> Result<TableSource, AllocError>
    ensures { IfOk result (λ copied. copied ≡ source.now) }
{
    match source {
        TableSource::Table(name, alias) => {
            let (name, alias) = both(name.copy(alloc), alias.copy(alloc))?;
            Ok(TableSource::Table(name, alias))
        }
        TableSource::Derived(query, alias) => {
            let (query, alias) = both(copy_boxed_query(query, alloc), alias.copy(alloc))?;
            Ok(TableSource::Derived(query, alias))
        }
    }
}

/// A condition after its word, where that is written.
#[cycle(copies)]
fn copy_filter(
    condition: &Option<Boxed<Condition>>,
    alloc: Global,
) -> Result<Option<Boxed<Condition>>, AllocError>
    ensures { IfOk result (λ copied. copied ≡ condition.now) }
{
    match condition {
        None => Ok(None),
        Some(condition) => some(boxed(alloc, copy_condition(condition.get(), alloc))),
    }
}
