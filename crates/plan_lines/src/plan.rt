//! The lines of a plan.

ghost use Rattle.std.specs.Prelude.{◌≡◌, ◌++◌, ◌∷◌, [], codes, IsTrue, IfOk, OnOk};
ghost use Rattle.std.specs.List.{list_all};
ghost use Rattle.items.specs.Text.{is_character};
ghost use Rattle.plan_lines.specs.Lines.{plan_lines, with_table};
ghost use Rattle.plan_lines.specs.Margin.{Adds, behind, root_line};

use crate::line::Line;
use algebra::{StoredTable, Tree};
use items::{Items, Text};
use std::alloc::{AllocError, Global};

/// Puts the lines of a plan behind those that are there, each with the margin in front.
#[tactic(auto, using(crate::proofs::Nodes::plan_nodes))]
pub(crate) fn put_plan(
    alloc: Global,
    plan: &Tree,
    margin: &Line,
    lines: &mut Items<Text>,
) -> Result<(), AllocError>
    ensures { OnOk result (Adds margin.now (plan_lines plan.now) lines.old lines.new) }
{
    let inner = put_root(alloc, plan, margin, lines)?;
    match plan {
        Tree::Scan(_) => Ok(()),
        Tree::Filter(_, rows) => put_plan(alloc, rows.get(), &inner, lines),
        Tree::Product(left, right) => {
            put_plan(alloc, left.get(), &inner, lines)?;
            put_plan(alloc, right.get(), &inner, lines)
        }
        Tree::Inner(_, left, right) => {
            put_plan(alloc, left.get(), &inner, lines)?;
            put_plan(alloc, right.get(), &inner, lines)
        }
        Tree::Left { left, right, .. } => {
            put_plan(alloc, left.get(), &inner, lines)?;
            put_plan(alloc, right.get(), &inner, lines)
        }
        Tree::Half(_, left, right) => {
            put_plan(alloc, left.get(), &inner, lines)?;
            put_plan(alloc, right.get(), &inner, lines)
        }
        Tree::OppositeHalf(_, left, right) => {
            put_plan(alloc, left.get(), &inner, lines)?;
            put_plan(alloc, right.get(), &inner, lines)
        }
        Tree::Group { rows, .. } => put_plan(alloc, rows.get(), &inner, lines),
        Tree::Project(_, rows) => put_plan(alloc, rows.get(), &inner, lines),
        Tree::Distinct(rows) => put_plan(alloc, rows.get(), &inner, lines),
        Tree::Set(_, left, right) => {
            put_plan(alloc, left.get(), &inner, lines)?;
            put_plan(alloc, right.get(), &inner, lines)
        }
        Tree::Sort(_, rows) => put_plan(alloc, rows.get(), &inner, lines),
        Tree::Seek { .. } => Ok(()),
        Tree::Range { .. } => Ok(()),
        Tree::IndexLoop { left, .. } => put_plan(alloc, left.get(), &inner, lines),
        Tree::HashJoin { left, right, .. } => {
            put_plan(alloc, left.get(), &inner, lines)?;
            put_plan(alloc, right.get(), &inner, lines)
        }
        Tree::Member { members, rows, .. } => {
            put_plan(alloc, rows.get(), &inner, lines)?;
            put_plan(alloc, members.get(), &inner, lines)
        }
    }
}

/// Puts the line of the root of a plan, and gives the margin of what stands below it.
fn put_root(
    alloc: Global,
    plan: &Tree,
    margin: &Line,
    lines: &mut Items<Text>,
) -> Result<Line, AllocError>
    ensures line { OnOk result (lines.new ≡ lines.old ++ behind margin.now (root_line plan.now) ∷ []) }
    ensures inner { IfOk result (λ inner. inner ≡ margin.now ++ codes "  ") }
{
    let mut line = margin.copy(alloc)?;
    put_line(&mut line, plan)?;
    lines.push(line.into_text())?;
    let mut inner = margin.copy(alloc)?;
    inner.put(b"  ")?;
    Ok(inner)
}

#[tactic(auto, using(crate::proofs::Nodes::line_nodes))]
fn put_line(line: &mut Line, plan: &Tree) -> Result<(), AllocError>
    ensures { OnOk result (line.new ≡ line.old ++ root_line plan.now) }
{
    match plan {
        Tree::Scan(table) => put_with_table(line, b"Scan", table),
        Tree::Filter(_, _) => line.put(b"Filter"),
        Tree::Product(_, _) => line.put(b"Product"),
        Tree::Inner(_, _, _) => line.put(b"Inner"),
        Tree::Left { .. } => line.put(b"Left"),
        Tree::Half(_, _, _) => line.put(b"Half"),
        Tree::OppositeHalf(_, _, _) => line.put(b"HalfNot"),
        Tree::Group { .. } => line.put(b"Group"),
        Tree::Project(_, _) => line.put(b"Project"),
        Tree::Distinct(_) => line.put(b"Distinct"),
        Tree::Set(_, _, _) => line.put(b"Set"),
        Tree::Sort(_, _) => line.put(b"Sort"),
        Tree::Seek { table, .. } => put_with_table(line, b"Seek", table),
        Tree::Range { table, .. } => put_with_table(line, b"Range", table),
        Tree::IndexLoop { table, .. } => put_with_table(line, b"IndexLoop", table),
        Tree::HashJoin { .. } => line.put(b"HashJoin"),
        Tree::Member { .. } => line.put(b"Member"),
    }
}

fn put_with_table(line: &mut Line, word: &[u8], table: &StoredTable) -> Result<(), AllocError>
    requires characters { IsTrue (list_all is_character word.now) }
    ensures { OnOk result (line.new ≡ line.old ++ with_table word.now table.now) }
{
    line.put(word)?;
    line.put(b" ")?;
    line.put(table.name.as_slice())
}
