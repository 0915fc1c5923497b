//! The lines of steps.

ghost use Rattle.std.specs.Prelude.{◌≡◌, ◌++◌, map, IsTrue, IfOk, OnOk};
ghost use Rattle.std.specs.List.{flat_map, list_all};
ghost use Rattle.items.specs.Text.{is_character};
ghost use Rattle.plan_lines.specs.Lines.{next_place, path_word, rule_word, shown, step_line, step_lines};

use crate::line::Line;
use items::{Items, Text};
use rules::{Rule, Step};
use std::alloc::{AllocError, Global};

/// Puts a line for each step behind those that are there.
pub(crate) fn put_steps(
    alloc: Global,
    steps: &[Step],
    lines: &mut Items<Text>,
) -> Result<(), AllocError>
    ensures { OnOk result (lines.new ≡ lines.old ++ map shown (step_lines steps.now)) }
{
    for step in steps {
        lines.push(step_text(alloc, step)?)?;
    }
    Ok(())
}

fn step_text(alloc: Global, step: &Step) -> Result<Text, AllocError>
    ensures { IfOk result (λ text. text ≡ shown (step_line step.now)) }
{
    let mut line = Line::new(alloc);
    line.put(rule_word(step.rule))?;
    line.put(b" ")?;
    put_path(&mut line, step.path.places.as_slice())?;
    Ok(line.into_text())
}

fn put_path(line: &mut Line, places: &[usize]) -> Result<(), AllocError>
    ensures { OnOk result (line.new ≡ line.old ++ path_word places.now) }
{
    match places.split_first() {
        None => line.put(b"."),
        Some((first, others)) => {
            line.put_number(*first)?;
            put_places(line, others)
        }
    }
}

/// Puts places that are not the first of a path.
fn put_places(line: &mut Line, places: &[usize]) -> Result<(), AllocError>
    ensures { OnOk result (line.new ≡ line.old ++ flat_map next_place places.now) }
{
    for place in places {
        line.put(b".")?;
        line.put_number(*place)?;
    }
    Ok(())
}

fn rule_word(rule: Rule) -> &'static [u8]
    ensures word { result.now ≡ rule_word rule }
    ensures characters { IsTrue (list_all is_character result.now) }
{
    match rule {
        Rule::SplitFilter => b"Q1",
        Rule::FilterBelowProduct => b"Q2",
        Rule::FilterLeftOfLeftJoin => b"Q3",
        Rule::OnIntoRightSide => b"Q4",
        Rule::ProductToInner => b"Q5",
        Rule::RegroupInner => b"Q6",
        Rule::LeftToInner => b"Q7",
        Rule::FilterToSeek => b"Q8",
        Rule::FilterToRange => b"Q9",
        Rule::InnerToHashJoin => b"Q10",
        Rule::InnerToIndexLoop => b"Q11",
        Rule::DropDistinct => b"Q12",
        Rule::ExistsToHalf => b"Q13",
        Rule::InToMember => b"Q14",
        Rule::SortToRange => b"Q15",
        Rule::PreFilter => b"Q16",
    }
}
