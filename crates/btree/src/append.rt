//! Many entries put in.

ghost use Rattle.std.specs.Prelude.{◌≡◌, ◌≤◌, IfErr, OnOk};
ghost use Rattle.std.specs.List.{AllByRecursion};
ghost use Rattle.page_space.specs.Space.{ChangeRefused};
ghost use Rattle.btree_read.specs.Nodes.{IsSmall};
ghost use Rattle.btree.specs.Overfull.{IsNoTreeIn};
ghost use Rattle.btree.specs.Written.{InsertsAll, Appends, KeepsPages};

use crate::insertion::insert;
use crate::run::append_run;
use btree_read::Entry;
use page_space::{PageSpace, SpaceError};
use std::alloc::Global;

/// Puts entries into a tree, one after another, each in place of one with its key, and answers the
/// root. Where they stand in order behind all that the tree has, they are then behind them, and the
/// pages that they fill stay full: behind each that is put in by itself, as many at once as the last
/// leaf has room for. Each is as small as `insert` asks. Refused as `insert` is.
pub fn insert_all<S: PageSpace>(
    space: &mut S,
    alloc: Global,
    root: u32,
    entries: &[Entry],
) -> Result<u32, SpaceError>
    requires { AllByRecursion IsSmall entries.now }
    ensures inserts { InsertsAll (S.pages space.old) (S.pages space.new) root entries.now result }
    ensures appends { Appends (S.pages space.old) (S.pages space.new) root entries.now result }
    ensures keeps { KeepsPages (S.pages space.old) (S.pages space.new) root result }
    ensures whole { OnOk result (S.is_whole space.old → S.is_whole space.new) }
    ensures refusal { IfErr result (ChangeRefused (S.at_limit space.new) (IsNoTreeIn (S.pages space.old) root (S.is_whole space.old)) (S.refused space.old) (S.refused space.new)) }
    ensures rising { S.refused space.old ≤ S.refused space.new }
    ensures follows { S.follows space.old space.new }
{
    let mut top = root;
    let mut done = 0;
    'entries: while done < entries.len() {
        let entry = &entries[done];
        top = insert(
            space,
            alloc,
            top,
            entry.key.as_slice(),
            entry.value.as_slice(),
        )?;
        done += 1;
        done += append_run(space, alloc, top, &entries[done..])?;
    }
    Ok(top)
}
