//! Rows exchanged in each index of a table.
ghost use Rattle.std.specs.Prelude.{◌≡◌, ◌≤◌, ◌++◌, map, IfOk, IfErr, OnOk, Bool, false};
ghost use Rattle.denote.specs.SchemaOf.{index_of};
ghost use Rattle.store.specs.Errors.{HasLongKey};
ghost use Rattle.database_trees.specs.Changed.{SpaceRefused, Reaches};
ghost use Rattle.database_trees.specs.Exchanged.{AreExchangeable, AreExchanged};

use crate::DatabaseError;
use crate::exchange::{Exchange, exchange_rows};
use items::Items;
use page_space::PageSpace;
use sqlval::Index;
use std::alloc::Global;

/// Exchanges rows in each of these indexes, and answers the roots.
pub(crate) fn exchange_each<S: PageSpace>(
    space: &mut S,
    alloc: Global,
    indexes: &Items<Index>,
    exchange: &Exchange,
) -> Result<Items<u32>, DatabaseError>
    ensures exchanged { (alone : Bool) (h : AreExchangeable alone (S.pages space.old) indexes.now exchange.now)
        → IfOk result (AreExchanged alone (S.pages space.new) h.before indexes.now h.behind (h.left ++ h.more)) }
    ensures limits { IfErr result (Reaches ⊥ (HasLongKey (map index_of indexes.now) exchange.now.put.rows) ⊥) }
    ensures whole { OnOk result (S.is_whole space.old → S.is_whole space.new) }
    ensures refusal { IfErr result (SpaceRefused (S.at_limit space.new) (AreExchangeable false (S.pages space.old) indexes.now exchange.now
        → S.is_whole space.old → ⊥) (S.refused space.old) (S.refused space.new)) }
    ensures rising { S.refused space.old ≤ S.refused space.new }
    ensures follows { S.follows space.old space.new }
{
    let mut roots = Items::new(alloc);
    for index in indexes.as_slice() {
        let top = exchange_rows(space, alloc, index.root, index.columns.as_slice(), exchange)?;
        roots.push(top)?;
    }
    Ok(roots)
}
