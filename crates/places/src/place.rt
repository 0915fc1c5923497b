//! How far the list of a plan was given.
ghost use Rattle.denote.specs.Condition.{first_column};
ghost use Rattle.key_tables.specs.Among.{AreMembers};
ghost use Rattle.key_tables.specs.Digests.{AreKeysOf};

use denote::{Fault, Row, Rows};
use items::{Boxed, Items};
use key_tables::{KeptKeys, Members as Values};
use std::vec::IntoIter;
use store::Position;

/// Right rows that a join keeps: those of a left row are the ones whose `columns` equal its
/// `places`. Beside them stand their keys, which tell which rows these are.
#[derive(Drop)]
pub struct KeyedRows {
    pub places: Items<usize>,
    pub columns: Items<usize>,
    pub rows: Rows,
    pub keys: KeptKeys,
    ghost keyed: { AreKeysOf keys columns rows },
}

/// What IN looks for: rows, and the fault that ends their list; beside them what decides it.
#[derive(Drop)]
pub struct Members {
    pub rows: Rows,
    pub fault: Option<Fault>,
    pub values: Values,
    ghost decides: { AreMembers values (first_column rows) },
}

/// How far the list of a plan was given. It keeps rows, row numbers and keys, and nothing that is
/// borrowed.
///
/// A place stands beside its plan. One that is none of the plan's node is the beginning.
#[cycle(places)]
#[derive(Drop)]
pub enum Place {
    /// Nothing was given yet, by whatever node it is.
    Start,
    /// Of a `Scan` or a `Seek`: the row of this number was the last.
    After(u64),
    /// Of a `Range`: the row at this place of the index was the last.
    Beyond(Position),
    /// Of a `Filter` or a `Project`: the place of the tree below.
    Through(Boxed<Place>),
    /// Of a `Member`: what IN looks for, and the place of the tree whose rows it keeps.
    Among(Members, Boxed<Place>),
    /// Of a `Distinct`: the rows that were given, and the place of the tree below.
    Seen(Rows, Boxed<Place>),
    /// Of a join that reads its right side anew for each left row: that side is run through once
    /// before the first row, since a fault of it stands before all rows. The place of that side.
    Testing(Boxed<Place>),
    /// Of such a join, or an `IndexLoop`: the place of the left side, the left rows that were read
    /// ahead, the one whose right rows are being read, whether it had a match, and the place of
    /// its right side.
    Pairs {
        left: Boxed<Place>,
        ahead: IntoIter<Row>,
        row: Option<Row>,
        matched: bool,
        right: Boxed<Place>,
    },
    /// Of a join that keeps its right rows by keys: as `Pairs`, but for the right side how many of
    /// the row's right rows were tried.
    Keyed {
        left: Boxed<Place>,
        ahead: IntoIter<Row>,
        row: Option<Row>,
        matched: bool,
        tried: usize,
        side: KeyedRows,
    },
    /// Of what takes its parts whole: the rows that are left, and the fault that ends them.
    Kept(IntoIter<Row>, Option<Fault>),
    /// No row is left, of whatever node; the fault that ended the list.
    Ended(Option<Fault>),
}
