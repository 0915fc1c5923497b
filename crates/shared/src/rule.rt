//! The rule that all passes keep: there is one history, and each caller knows its own calls in it.
ghost use Rattle.std.specs.Prelude.{◌≡◌};

use crate::event::Event;
use atomic_table::{Join, Split};
use crossbeam_utils::atomic::seq_cell::{Pass, RuledSeqCell};
use crossbeam_utils::rule::{Outcome, Protocol};
use std::collections::LinkedList;
use std::marker::{Brand, PhantomData};

/// What a pass knows. No value of it is made.
pub struct View {
    /// Whether it is the pass under the lock, which knows the whole history.
    pub keeps: bool,
    /// How many callers there are.
    pub names: u64,
    /// The history.
    pub log: LinkedList<Event>,
    /// Whether it is a caller's, or has taken a caller's in.
    pub calls: bool,
    /// The caller's number.
    pub who: u64,
    /// The number of the caller's session, if it has one.
    pub at: Option<u64>,
    /// The beginning of the history that the caller has seen.
    pub seen: LinkedList<Event>,
    /// The calls that the caller made.
    pub mine: LinkedList<Event>,
}

/// The rule of the cell, whose word is the number of calls modulo 2^64.
pub struct InOneOrder;

impl Protocol<[u64; 1], View> for InOneOrder {
    ghost use Rattle.std.specs.Prelude.{[]};
    ghost use Rattle.shared.specs.Views.{keeper, Kept};

    ghost holds = { Kept };

    ghost first = { keeper 0 [] };
}

/// Which event a step puts at the end of the history.
pub trait Asked {
    ghost use Rattle.shared.specs.declared.event.Event.{Event};

    ghost event: { Event };
}

impl Asked for Brand {
    ghost use Rattle.shared.specs.History.{event};
    ghost use Rattle.shared.specs.declared.event.Act.TheVariants.{Ends};

    ghost event = { event 0 (Ends 0) 0 };
}

/// A step that puts an event at the end of the history.
pub struct Call<E: Asked> {
    of: PhantomData<E>,
}

impl<E: Asked> Outcome<[u64; 1], View> for Call<E> {
    ghost use Rattle.shared.specs.Views.{Adds};

    ghost then = { Adds E.event };
}

/// A step that changes nothing, and tells what the rule says of the caller that was taken in.
pub struct Peek;

impl Outcome<[u64; 1], View> for Peek {
    ghost use Rattle.shared.specs.Views.{Peeks};

    ghost then = { Peeks };
}

/// Cuts off a pass that knows nothing.
pub struct Spare;

impl Split<View> for Spare {
    ghost use Rattle.shared.specs.Views.{nobody};

    ghost left = { λ v. v };

    ghost right = { λ v. nobody };
}

/// Cuts off the pass of one caller more.
pub struct Newcomer;

impl Split<View> for Newcomer {
    ghost use Rattle.shared.specs.Views.{one_more, newcomer};

    ghost left = { one_more };

    ghost right = { newcomer };
}

/// The pass under the lock takes a caller's in, and gives it back.
pub struct Guest;

impl Join<View> for Guest {
    ghost use Rattle.shared.specs.Views.{host, nobody};

    ghost both = { host };

    ghost spent = { nobody };
}

impl Split<View> for Guest {
    ghost use Rattle.shared.specs.Views.{keeper_in, caller_in};

    ghost left = { keeper_in };

    ghost right = { caller_in };
}

/// What is fixed as long as a lock lives: its cell, the world with which it began, how many calls
/// the device had refused then, the premise under which its history is legal, and how many callers
/// there are, where that is settled.
pub trait Room {
    ghost use Rattle.std.specs.Prelude.{Option, ℕ};
    ghost use Rattle.atomic_table.specs.Seated.{TableId};
    ghost use Rattle.session_definitions.specs.World.{World};

    ghost table: { TableId };

    ghost start: { World };

    ghost refused: { ℕ };

    ghost premise: { Type 0 };

    ghost callers: { Option ℕ };
}

impl Room for Brand {
    ghost use Rattle.std.specs.Prelude.{None};
    ghost use Rattle.shared.specs.Views.{no_table};
    ghost use Rattle.session_definitions.specs.World.{new_world};

    ghost table = { no_table };

    ghost start = { new_world };

    ghost refused = { 0 };

    ghost premise = { ⊥ };

    ghost callers = { None };
}

/// The cell with the number of calls.
pub type Cell = RuledSeqCell<[u64; 1], View, InOneOrder, 1>;

/// A pass of the cell.
pub type Token = Pass<[u64; 1], View>;
