//! The entries of leaves, as they lie in them.

ghost use Rattle.std.specs.Prelude.{◌≡◌, ◌++◌, [], true, map, OnOk};
ghost use Rattle.std.specs.List.{flat_map};
ghost use Rattle.btree_read.specs.Nodes.{entry_of, entries_in};

use items::Items;
use sqlrecord::{KeptCells, SlotPage};
use std::alloc::{AllocError, Global};
use std::marker::Model;

/// The entries of leaves, one leaf after another, as they lie in them: a leaf is copied whole.
/// Contracts see the list of the entries.
#[derive(Drop)]
pub struct Entries {
    leaves: Items<KeptCells>,
}

impl Model for Entries {
    ghost use Rattle.std.specs.Prelude.{List};
    ghost use Rattle.btree_read.specs.declared.entry.Entry.{Entry};
    ghost use Rattle.btree_read.specs.Nodes.{entries_in};

    ghost Value = { List Entry };

    ghost view = { λ entries. entries_in entries.leaves };
}

/// Whether leaves are the same, byte by byte.
fn are_same(ours: &[KeptCells], others: &[KeptCells]) -> bool
    ensures { result ≡ true → ours.now ≡ others.now }
{
    if ours.len() != others.len() {
        return false;
    }
    for i in 0..ours.len() {
        if !ours[i].is_same(&others[i]) {
            return false;
        }
    }
    true
}

impl Entries {
    /// No entries.
    pub fn new(alloc: Global) -> Entries
        ensures { result ≡ [] }
    {
        Entries {
            leaves: Items::new(alloc),
        }
    }

    /// Puts the entries of a leaf behind these. Refuses for want of memory alone.
    pub(crate) fn put(&mut self, alloc: Global, leaf: &SlotPage<'_>) -> Result<(), AllocError>
        ensures { OnOk result (self.new ≡ self.old ++ map entry_of leaf.now.cells) }
    {
        let kept = leaf.keep(alloc)?;
        self.leaves.push(kept)?;
        Ok(())
    }

    /// Whether these lie in the same leaves, byte by byte.
    pub fn is_same(&self, other: &Entries) -> bool
        ensures { result ≡ true → self.now ≡ other.now }
    {
        are_same(self.leaves.as_slice(), other.leaves.as_slice())
    }

    /// The cells of each leaf.
    pub fn leaves(&self) -> &[KeptCells]
        ensures { entries_in result.now ≡ self.now }
    {
        self.leaves.as_slice()
    }
}
