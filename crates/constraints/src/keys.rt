//! The keys that constraints ask for, and their indexes.
ghost use Rattle.std.specs.Prelude.{◌≡◌, IfOk};
ghost use Rattle.std.specs.Option.{option_map};
ghost use Rattle.constraints.specs.Foreseen.{columns_of_key, keys_asked, place_of, same_columns};

use items::{Items, Text};
use sqlval::{Constraint, Index, Rule};
use std::alloc::{AllocError, Global};

/// A key that no two rows of a table may share: the name of the PRIMARY KEY or UNIQUE that asks for
/// it, its columns, and the place in the table of an index over just these, if there is one.
#[derive(Drop)]
pub(crate) struct Key {
    pub(crate) constraint: Text,
    pub(crate) columns: Items<usize>,
    pub(crate) place: Option<usize>,
}

/// The keys that these constraints ask for.
pub(crate) fn keys_of(
    alloc: Global,
    indexes: &[Index],
    constraints: &[Constraint],
) -> Result<Items<Key>, AllocError>
    ensures { IfOk result (λ keys. keys ≡ keys_asked indexes.now constraints.now) }
{
    let mut keys = Items::new(alloc);
    for constraint in constraints {
        if let Some(columns) = key_columns(&constraint.rule) {
            keys.push(Key {
                constraint: constraint.name.copy(alloc)?,
                columns: Items::from_slice(alloc, columns)?,
                place: place_of(columns, indexes),
            })?;
        }
    }
    Ok(keys)
}

/// The columns of a PRIMARY KEY or a UNIQUE.
pub fn key_columns(rule: &Rule) -> Option<&[usize]>
    ensures { option_map (λ columns. columns.now) result ≡ columns_of_key rule.now }
{
    match rule {
        Rule::NotNull(_) => None,
        Rule::PrimaryKey(columns) => Some(columns.as_slice()),
        Rule::Unique(columns) => Some(columns.as_slice()),
        Rule::Check(_) => None,
        Rule::ForeignKey(_) => None,
    }
}

/// The place of the first index over just these columns.
fn place_of(columns: &[usize], indexes: &[Index]) -> Option<usize>
    ensures { result ≡ place_of columns.now indexes.now }
{
    for (place, index) in indexes.iter().enumerate() {
        if are_same(index.columns.as_slice(), columns) {
            return Some(place);
        }
    }
    None
}

fn are_same(one: &[usize], other: &[usize]) -> bool
    ensures { result ≡ same_columns one.now other.now }
{
    one == other
}
