//! Which index a node reads by.
ghost use Rattle.std.specs.Prelude.{◌≡◌};
ghost use Rattle.places.specs.Indexes.{index_place, same_columns};

use algebra::StoredTable;

fn are_same(one: &[usize], other: &[usize]) -> bool
    ensures { result ≡ same_columns one.now other.now }
{
    one == other
}

/// The place of the first index over just these columns that is known of a table.
pub fn index_place(table: &StoredTable, columns: &[usize]) -> Option<usize>
    ensures { result ≡ index_place table.now columns.now }
{
    let indexes = table.indexes.as_slice();
    for (place, index) in indexes.iter().enumerate() {
        if are_same(index.as_slice(), columns) {
            return Some(place);
        }
    }
    None
}
