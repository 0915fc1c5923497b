//! Bounds as a store takes them.

ghost use Rattle.std.specs.Prelude.{◌≡◌};
ghost use Rattle.sqlval.specs.declared.value.Value.{Value as Held};
ghost use Rattle.store.specs.Indexes.{is_above, is_below};
ghost use Rattle.algebra.specs.Bounds.{above, below, meets};

use algebra::Bound;
use sqlval::Value;
use std::ops::Bound as Limit;

/// Where a range begins or ends, as a store takes it. Takes no memory.
pub fn limit_of(bound: Option<Bound>) -> Limit<Value>
    ensures lower { (x : Held) → is_above result x ≡ meets above x bound }
    ensures upper { (x : Held) → is_below result x ≡ meets below x bound }
{
    match bound {
        None => Limit::Unbounded,
        Some(Bound { value, inclusive }) => {
            if inclusive {
                Limit::Included(value)
            } else {
                Limit::Excluded(value)
            }
        }
    }
}
