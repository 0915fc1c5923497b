//! Values as keys of a set.

ghost use Rattle.std.specs.Prelude.{◌≡◌};

use sqlval::{Value, sort_order};
use std::cmp::Ordering;

/// A value in the order of values.
#[derive(Drop)]
pub struct Member {
    pub value: Value,
}

impl PartialEq for Member {
    ghost use Rattle.std.specs.Cmp.{eq_by_cmp_equiv, partial_equiv_from_equiv};
    ghost use Rattle.std.specs.Ordering.{eq_by_cmp};
    ghost use Rattle.key_tables.specs.Values.{member_order, member_order_total};

    ghost eq = { eq_by_cmp member_order };

    ghost laws = { partial_equiv_from_equiv (eq_by_cmp_equiv member_order_total) };

    fn eq(&self, other: &Member) -> bool {
        sort_order(&self.value, &other.value).is_eq()
    }
}

impl Eq for Member {
    ghost use Rattle.std.specs.Cmp.{eq_by_cmp_equiv};
    ghost use Rattle.key_tables.specs.Values.{member_order_total};

    ghost laws = { eq_by_cmp_equiv member_order_total };
}

impl PartialOrd for Member {
    ghost use Rattle.std.specs.Cmp.{partial_order_from_total};
    ghost use Rattle.std.specs.Ordering.{as_partial_cmp};
    ghost use Rattle.key_tables.specs.Values.{member_order, member_order_total};

    ghost partial_cmp = { as_partial_cmp member_order };

    ghost laws = { partial_order_from_total member_order_total };

    fn partial_cmp(&self, other: &Member) -> Option<Ordering> {
        Some(sort_order(&self.value, &other.value))
    }
}

impl Ord for Member {
    ghost use Rattle.std.specs.Prelude.{refl};
    ghost use Rattle.key_tables.specs.Values.{member_order, member_order_total};

    ghost cmp = { member_order };

    ghost total = { member_order_total };

    ghost matches_partial_cmp = { λ _ _. refl };

    ghost matches_eq = { λ _ _. refl };

    fn cmp(&self, other: &Member) -> Ordering {
        sort_order(&self.value, &other.value)
    }
}
