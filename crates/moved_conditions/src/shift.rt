ghost use Rattle.std.specs.Prelude.{◌≡◌, IfSome};
ghost use Rattle.rules.specs.Columns.{from_right, to_half};
ghost use Rattle.moved_conditions.specs.Shifted.{shifted};

/// Where columns of a condition go, over a row whose left part has so many columns.
#[derive(Clone, Copy)]
pub enum Shift {
    /// Nowhere: the condition is copied.
    Stay,
    /// From the joined row to the right row alone.
    FromRight,
    /// From a subquery's row, beside which the left one stands, to both joined.
    ToHalf,
}

/// Where a column goes; `None` where its new place is more than a `usize` counts.
pub fn shifted(shift: Shift, width: usize, depth: usize, place: usize) -> Option<(usize, usize)>
    ensures { IfSome result (λ to. to ≡ shifted shift width depth place) }
{
    match shift {
        Shift::Stay => Some((depth, place)),
        Shift::FromRight => Some(from_right(width, depth, place)),
        Shift::ToHalf => to_half(width, depth, place),
    }
}

fn from_right(width: usize, depth: usize, place: usize) -> (usize, usize)
    ensures { result ≡ from_right width depth place }
{
    match depth {
        0 => (0, place.saturating_sub(width)),
        _ => (depth, place),
    }
}

fn to_half(width: usize, depth: usize, place: usize) -> Option<(usize, usize)>
    ensures { IfSome result (λ to. to ≡ to_half width depth place) }
{
    match depth {
        0 => behind(width, place),
        1 => Some((0, place)),
        _ => Some((depth - 1, place)),
    }
}

fn behind(width: usize, place: usize) -> Option<(usize, usize)>
    ensures { IfSome result (λ to. to ≡ to_half width 0 place) }
{
    if width <= usize::MAX - place {
        Some((0, width + place))
    } else {
        None
    }
}
