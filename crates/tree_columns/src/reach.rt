ghost use Rattle.std.specs.Prelude.{◌≡◌};
ghost use Rattle.rules.specs.Columns.{in_half, in_left, in_right};
ghost use Rattle.tree_columns.specs.Within.{within};

/// Which columns a condition may name, of a row whose left part has so many columns.
#[derive(Clone, Copy)]
pub enum Reach {
    /// All.
    Anywhere,
    /// Those of the left side, and of rows outside.
    LeftSide,
    /// Those of the right side, and of rows outside.
    RightSide,
    /// In a subquery, beside whose row stands the left one: none of the left row past its last.
    HalfJoin,
}

/// Whether a column may be named.
pub fn is_within(reach: Reach, width: usize, depth: usize, place: usize) -> bool
    ensures { result ≡ within reach width depth place }
{
    match reach {
        Reach::Anywhere => true,
        Reach::LeftSide => is_in_left(width, depth, place),
        Reach::RightSide => is_in_right(width, depth, place),
        Reach::HalfJoin => is_in_half(width, depth, place),
    }
}

fn is_in_left(width: usize, depth: usize, place: usize) -> bool
    ensures { result ≡ in_left width depth place }
{
    match depth {
        0 => place < width,
        _ => true,
    }
}

fn is_in_right(width: usize, depth: usize, place: usize) -> bool
    ensures { result ≡ in_right width depth place }
{
    match depth {
        0 => !(place < width),
        _ => true,
    }
}

fn is_in_half(width: usize, depth: usize, place: usize) -> bool
    ensures { result ≡ in_half width depth place }
{
    match depth {
        1 => place < width,
        _ => true,
    }
}
