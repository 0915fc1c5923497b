//! Laws of what readers hold. Each does nothing when it runs.
ghost use Rattle.snapshot_pins.specs.Pinned.{FoundIsPinned};

/// A commit that a reader found is pinned.
pub fn found_is_pinned()
    ensures { FoundIsPinned }
{}
