//! What follows of crashes. This function does nothing: its contract is the law.
ghost use Rattle.std.specs.Prelude.{◌≡◌, ℕ, IsTrue};
ghost use Rattle.disk.specs.Crashes.{Always, IsRestarted};
ghost use Rattle.journal.specs.Versions.{Version, OneOf, IsAmong, IsOpen, StandsFor};

use disk::Disk;

/// A device that is found after a crash stands for one of the versions for which each outcome
/// stood, and a crash of it leaves no other. Where a commit had answered, it stands for the version
/// that was committed.
pub fn found_after_a_crash<D: Disk>()
    ensures found { (old new : D) (x y : Version) → Always (D.may_leave old) (IsAmong x y)
        → IsRestarted D.bytes D.may_leave old new
        → Always (D.may_leave new) (IsAmong x y) × ((v : Version) × OneOf x y v × StandsFor v (D.bytes new)) }
    ensures committed { (old new : D) (v : Version) → Always (D.may_leave old) (IsOpen v)
        → IsRestarted D.bytes D.may_leave old new → StandsFor v (D.bytes new) }
{}
