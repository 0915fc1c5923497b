//! What callers may rely on beside the calls.
ghost use Rattle.std.specs.Prelude.{◌≡◌, [], IsTrue};
ghost use Rattle.std.specs.FinMap.{empty};
ghost use Rattle.denote.specs.Database.{Database};
ghost use Rattle.database_versions.specs.Saved.{IsSavedOwned};

use crate::paged::Paged;
use disk::Disk;
use store::Store;

/// A new, empty device is saved, and no page of what is saved is lost: the device is empty, or each
/// page in use of its file is one of the trees of its database, and each free one stands in the
/// list. What is saved opens as a sound store, all changes keep that it is sound, and so is what it
/// leaves saved where it is closed (`Store`): from a new file on no page is ever lost.
pub fn no_page_is_lost<D: Disk + Drop>()
    ensures new { (device : D) → IsTrue D.is_honest → D.bytes device ≡ [] → ⟦<Paged<D> as Store>⟧.saved device empty }
    ensures owned { (device : D) (db : Database) → ⟦<Paged<D> as Store>⟧.saved device db
        → IsSavedOwned (D.bytes device) }
{}
