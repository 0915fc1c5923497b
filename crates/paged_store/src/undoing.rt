//! Changes that were refused, undone.
ghost use Rattle.std.specs.Prelude.{◌≡◌, ◌≤◌, OnOk, OnErr, IfErr};
ghost use Rattle.store.specs.Errors.{Tells};
ghost use Rattle.overlay.specs.WriteSet.{private_of, settled_of, undone_of};
ghost use Rattle.overlay.specs.Undone.{AreUndone};

use crate::counting::told;
use overlay::WriteSet;
use store::StoreError;

/// Goes back to the mark where a change was refused, counts the refusal, and answers as it did.
pub(crate) fn undo_refused(
    changes: &mut WriteSet,
    damaged: &mut u64,
    done: Result<(), StoreError>,
) -> Result<(), StoreError>
    ensures same { result ≡ done }
    ensures made { OnOk done (private_of changes.new ≡ private_of changes.old) }
    ensures left { OnErr done (private_of changes.new ≡ settled_of changes.old) }
    ensures settled { settled_of changes.new ≡ settled_of changes.old }
    ensures undone { OnErr done (AreUndone (private_of changes.old) (undone_of changes.new)) }
    ensures damage { OnOk result (damaged.new ≡ damaged.old)
        × IfErr result (λ error. Tells error damaged.old damaged.new) }
    ensures damage_rises { damaged.old ≤ damaged.new }
{
    match done {
        Ok(()) => Ok(()),
        Err(error) => {
            changes.undo();
            Err(told(damaged, error))
        }
    }
}
