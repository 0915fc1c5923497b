ghost use Rattle.std.specs.Prelude.{◌≡◌};

use crate::version::read_changed;
use crate::write_set::WriteSet;
use disk::Disk;
use page_space::{Page, PageReader, SpaceError};
use pool::Pool;

/// A version of a pool, of the commit of this number, with pages that a transaction has written
/// over it, to be read alone.
#[derive(Drop)]
pub struct Changed<'a, D: Disk> {
    pub pool: &'a mut Pool<D>,
    pub changes: &'a WriteSet,
    pub at: u64,
}

impl<'a, D: Disk> PageReader for Changed<'a, D> {
    ghost use Rattle.std.proofs.Common.{refl, ◌∙◌};
    ghost use Rattle.pool.specs.Pages.{over};
    ghost use Rattle.pool.specs.Versions.{versions_of, device_of, refused_of};
    ghost use Rattle.overlay.specs.WriteSet.{private_of};
    ghost use Rattle.overlay.specs.InUse.{in_use};
    ghost use Rattle.overlay.specs.Bounded.{in_use-bounded};
    ghost use Rattle.overlay.specs.Whole.{IsWhole};
    ghost use Rattle.overlay.specs.Follows.{IsRead, read_none, read_on};

    ghost pages = { λ s. in_use ((versions_of s.pool.now).pages s.at) (private_of s.changes.now) };

    ghost refused = { λ s. refused_of s.pool.now };

    ghost follows = { λ a b. IsRead (versions_of a.pool.now) (versions_of b.pool.now) (refused_of a.pool.now) (refused_of b.pool.now) (D.writes (device_of a.pool.now)) (D.writes (device_of b.pool.now))
        × (b.pool.ghost_name ≡ a.pool.ghost_name) × (b.changes ≡ a.changes) × (b.at ≡ a.at) };

    ghost is_whole = { λ s. IsWhole (over (private_of s.changes.now) ((versions_of s.pool.now).pages s.at)) };

    ghost bounded = { λ s n h. in_use-bounded ((versions_of s.pool.now).pages s.at) (private_of s.changes.now) n h };

    ghost follows_refl = { λ s. (read_none _ _ _, refl, refl, refl) };

    ghost follows_trans = { λ a b c h g. (read_on _ _ _ _ _ _ _ _ _ h.0 g.0, g.1 ∙ h.1, g.2 ∙ h.2, g.3 ∙ h.3) };

    fn read(&mut self, page: u32, into: &mut Page) -> Result<bool, SpaceError> {
        read_changed(self.pool, self.changes, self.at, page, into)
    }
}
