ghost use Rattle.std.specs.Prelude.{◌≡◌};
ghost use Rattle.pool.specs.declared.error.PoolError.TheVariants.{Memory, Device};

use disk::DiskError;
use std::alloc::AllocError;
use thiserror::Error;

/// Why a pool refused a call.
#[derive(Clone, Copy, Debug, Error)]
pub enum PoolError {
    /// There was no memory.
    #[error("out of memory")]
    Memory,
    /// The device refused a call.
    #[error("{0}")]
    Device(DiskError),
    /// There is no such page.
    #[error("the file is damaged")]
    Damaged,
    /// The numbers of commits have come to their end, 2^64 - 1.
    #[error("too many commits")]
    Pages,
    /// The pinned commits would need more than 4,096 old images of pages.
    #[error("too many old pages")]
    Kept,
}

impl From<DiskError> for PoolError {
    ghost from_gives = { λ e r. r ≡ Device e };

    fn from(error: DiskError) -> PoolError {
        PoolError::Device(error)
    }
}

impl From<AllocError> for PoolError {
    ghost from_gives = { λ e r. r ≡ Memory };

    fn from(_error: AllocError) -> PoolError {
        PoolError::Memory
    }
}
