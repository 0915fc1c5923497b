ghost use Rattle.std.specs.Prelude.{◌≡◌};

use std::alloc::AllocError;
use thiserror::Error;

/// Why a call on pages was refused.
#[derive(Clone, Copy, Debug, PartialEq, Eq, Error)]
pub enum SpaceError {
    /// There was no memory.
    #[error("out of memory")]
    Memory,
    /// The device refused a call.
    #[error("the device refused a call")]
    Disk,
    /// A page, or the list of free pages, is damaged.
    #[error("the file is damaged")]
    Damaged,
    /// The file has as many pages as it may have.
    #[error("too many pages")]
    Pages,
    /// The transaction has as many private pages as it may have.
    #[error("too many private pages")]
    Private,
}

impl From<AllocError> for SpaceError {
    ghost use Rattle.page_space.specs.declared.error.SpaceError.TheVariants.{Memory};

    ghost from_gives = { λ e r. r ≡ Memory };

    fn from(_error: AllocError) -> SpaceError {
        SpaceError::Memory
    }
}
