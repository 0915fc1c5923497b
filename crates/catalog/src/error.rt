use page_space::SpaceError;
use std::alloc::AllocError;
use thiserror::Error;

/// Why a schema was not changed.
#[derive(Clone, Copy, Debug, PartialEq, Eq, Error)]
pub enum ChangeError {
    /// The space of pages refused a call, or memory was wanting.
    #[error("{0}")]
    Space(SpaceError),
    /// The limit `record`: a record's row takes more than 1,000 bytes, or its key and row together
    /// more than 1,008.
    #[error("a record is too long")]
    Record,
    /// The limit `key`: a record's key takes more than 600 bytes.
    #[error("a record's key is too long")]
    Key,
}

impl From<AllocError> for ChangeError {
    ghost use Rattle.std.specs.Prelude.{◌≡◌};
    ghost use Rattle.catalog.specs.declared.error.ChangeError.TheVariants.{Space};
    ghost use Rattle.page_space.specs.declared.error.SpaceError.TheVariants.{Memory};

    ghost from_gives = { λ _ error. error ≡ Space Memory };

    fn from(_refused: AllocError) -> ChangeError {
        ChangeError::Space(SpaceError::Memory)
    }
}
