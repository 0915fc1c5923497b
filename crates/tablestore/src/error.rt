use page_space::SpaceError;
use std::alloc::AllocError;
use thiserror::Error;

/// Why rows were not put behind others.
#[derive(Clone, Copy, Debug, PartialEq, Eq, Error)]
pub enum AppendError {
    /// The space of pages refused a call, or memory was wanting.
    #[error("{0}")]
    Space(SpaceError),
    /// The limit `record`: a row's code takes more than 1,000 bytes.
    #[error("a row is too long")]
    Record,
    /// A row's number would be 2^63 or more.
    #[error("no row number is left")]
    Number,
}

impl From<AllocError> for AppendError {
    ghost use Rattle.std.specs.Prelude.{◌≡◌};
    ghost use Rattle.tablestore.specs.declared.error.AppendError.TheVariants.{Space};
    ghost use Rattle.page_space.specs.declared.error.SpaceError.TheVariants.{Memory};

    ghost from_gives = { λ _ error. error ≡ Space Memory };

    fn from(_refused: AllocError) -> AppendError {
        AppendError::Space(SpaceError::Memory)
    }
}

impl From<SpaceError> for AppendError {
    ghost use Rattle.std.specs.Prelude.{◌≡◌};
    ghost use Rattle.tablestore.specs.declared.error.AppendError.TheVariants.{Space};

    ghost from_gives = { λ fault error. error ≡ Space fault };

    fn from(fault: SpaceError) -> AppendError {
        AppendError::Space(fault)
    }
}
