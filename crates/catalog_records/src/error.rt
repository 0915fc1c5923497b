use std::alloc::AllocError;
use thiserror::Error;

/// Why records were not written.
#[derive(Clone, Copy, Debug, PartialEq, Eq, Error)]
pub enum WriteError {
    /// Memory was wanting.
    #[error("out of memory")]
    Memory,
    /// The columns of a constraint or an index, as a text, have more than 1,000 characters.
    #[error("too many columns")]
    TooLong,
}

impl From<AllocError> for WriteError {
    ghost use Rattle.std.specs.Prelude.{◌≡◌};
    ghost use Rattle.catalog_records.specs.declared.error.WriteError.TheVariants.{Memory};

    ghost from_gives = { λ _ error. error ≡ Memory };

    fn from(_refused: AllocError) -> WriteError {
        WriteError::Memory
    }
}
