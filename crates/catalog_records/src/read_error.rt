use std::alloc::AllocError;
use thiserror::Error;

/// Why records were not read.
#[derive(Clone, Copy, Debug, PartialEq, Eq, Error)]
pub enum ReadError {
    /// Memory was wanting.
    #[error("out of memory")]
    Memory,
    /// The records are those of no schema.
    #[error("the records are those of no schema")]
    Damaged,
}

impl From<AllocError> for ReadError {
    ghost use Rattle.std.specs.Prelude.{◌≡◌};
    ghost use Rattle.catalog_records.specs.declared.read_error.ReadError.TheVariants.{Memory};

    ghost from_gives = { λ _ error. error ≡ Memory };

    fn from(_refused: AllocError) -> ReadError {
        ReadError::Memory
    }
}
