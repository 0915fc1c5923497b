use std::alloc::AllocError;
use thiserror::Error;

/// Why a CSV text gives no rows.
#[derive(Clone, Copy, Debug, PartialEq, Eq, Error)]
pub enum ReadError {
    /// Memory was wanting.
    #[error("out of memory")]
    Memory,
    /// The reader refused.
    #[error("the text could not be read")]
    Reader,
    /// A field is no printed value, or a record has another number of fields than the first.
    #[error("a field that is no value, or a record of another length")]
    Field,
}

impl From<AllocError> for ReadError {
    ghost use Rattle.std.specs.Prelude.{◌≡◌};
    ghost use Rattle.csv_rows.specs.declared.error.ReadError.TheVariants.{Memory};

    ghost from_gives = { λ _ error. error ≡ Memory };

    fn from(_refused: AllocError) -> ReadError {
        ReadError::Memory
    }
}
