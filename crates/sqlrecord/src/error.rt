ghost use Rattle.std.specs.Prelude.{◌≡◌};
ghost use Rattle.sqlrecord.specs.declared.error.EncodeError.TheVariants.{OutOfMemory as no_memory_to_encode};
ghost use Rattle.sqlrecord.specs.declared.error.DecodeError.TheVariants.{OutOfMemory as no_memory_to_decode};

use std::alloc::AllocError;
use thiserror::Error;

/// Why values have no code.
#[derive(Clone, Copy, Debug, PartialEq, Eq, Error)]
pub enum EncodeError {
    #[error("out of memory")]
    OutOfMemory,
    /// The limit `record`: the row's code would take more than 1,000 bytes.
    #[error("the row's code is longer than 1,000 bytes")]
    Record,
    /// The limit `key`: the key's code, with the row number of an index key, would take more than
    /// 600 bytes.
    #[error("the key's code is longer than 600 bytes")]
    Key,
}

impl From<AllocError> for EncodeError {
    ghost from_gives = { λ _ e. e ≡ no_memory_to_encode };

    fn from(_error: AllocError) -> EncodeError {
        EncodeError::OutOfMemory
    }
}

/// Why bytes were not decoded.
#[derive(Clone, Copy, Debug, PartialEq, Eq, Error)]
pub enum DecodeError {
    #[error("out of memory")]
    OutOfMemory,
    /// The bytes are no code.
    #[error("the bytes are no code of a row or a key")]
    Damaged,
}

impl From<AllocError> for DecodeError {
    ghost from_gives = { λ _ e. e ≡ no_memory_to_decode };

    fn from(_error: AllocError) -> DecodeError {
        DecodeError::OutOfMemory
    }
}
