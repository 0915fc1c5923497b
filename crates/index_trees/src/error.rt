use page_space::SpaceError;
use std::alloc::AllocError;
use thiserror::Error;

/// Why an index was not changed.
#[derive(Clone, Copy, Debug, PartialEq, Eq, Error)]
pub enum IndexError {
    /// The space of pages refused a call, or memory was wanting.
    #[error("{0}")]
    Space(SpaceError),
    /// The limit `key`: a row's key takes more than 600 bytes with its number.
    #[error("a key is too long")]
    Key,
}

impl From<AllocError> for IndexError {
    ghost use Rattle.std.specs.Prelude.{◌≡◌};
    ghost use Rattle.index_trees.specs.declared.error.IndexError.TheVariants.{Space};
    ghost use Rattle.page_space.specs.declared.error.SpaceError.TheVariants.{Memory};

    ghost from_gives = { λ _ error. error ≡ Space Memory };

    fn from(_refused: AllocError) -> IndexError {
        IndexError::Space(SpaceError::Memory)
    }
}
