ghost use Rattle.std.specs.Prelude.{◌≡◌};
ghost use Rattle.database_trees.specs.Causes.{of_index, of_removal, of_append, of_change};

use catalog::ChangeError;
use index_trees::IndexError;
use page_space::SpaceError;
use std::alloc::AllocError;
use tablestore::AppendError;
use thiserror::Error;

/// Why a database was not changed.
#[derive(Clone, Copy, Debug, PartialEq, Eq, Error)]
pub enum DatabaseError {
    /// The space of pages refused a call, or memory was wanting.
    #[error("{0}")]
    Space(SpaceError),
    /// The limit `record`: a row's code takes more than 1,000 bytes.
    #[error("a row is too long")]
    Record,
    /// The limit `key`: a row's key in an index takes more than 600 bytes with its number.
    #[error("a key is too long")]
    Key,
    /// A row's number would be 2^63 or more.
    #[error("no row number is left")]
    Number,
    /// A record of the schema is too long.
    #[error("a record of the schema is too long")]
    Schema,
}

impl From<AllocError> for DatabaseError {
    ghost use Rattle.std.specs.Prelude.{◌≡◌};
    ghost use Rattle.database_trees.specs.declared.error.DatabaseError.TheVariants.{Space};
    ghost use Rattle.page_space.specs.declared.error.SpaceError.TheVariants.{Memory};

    ghost from_gives = { λ _ error. error ≡ Space Memory };

    fn from(_refused: AllocError) -> DatabaseError {
        DatabaseError::Space(SpaceError::Memory)
    }
}

pub(crate) fn of_index(error: IndexError) -> DatabaseError
    ensures { result ≡ of_index error }
{
    match error {
        IndexError::Space(fault) => DatabaseError::Space(fault),
        IndexError::Key => DatabaseError::Key,
    }
}

/// A row that an index has is never too long for it, so a refused key says that the index does not
/// have the row.
pub(crate) fn of_removal(error: IndexError) -> DatabaseError
    ensures { result ≡ of_removal error }
{
    match error {
        IndexError::Space(fault) => DatabaseError::Space(fault),
        IndexError::Key => DatabaseError::Space(SpaceError::Damaged),
    }
}

pub(crate) fn of_append(error: AppendError) -> DatabaseError
    ensures { result ≡ of_append error }
{
    match error {
        AppendError::Space(fault) => DatabaseError::Space(fault),
        AppendError::Record => DatabaseError::Record,
        AppendError::Number => DatabaseError::Number,
    }
}

pub(crate) fn of_change(error: ChangeError) -> DatabaseError
    ensures { result ≡ of_change error }
{
    match error {
        ChangeError::Space(fault) => DatabaseError::Space(fault),
        ChangeError::Record => DatabaseError::Schema,
        ChangeError::Key => DatabaseError::Schema,
    }
}
