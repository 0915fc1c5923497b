//! Why a store refuses a call, by the refusals of what it stands on.
ghost use Rattle.std.specs.Prelude.{◌≡◌};
ghost use Rattle.database_versions.specs.Refusals.{of_fault, of_pool, of_change, of_rows};

use database_trees::DatabaseError;
use page_space::SpaceError;
use pool::PoolError;
use store::{StoreError, StoreLimit};

pub(crate) fn of_fault(fault: SpaceError) -> StoreError
    ensures { result ≡ of_fault fault }
{
    match fault {
        SpaceError::Memory => StoreError::Memory,
        SpaceError::Disk => StoreError::Device,
        SpaceError::Damaged => StoreError::Damaged,
        SpaceError::Pages => StoreError::Exceeded(StoreLimit::Pages),
        SpaceError::Private => StoreError::Exceeded(StoreLimit::Private),
    }
}

pub fn of_pool(error: PoolError) -> StoreError
    ensures { result ≡ of_pool error }
{
    match error {
        PoolError::Memory => StoreError::Memory,
        PoolError::Device(_) => StoreError::Device,
        PoolError::Damaged => StoreError::Damaged,
        PoolError::Pages => StoreError::Exceeded(StoreLimit::Pages),
        PoolError::Kept => StoreError::Exceeded(StoreLimit::Kept),
    }
}

/// All but the refusals of the space of pages count as want of memory: a store has no other refusal
/// of a change that stores no row.
pub(crate) fn of_change(error: DatabaseError) -> StoreError
    ensures { result ≡ of_change error }
{
    match error {
        DatabaseError::Space(fault) => of_fault(fault),
        DatabaseError::Record => StoreError::Memory,
        DatabaseError::Key => StoreError::Memory,
        DatabaseError::Number => StoreError::Memory,
        DatabaseError::Schema => StoreError::Memory,
    }
}

/// A key that is too long counts as want of memory: a store may name that limit only where it is
/// known which indexes there are, and over a device that is not honest it is not. So does a record
/// of a schema that is too long. Row numbers that have come to their end, 2^63, are told by the
/// limit of pages.
pub(crate) fn of_rows(error: DatabaseError) -> StoreError
    ensures { result ≡ of_rows error }
{
    match error {
        DatabaseError::Space(fault) => of_fault(fault),
        DatabaseError::Record => StoreError::Exceeded(StoreLimit::Record),
        DatabaseError::Key => StoreError::Memory,
        DatabaseError::Number => StoreError::Exceeded(StoreLimit::Pages),
        DatabaseError::Schema => StoreError::Memory,
    }
}
