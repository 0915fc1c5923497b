//! Where a file stands between two calls.

use disk::DiskError;

/// Where a file stands between two calls.
#[derive(Clone, Copy)]
pub(crate) enum Gate {
    /// The gate is shut: the pages stand in their places.
    Shut,
    /// The gate is open, or is to be shut: the journal has the pages of the last commit.
    Open,
    /// A commit was refused for this cause, so that it is not known for which version the file
    /// stands. So many calls were refused since then without one of the device.
    Broken { cause: DiskError, answered: u64 },
}
