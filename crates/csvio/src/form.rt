//! How a text writes rows.

/// How a text writes rows.
#[derive(Clone, Copy)]
pub struct Form {
    /// Whether its first record names the columns.
    pub header: bool,
    /// Whether a field is written plainly, by the type of its column, and not as values are
    /// printed.
    pub plain: bool,
}
