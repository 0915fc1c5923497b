//! Where the values of a column come from.

/// How the fields of a column are written.
#[derive(Clone, Copy)]
pub enum Writing {
    /// In the form in which values are printed.
    Printed,
    /// An integer in decimal, and null as nothing.
    PlainInteger,
    /// A text as it stands, and null as nothing.
    PlainText,
}

/// Where the values of a column come from.
#[derive(Clone, Copy)]
pub struct Source {
    /// The place of its field in each record, from 0; where there is none, each value is null.
    pub place: Option<usize>,
    /// How the field is written.
    pub writing: Writing,
}
