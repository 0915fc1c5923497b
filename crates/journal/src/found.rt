use pagefile::FileHeader;

/// The two formats of a file. A file of format 1 has no journal until it is written.
#[derive(Clone, Copy, Debug, PartialEq, Eq)]
pub enum Format {
    One,
    Two,
}

/// What the gate of a file says.
#[derive(Clone, Copy)]
pub enum Gate {
    /// The places have the pages, and the journal may hold anything.
    Shut,
    /// A write of the gate was cut: the places have the pages.
    Torn,
    /// The journal of `size` pages, whose first block is `start`, stands for those in their places.
    Open { start: u32, size: u32 },
}

/// What was found in a file.
#[derive(Clone, Copy)]
pub struct Found {
    /// The header of page 0, as the journal makes it where the gate is open.
    pub header: FileHeader,
    /// Which format that header is of.
    pub format: Format,
    /// The gate as it was found.
    pub gate: Gate,
}
