//! What a command line asks for.

use frame_count::Frames;

/// What a command line of `sqlsh` asks for.
#[derive(Clone, Copy)]
pub struct Settings<'a> {
    /// The frames of the pool.
    pub frames: Frames,
    /// The name of the file that keeps the tables; where there is none, they are gone when the
    /// program ends.
    pub file: Option<&'a str>,
}
