//! What a command line asks for.

use frame_count::Frames;

/// What a command line of `sqlmany` asks for.
#[derive(Drop)]
pub struct Settings<'a, S> {
    /// The frames of the pool.
    pub frames: Frames,
    /// The words that name the scripts' files, at least one.
    pub scripts: &'a [S],
}
