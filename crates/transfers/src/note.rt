//! What is said of a load by batches that stopped.
ghost use Rattle.std.specs.Prelude.{◌≡◌, IfOk};
ghost use Rattle.transfers.specs.Transfers.{Notes, note_text};

use csvio::{LoadedBatches, put};
use itoa::Buffer;
use std::alloc::{AllocError, Global};
use std::io::Write;

/// Says behind how many records a load stopped, where it was refused. Nothing is said where there
/// is no memory for that.
pub(crate) fn note<V: Write>(alloc: Global, loaded: &LoadedBatches, notes: &mut V)
    ensures { Notes loaded.now.reply loaded.now.committed (V.contents notes.old) (V.contents notes.new) }
{
    if !loaded.reply.is_refused() {
        return;
    }
    if let Ok(text) = note_text(alloc, loaded.committed) {
        put(notes, text.as_slice());
    }
}

/// The line that says so.
fn note_text(alloc: Global, count: usize) -> Result<Vec<u8>, AllocError>
    ensures { IfOk result (λ text. text.items ≡ note_text count) }
{
    let mut text = Vec::new(alloc);
    text.extend_from_slice(b"stopped behind ")?;
    text.extend_from_slice(Buffer::new().format(count).as_bytes())?;
    text.extend_from_slice(b" records\n")?;
    Ok(text)
}
