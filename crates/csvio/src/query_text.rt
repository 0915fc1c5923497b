//! The text of a query of all columns.
ghost use Rattle.std.specs.Prelude.{◌≡◌, IfOk};
ghost use Rattle.csvio.specs.Dumping.{order_text, query_text};

use items::Text;
use itoa::Buffer;
use std::alloc::{AllocError, Global};

/// The text that asks for all columns of a table, ordered by the first `width` of them.
pub(crate) fn query_text(alloc: Global, table: &Text, width: usize) -> Result<Vec<u8>, AllocError>
    ensures { IfOk result (λ text. text.items ≡ query_text table.now width) }
{
    let mut text = Vec::new(alloc);
    text.extend_from_slice(b"SELECT * FROM ")?;
    text.extend_from_slice(table.as_slice())?;
    let order = order_text(alloc, width)?;
    text.extend_from_slice(order.as_slice())?;
    Ok(text)
}

/// An order by so many positions.
fn order_text(alloc: Global, width: usize) -> Result<Vec<u8>, AllocError>
    ensures { IfOk result (λ text. text.items ≡ order_text width) }
{
    let mut text = Vec::new(alloc);
    if width == 0 {
        return Ok(text);
    }
    text.extend_from_slice(b" ORDER BY 1")?;
    for position in 1..width {
        text.extend_from_slice(b", ")?;
        text.extend_from_slice(Buffer::new().format(position + 1).as_bytes())?;
    }
    Ok(text)
}
