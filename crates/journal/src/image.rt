ghost use Rattle.std.specs.Prelude.{◌≡◌, ◌*◌, ◌<◌, ◌^◌};

use items::Boxed;
use pagefile::{PAGE_SIZE, Page};

/// A page and its number.
pub type Image = (u32, Boxed<Page>);

/// The offset of a block.
pub(crate) fn offset_of(block: u64) -> u64
    requires { block < 2 ^ 40 }
    ensures { result ≡ 4096 * block }
{
    block * PAGE_SIZE as u64
}
