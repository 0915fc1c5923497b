//! What stands in memory of a page's old versions.

use items::Items;
use page_cache::Frame;

/// A page as it was before a commit; none where it was not there.
#[derive(Drop)]
pub(crate) struct OldImage {
    pub(crate) until: u64,
    pub(crate) page: Option<Frame>,
}

/// The old images of a page, oldest first.
#[derive(Drop)]
pub(crate) struct Slot {
    pub(crate) images: Items<OldImage>,
}
