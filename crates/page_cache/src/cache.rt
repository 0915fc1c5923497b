ghost use Rattle.std.specs.Prelude.{◌≡◌, ◌≢◌, ◌<◌, ◌≤◌, ℕ, true, [], List, Option, Some, Contains, IfOk, IfSome, length};
ghost use Rattle.sqlrecord.specs.Page.{IsNode};
ghost use Rattle.lru.specs.LruCache.{lru_cache};

use crate::Frame;
use lru::LruCache;
use pagefile::Page;
use std::alloc::{AllocError, Global};
use std::num::NonZeroUsize;

/// Numbered pages in memory, at most so many.
///
/// Where room is wanted, the page goes that was used longest ago.
#[derive(Drop)]
pub struct PageCache {
    alloc: Global,
    frames: LruCache<u32, Frame>,
}

/// Room for so many pages.
fn room_for(alloc: Global, frames: u32) -> Result<LruCache<u32, Frame>, AllocError>
    requires { 0 < frames }
    ensures { IfOk result (λ cache. cache ≡ lru_cache [] frames) }
{
    match NonZeroUsize::new(frames as usize) {
        Some(room) => LruCache::sparse(alloc, room),
        None => unreachable!(),
    }
}

impl PageCache {
    ghost use Rattle.page_cache.specs.Cached.{frames_in, room_of, IsClean};

    /// Room for so many pages; none is there yet. Refuses for want of memory alone.
    pub fn new(alloc: Global, frames: u32) -> Result<PageCache, AllocError>
        requires { 0 < frames }
        ensures clean { IfOk result (λ cache. (shows : ℕ → Option (List ℕ)) → IsClean shows cache) }
        ensures room { IfOk result (λ cache. room_of cache ≡ frames) }
    {
        let frames = room_for(alloc, frames)?;
        Ok(PageCache { alloc, frames })
    }

    /// How many pages are in memory.
    pub fn len(&self) -> usize
        ensures { result ≤ room_of self.now }
    {
        self.frames.len()
    }

    /// Copies the page of a number, where it is in memory; tells whether it is known to be a sound
    /// page of a tree, and nothing where it is not in memory.
    pub fn copy(&mut self, number: u32, into: &mut Page) -> Option<bool>
        ensures found { IfSome result (λ known. (shows : ℕ → Option (List ℕ)) → IsClean shows self.old
            → shows number ≡ Some into.new) }
        ensures node { IfSome result (λ known. known ≡ true → IsNode into.new) }
        ensures clean { (shows : ℕ → Option (List ℕ)) → IsClean shows self.old → IsClean shows self.new }
        ensures room { room_of self.new ≡ room_of self.old }
    {
        let Some(frame) = self.frames.peek(&number) else {
            return None;
        };
        *into = *frame.page();
        let known = frame.is_node();
        self.frames.promote(&number);
        Some(known)
    }

    /// Keeps a page in memory, in place of what was there of its number; tells whether it is known
    /// to be a sound page of a tree. Where memory is wanting it is not kept.
    pub fn keep(&mut self, number: u32, page: &Page) -> bool
        ensures node { result ≡ true → IsNode page.now }
        ensures clean { (shows : ℕ → Option (List ℕ)) → shows number ≡ Some page.now → IsClean shows self.old
            → IsClean shows self.new }
        ensures room { room_of self.new ≡ room_of self.old }
    {
        match Frame::new(self.alloc, page) {
            Ok(frame) => {
                let known = frame.is_node();
                let _ = self.frames.put(number, frame);
                known
            }
            Err(_) => false,
        }
    }

    /// Takes the page of a number out of memory, where it is there, and no other.
    pub fn forget(&mut self, number: u32)
        ensures gone { (n : ℕ) (page : List ℕ) → Contains (frames_in self.new) (n, page)
            → (n ≢ number) × Contains (frames_in self.old) (n, page) }
        ensures room { room_of self.new ≡ room_of self.old }
    {
        // That keys are distinct, which is what the length tells a proof: a page has one frame.
        let _frames = self.frames.len();
        self.frames.pop(&number);
    }
}
