//! A thread that writes what is committed while others make calls.

use crate::lock::Shared;
use crate::rule::Room;
use crossbeam_channel::{Receiver, Sender, bounded};
use sessions::{Changes, Language};
use std::alloc::{AllocError, Global};
use std::sync::Wait;
use store::Store;

/// Writes committed pages each time it is woken, until its wakers are gone.
#[derive(Drop)]
pub struct Flusher {
    calls: Receiver<()>,
}

/// Wakes a flusher. Once the last of its wakers is dropped the flusher ends.
#[derive(Drop)]
pub struct Waker {
    calls: Sender<()>,
}

impl Flusher {
    /// A flusher that waits for its first call, and a waker of it. Only want of memory is refused.
    pub fn new(alloc: Global) -> Result<(Flusher, Waker), AllocError> {
        let (sender, receiver) = bounded(alloc, 1)?;
        Ok((Flusher { calls: receiver }, Waker { calls: sender }))
    }

    /// Writes pages of this core until the wakers are gone. Of a refusal nobody is told: the pages
    /// are written at a later wake, at a commit that needs their room, or when the core is closed.
    pub fn work<S: Store, L: Language + Changes<S>, J: Room, R: Wait>(
        self,
        rt: &R,
        shared: &Shared<S, L, J>,
    ) {
        for _ in rt.forever() {
            if self.calls.recv(rt).is_err() {
                return;
            }
            let _ = shared.flush(rt);
        }
    }
}

impl Waker {
    /// One waker more of the same flusher. Only want of memory is refused.
    pub fn another(&self) -> Result<Waker, AllocError> {
        Ok(Waker {
            calls: self.calls.clone()?,
        })
    }

    /// Has the flusher write pages once more, unless it is to do so already. Where that is lost,
    /// the next wake does as well.
    pub fn wake<R: Wait>(&self, rt: &R) {
        let _ = self.calls.try_send(rt, ());
    }
}
