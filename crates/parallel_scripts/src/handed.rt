//! How scripts ended, and what is handed back of their device.

use sqlcore::Core;
use std::io;
use store::Store;

/// What is handed back of the device over which scripts were carried out.
#[derive(Drop)]
pub enum HandedBack<S: Store> {
    /// The device, whose store was not opened.
    Unopened(S::Device),
    /// The device, whose store was closed.
    Closed(S::Device),
    /// The core whose store could not be closed.
    Unclosed(Core<S>),
    /// Nothing: there was no memory for the scripts' answers, and the core was dropped.
    Nothing,
}

/// How scripts ended.
#[derive(Drop)]
pub struct EndedScripts<S: Store> {
    /// The exit status.
    pub status: u8,
    /// Whether all that was to be printed was written and passed on, or else the whole line
    /// `ERROR X0002` that says that it was not.
    pub is_told: bool,
    /// What is handed back of their device.
    pub back: HandedBack<S>,
}

/// What was printed of scripts, before it is passed on.
#[derive(Drop)]
pub(crate) struct Printed<S: Store> {
    /// The exit status, where the writer did not refuse.
    pub(crate) outcome: io::Result<u8>,
    /// What is handed back of the scripts' device.
    pub(crate) back: HandedBack<S>,
}

impl<S: Store> HandedBack<S> {
    ghost use Rattle.std.specs.Prelude.{◌≡◌};
    ghost use Rattle.parallel_scripts.specs.Handed.{is_closed};

    /// Whether the store was closed.
    pub(crate) fn is_closed(&self) -> bool
        ensures { result ≡ is_closed self.now }
    {
        matches!(self, HandedBack::Closed(_))
    }
}
