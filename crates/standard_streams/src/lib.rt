//! The null device in place of the standard streams that are not open.
#![tactic(auto)]

ghost use Rattle.std.specs.Prelude.{◌≡◌, ◌&&◌, not, is_some, pos, IfSome};
ghost use Rattle.std.specs.Fd.{file_raw_fd};

use std::fs::{File, Files, OpenOptions};
use std::io;
use std::os::fd::AsRawFd;

const NULL_DEVICE: &str = "/dev/null";

/// The standard streams that a program has, and the null device in place of those that were not
/// open when it began. While this is kept, no file that is opened gets the number of a standard
/// stream, so that nothing is read from it or written over it by mistake.
#[derive(Drop)]
pub struct StandardStreams {
    input: Option<File>,
    output: Option<File>,
    errors: Option<File>,
    is_known: bool,
}

impl StandardStreams {
    /// Opens the null device as often as it gets the number of a standard stream. It has to be
    /// called before any file is opened. Where the null device cannot be opened, no stream is
    /// taken to be open.
    pub fn new<R: Files<File = File>>(rt: &R) -> StandardStreams
        ensures input { IfSome result.input (λ file. file_raw_fd file ≡ pos 0) }
        ensures output { IfSome result.output (λ file. file_raw_fd file ≡ pos 1) }
        ensures errors { IfSome result.errors (λ file. file_raw_fd file ≡ pos 2) }
    {
        let mut streams = StandardStreams {
            input: None,
            output: None,
            errors: None,
            is_known: false,
        };
        for _ in 0..4 {
            let Ok(file) = null_device(rt) else {
                return streams;
            };
            match file.as_raw_fd() {
                0 => streams.input = Some(file),
                1 => streams.output = Some(file),
                2 => streams.errors = Some(file),
                _ => {
                    streams.is_known = true;
                    return streams;
                }
            }
        }
        streams
    }

    /// Whether standard input was open.
    pub fn has_input(&self) -> bool
        ensures { result ≡ (self.now.is_known && not (is_some self.now.input)) }
    {
        self.is_known && self.input.is_none()
    }

    /// Whether standard output was open.
    pub fn has_output(&self) -> bool
        ensures { result ≡ (self.now.is_known && not (is_some self.now.output)) }
    {
        self.is_known && self.output.is_none()
    }
}

fn null_device<R: Files<File = File>>(rt: &R) -> io::Result<File> {
    let mut options = OpenOptions::new();
    options.read(true);
    options.write(true);
    options.open(rt, NULL_DEVICE)
}
