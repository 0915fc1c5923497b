//! Scripts of SQL side by side.
#![tactic(auto)]

use parallel_scripts::sqlmany;
use standard_streams::StandardStreams;
use std::io::BufWriter;
use std::process::ExitCode;
use std::rt::Env;
use std::{env, io};

/// The exit status where the words of the command line could not be read.
const NO_WORDS: u8 = 2;

fn main(rt: HostRuntime) -> ExitCode {
    let Ok(words) = words(&rt) else {
        return ExitCode::from(NO_WORDS);
    };
    // Before any file is opened, and to the end.
    let streams = StandardStreams::new(&rt);
    let is_open = streams.has_output();
    let status = match BufWriter::new(rt.alloc(), io::writer(&rt)) {
        Ok(mut writer) => sqlmany(&rt, words.as_slice(), is_open, &mut writer),
        Err(_) => sqlmany(&rt, words.as_slice(), is_open, &mut io::writer(&rt)),
    };
    ExitCode::from(status)
}

/// The words of the command line, the program's name first.
fn words<R: Env + AllocGlobal>(rt: &R) -> io::Result<Vec<String>> {
    Ok(env::args(rt)?.collect(rt.alloc())?)
}
