//! The SQL shell.
#![tactic(auto)]

use remarks::{ReplyWriter, ScriptReader, StatementLine, without_verbose};
use shell::sqlsh;
use standard_streams::StandardStreams;
use std::fs::{File, Files};
use std::io::{BufReader, BufWriter};
use std::process::ExitCode;
use std::rt::Env;
use std::{env, io};
use transfers::{run_transfer, transfer_asked};

/// The exit status where the words of the command line could not be read.
const NO_WORDS: u8 = 2;

fn main(rt: HostRuntime) -> ExitCode {
    let Ok(words) = words(&rt) else {
        return ExitCode::from(NO_WORDS);
    };
    let (is_verbose, words) = without_verbose(words);
    // Before any file is opened, and to the end.
    let streams = StandardStreams::new(&rt);
    let are_open = streams.has_input() && streams.has_output();
    if let Some(asked) = transfer_asked(words.as_slice()) {
        let mut writer = io::writer(&rt);
        let status = run_transfer(
            &rt,
            &asked,
            is_verbose,
            are_open,
            rt.reader(),
            &mut writer,
            &mut rt.stderr(),
        );
        return ExitCode::from(status);
    }
    let status = if is_verbose {
        run_with_remarks(&rt, words.as_slice(), are_open)
    } else {
        run(&rt, words.as_slice(), are_open)
    };
    ExitCode::from(status)
}

/// The words of the command line, the program's name first.
fn words<R: Env + AllocGlobal>(rt: &R) -> io::Result<Vec<String>> {
    Ok(env::args(rt)?.collect(rt.alloc())?)
}

/// Does what the words ask for, from standard input to standard output.
fn run<R: Files<File = File> + Input + Print + Eprint + AllocGlobal>(
    rt: &R,
    words: &[String],
    are_open: bool,
) -> u8 {
    let mut reader = rt.reader();
    match BufWriter::new(rt.alloc(), io::writer(rt)) {
        Ok(mut writer) => sqlsh(rt, words, are_open, &mut reader, &mut writer),
        Err(_) => sqlsh(rt, words, are_open, &mut reader, &mut io::writer(rt)),
    }
}

/// Does the same, and says on standard error what each refusal means; without memory for that it is
/// not said.
fn run_with_remarks<R: Files<File = File> + Input + Print + Eprint + AllocGlobal>(
    rt: &R,
    words: &[String],
    are_open: bool,
) -> u8 {
    let Ok(output) = BufWriter::new(rt.alloc(), io::writer(rt)) else {
        return run(rt, words, are_open);
    };
    let Ok(input) = BufReader::new(rt.alloc(), rt.reader()) else {
        return run(rt, words, are_open);
    };
    let statement = StatementLine::default();
    let Ok(mut reader) = ScriptReader::new(rt.alloc(), input, &statement) else {
        return run(rt, words, are_open);
    };
    let mut writer = ReplyWriter::new(output, rt, &statement);
    sqlsh(rt, words, are_open, &mut reader, &mut writer)
}
