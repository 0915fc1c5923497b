//! Command lines.

ghost use Rattle.std.specs.Prelude.{◌≡◌, ℕ, List, Option, map, IfOk, IsOkAnd};
ghost use Rattle.shell.specs.Words.{Asks, name_of};

use crate::options::Settings;
use crate::words::settings_asked;
use clap::error::ErrorKind;
use clap::{Arg, Command, Error, value_parser};
use frame_count::{GREATEST_FRAMES, LEAST_FRAMES};
use std::alloc::Global;
use std::convert::AsStr;

/// Reads the words of a command line of `sqlsh`, the program's name first.
///
/// The answer is an error for all words but those that ask for a number of frames from 16 to 4,096,
/// or say nothing of frames, and then for a file or none: also where they ask for help, which the
/// error's text then is. Words that ask for that are read without memory.
pub fn settings<'a, S: AsStr>(alloc: Global, words: &'a [S]) -> Result<Settings<'a>, Error>
    ensures asked { (count : ℕ) (file : Option (List ℕ)) → Asks (map S.text words.entry.now) count file
        → IsOkAnd result (λ settings. (settings.frames.count ≡ count) × (name_of settings.file ≡ file)) }
    ensures refused { IfOk result (λ settings. Asks (map S.text words.entry.now) settings.frames.count (name_of settings.file)) }
{
    match settings_asked(words) {
        Some(settings) => Ok(settings),
        None => Err(told(alloc, words)),
    }
}

/// What is said of words that ask for no settings: help, or what is wrong with them.
fn told<'a, S: AsStr>(alloc: Global, words: &'a [S]) -> Error {
    let command: Command<'a> = match command_line(alloc) {
        Ok(command) => command,
        Err(error) => return error,
    };
    match command.try_get_matches_from(words) {
        Ok(_) => match out_of_order(alloc) {
            Ok(error) => error,
            Err(error) => error,
        },
        Err(error) => error,
    }
}

/// What is said of words that `clap` would take, and `sqlsh` does not.
fn out_of_order(alloc: Global) -> Result<Error, Error> {
    Ok(command_line(alloc)?.error(
        ErrorKind::InvalidValue,
        "the words are run [--frames N] [FILE], load FILE TABLE CSV or dump FILE TABLE CSV, in this order",
    )?)
}

/// The commands of `sqlsh` and their options, for their help and for what is said of wrong words.
fn command_line<'a>(alloc: Global) -> Result<Command<'a>, Error> {
    let frames = Arg::new(alloc, "frames")
        .long("frames")
        .value_name("N")
        .help("Frames of the page pool, from 16 to 4096")
        .value_parser(value_parser!(u32).range(
            i64::from(LEAST_FRAMES)..=i64::from(GREATEST_FRAMES),
        ))
        // `DEFAULT_FRAMES` as a text: `clap` borrows it, and one made of the number would take
        // memory.
        .default_value("256");
    let file = Arg::new(alloc, "file").value_name("FILE").help(
        "The file that keeps the tables, made where there is none; without it they are gone at the end",
    );
    let run = Command::new(alloc, "run")
        .about("Reads SQL on standard input and prints rows, counts or refusals: sqlsh run db.nb")
        .arg(frames)?
        .arg(file)?;
    let load = transfer_line(
        alloc,
        "load",
        "Puts the rows of CSV into a table, and commits: sqlsh load db.nb T rows.csv",
        "The rows, without a header; - is standard input",
    )?;
    let dump = transfer_line(
        alloc,
        "dump",
        "Writes the rows of a table as CSV: sqlsh dump db.nb T rows.csv",
        "What the rows are written to, made or emptied",
    )?;
    let sqlsh = Command::new(alloc, "sqlsh")
        .about("A SQL engine that is being proved")
        .subcommand_required(true)
        .subcommand(run)?
        .subcommand(load)?
        .subcommand(dump)?;
    Ok(sqlsh)
}

/// A command for rows from or to CSV, and its words.
fn transfer_line<'a>(
    alloc: Global,
    name: &'a str,
    about: &'a str,
    csv: &'a str,
) -> Result<Command<'a>, Error> {
    let file = Arg::new(alloc, "file")
        .value_name("FILE")
        .help("The file that keeps the tables, made where there is none")
        .required(true);
    let table = Arg::new(alloc, "table")
        .value_name("TABLE")
        .help("The table")
        .required(true);
    let csv = Arg::new(alloc, "csv")
        .value_name("CSV")
        .help(csv)
        .required(true);
    let command = Command::new(alloc, name)
        .about(about)
        .arg(file)?
        .arg(table)?
        .arg(csv)?;
    Ok(command)
}
