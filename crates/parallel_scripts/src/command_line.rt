//! Command lines of `sqlmany`.
ghost use Rattle.std.specs.Prelude.{◌≡◌, ℕ, List, map, IfOk, IsOkAnd};
ghost use Rattle.parallel_scripts.specs.Words.{Asks};

use crate::options::Settings;
use crate::words::settings_asked;
use clap::error::ErrorKind;
use clap::{Arg, Command, Error, value_parser};
use frame_count::{GREATEST_FRAMES, LEAST_FRAMES};
use std::alloc::Global;
use std::convert::AsStr;

/// Reads the words of a command line of `sqlmany`, the program's name first:
/// `[--frames N] SCRIPT ..`, or `--frames=N`, with N from 16 to 4,096. A word that begins with `-`
/// names no script.
///
/// The answer is an error for all other words: also where they ask for help, which the error's text
/// then is. Words that ask for scripts are read without memory.
pub fn settings<'a, S: AsStr>(alloc: Global, words: &'a [S]) -> Result<Settings<'a, S>, Error>
    ensures asked { (count : ℕ) (names : List (List ℕ)) → Asks (map S.text words.entry.now) count names
        → IsOkAnd result (λ settings. (settings.frames.count ≡ count) × (map S.text settings.scripts.now ≡ names)) }
    ensures refused { IfOk result (λ settings. Asks (map S.text words.entry.now) settings.frames.count (map S.text settings.scripts.now)) }
{
    match settings_asked(words) {
        Some(settings) => Ok(settings),
        None => Err(told(alloc, words)),
    }
}

/// What is said of words that ask for no settings: help, or what is wrong with them.
fn told<'a, S: AsStr>(alloc: Global, words: &'a [S]) -> Error {
    let command: Command<'a> = match command_line(alloc) {
        Ok(command) => command,
        Err(error) => return error,
    };
    match command.try_get_matches_from(words) {
        Ok(_) => match surplus(alloc) {
            Ok(error) => error,
            Err(error) => error,
        },
        Err(error) => error,
    }
}

/// What is said of words that `clap` would take, and `sqlmany` does not.
fn surplus(alloc: Global) -> Result<Error, Error> {
    Ok(command_line(alloc)?.error(ErrorKind::InvalidValue, "options behind the scripts")?)
}

/// The option and the arguments of `sqlmany`, for its help and for what is said of wrong words.
fn command_line<'a>(alloc: Global) -> Result<Command<'a>, Error> {
    let frames = Arg::new(alloc, "frames")
        .long("frames")
        .value_name("N")
        .help("Frames of the page pool, from 16 to 4096")
        .value_parser(value_parser!(u32).range(
            i64::from(LEAST_FRAMES)..=i64::from(GREATEST_FRAMES),
        ))
        // `DEFAULT_FRAMES` as a text: `clap` borrows it, and one made of the number would take
        // memory.
        .default_value("256");
    let scripts = Arg::new(alloc, "scripts")
        .value_name("SCRIPT")
        .help(
            "Files of SQL, from 1 to 64, each carried out in a session and on a thread of its own",
        )
        .required(true)
        .num_args(1..);
    Ok(
        Command::new(alloc, "sqlmany")
            .about("Carries out scripts side by side on one database in memory")
            .arg(frames)?
            .arg(scripts)?,
    )
}
