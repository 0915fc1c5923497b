//! The program.
ghost use Rattle.std.specs.Prelude.{◌≡◌, ◌≢◌, ◌⊎◌, ℕ, List, false, length, map};
ghost use Rattle.clap.specs.Words.{kind_of};
ghost use Rattle.refusals.specs.declared.refusal.Refusal.TheVariants.{Disk as RefusedDisk};
ghost use Rattle.parallel_scripts.specs.Alone.{EndsAlone, IsNotRead};
ghost use Rattle.parallel_scripts.specs.Words.{Asks};

use crate::command_line::settings;
use crate::ending::{FAILED, ended, say};
use crate::files::{read_all, refusal_of};
use crate::handed::EndedScripts;
use crate::options::Settings;
use crate::tables::many_in_memory;
use clap::Error;
use clap::error::ErrorKind;
use frame_count::Frames;
use refusals::Refusal;
use shared::NoGate;
use std::convert::AsStr;
use std::fs::Files;
use std::io::Write;
use std::sync::Wait;
use std::thread::Threads;
use store::Store;

/// The exit status of a command line that asks for nothing that there is.
const WRONG_WORDS: u8 = 2;

/// Does what the words of a command line of `sqlmany` ask for, of which the first is the program's
/// name, and answers the exit status: 2 for words that ask for nothing that there is, 0 where they
/// ask for help, both with nothing written here, 3 where a script cannot be read, which is told,
/// and else that of `many_in_memory`. Where standard output is not open (`is_open`), no script is
/// read, and the status is 3. The tables are let go at the end.
///
/// That the scripts are what stands in the files that the words name is tested: what a file is, no
/// contract of the runtime says.
pub fn sqlmany<R: Files + Print + Eprint + AllocGlobal + Threads + Wait + Sync, S: AsStr, W: Write>(
    rt: &R,
    words: &[S],
    is_open: bool,
    writer: &mut W,
) -> u8
    ensures asked { (count : ℕ) (names : List (List ℕ)) → Asks (map S.text words.now) count names
        → EndsAlone (length names) (W.contents writer.old) (W.contents writer.new) result }
    ensures closed { is_open ≡ false → (count : ℕ) (names : List (List ℕ)) → Asks (map S.text words.now) count names
        → IsNotRead RefusedDisk (W.contents writer.old) (W.contents writer.new) result }
    ensures others { ((count : ℕ) (names : List (List ℕ)) → Asks (map S.text words.now) count names → ⊥)
        → (W.contents writer.new ≡ W.contents writer.old) × ((result ≡ 0) ⊎ (result ≡ 2)) }
{
    match settings(rt.alloc(), words) {
        Ok(settings) => {
            if !is_open {
                return not_read(Refusal::Disk, writer);
            }
            run_files(rt, &settings, writer)
        }
        Err(error) => wrong_words(rt, &error),
    }
}

/// Reads the scripts, all of them before a call is made, and carries them out over tables in
/// memory, which are let go at the end. Where one cannot be read, that is said, and the status
/// is 3.
fn run_files<R: Files + AllocGlobal + Threads + Wait + Sync, W: Write, S: AsStr>(
    rt: &R,
    settings: &Settings<'_, S>,
    writer: &mut W,
) -> u8
    ensures { EndsAlone (length settings.now.scripts.now) (W.contents writer.old) (W.contents writer.new) result }
{
    match read_all(rt, settings.scripts) {
        Ok(scripts) => run_texts(rt, settings.frames, scripts.as_slice(), writer),
        Err(error) => not_read(refusal_of(&error), writer),
    }
}

/// Carries out scripts over tables in memory.
fn run_texts<R: AllocGlobal + Threads + Wait + Sync, W: Write>(
    rt: &R,
    frames: Frames,
    scripts: &[Vec<u8>],
    writer: &mut W,
) -> u8
    ensures { EndsAlone (length scripts.now) (W.contents writer.old) (W.contents writer.new) result }
{
    let done = many_in_memory(rt, rt.alloc(), frames, scripts, &NoGate, writer);
    status_of(done)
}

/// The status of a run. What it hands back ends here.
fn status_of<S: Store>(done: EndedScripts<S>) -> u8
    ensures { result ≡ done.status }
{
    done.status
}

/// Says that no script was read.
fn not_read<W: Write>(refusal: Refusal, writer: &mut W) -> u8
    ensures ends { (count : ℕ) → EndsAlone count (W.contents writer.old) (W.contents writer.new) result }
    ensures told { IsNotRead refusal (W.contents writer.old) (W.contents writer.new) result }
{
    ended(say(refusal, FAILED, writer), writer).status
}

/// Prints help, or what is wrong with the words, and answers the exit status: 0 for help and 2 for
/// a fault.
fn wrong_words<R: Print + Eprint>(rt: &R, error: &Error) -> u8
    ensures help { (kind_of error.now ≡ ErrorKind.DisplayHelp) ⊎ (kind_of error.now ≡ ErrorKind.DisplayVersion)
        → result ≡ 0 }
    ensures fault { kind_of error.now ≢ ErrorKind.DisplayHelp → kind_of error.now ≢ ErrorKind.DisplayVersion
        → result ≡ 2 }
    ensures status { (result ≡ 0) ⊎ (result ≡ 2) }
{
    let _ = error.print(rt);
    if error.use_stderr() { WRONG_WORDS } else { 0 }
}
