//! The commands over the files that their words name.
ghost use Rattle.std.specs.Prelude.{◌≡◌, false, IfErr};
ghost use Rattle.endings.specs.Status.{IsStatus};
ghost use Rattle.transfers.specs.Transfers.{IsRefused};

use crate::closing::without_csv;
use crate::formed_files::formed_over_files;
use crate::opening::opened_core;
use crate::over_core::{dump_to_end, load_batches_to_end, load_to_end};
use crate::words::{Transfer, Way};
use disk::{DiskError, FileDisk};
use endings::{EndedRun, FAILED, is_output, is_same_file, opened_file, tell};
use paged_store::Paged;
use refusals::Refusal;
use remarks::{RecordReader, RecordWriter};
use sqlcore::Core;
use std::alloc::Global;
use std::fs::{File, Files};
use std::io;
use std::io::{ErrorKind, Read, Write};
use std::time::Clock;
use store::Store;

/// The word that stands for standard input.
pub(crate) const INPUT: &str = "-";

/// Does what the words of `sqlsh load` or `sqlsh dump` ask for, and answers the exit status. FILE
/// is made where there is none; the CSV of a dump is made or emptied. FILE is opened first, and
/// then the CSV: where one of them cannot be, X0002 is said and the status is 3. So it is where the
/// CSV is FILE, before that is emptied; and where standard input or output is not open, before
/// anything is opened. Where FILE is standard output, nothing is said.
///
/// What a command does over a store, `load_to_end` and `dump_to_end` say. That these files are
/// opened and no other is tested: what a file is, no contract of the runtime says. Behind how many
/// records a load by batches stopped goes to the notes. Where it is asked for (`is_verbose`), the
/// runtime's errors tell once a second how many records were read or written.
pub fn run_transfer<
    P: Files<File = File> + Eprint + Clock + AllocGlobal,
    R: Read + Drop,
    W: Write,
    V: Write,
>(
    rt: &P,
    asked: &Transfer<'_>,
    is_verbose: bool,
    are_open: bool,
    input: R,
    writer: &mut W,
    notes: &mut V,
) -> u8
    ensures status { IsStatus result }
    ensures closed { are_open ≡ false → IsRefused (W.contents writer.old) (W.contents writer.new) result }
{
    if !are_open {
        return refuse(writer);
    }
    if is_output(rt, asked.file) {
        return FAILED;
    }
    let file = opened_file(rt, asked.file);
    run_over::<P, Paged<FileDisk>, R, W, V>(rt, asked, is_verbose, file, input, writer, notes)
}

/// Does what is asked over the store on a device, or says that this could not be opened.
fn run_over<
    P: Files<File = File> + Eprint + Clock + AllocGlobal,
    S: Store,
    R: Read + Drop,
    W: Write,
    V: Write,
>(
    rt: &P,
    asked: &Transfer<'_>,
    is_verbose: bool,
    device: Result<S::Device, DiskError>,
    input: R,
    writer: &mut W,
    notes: &mut V,
) -> u8
    ensures { IsStatus result }
{
    match opened_over::<S, W>(rt.alloc(), device, writer) {
        Ok(core) => {
            let input = RecordReader::new(input, rt, is_verbose);
            over_files(rt, asked, is_verbose, core, input, writer, notes)
        }
        Err(status) => status,
    }
}

/// Says X0002, and answers the exit status.
fn refuse<W: Write>(writer: &mut W) -> u8
    ensures { IsRefused (W.contents writer.old) (W.contents writer.new) result }
{
    let _ = tell(Refusal::Disk, writer);
    FAILED
}

/// The core of the store on a device, or the exit status where that could not be opened, which is
/// told.
fn opened_over<S: Store, W: Write>(
    alloc: Global,
    device: Result<S::Device, DiskError>,
    writer: &mut W,
) -> Result<Core<S>, u8>
    ensures { IfErr result (λ status. status ≡ 3) }
{
    match device {
        Ok(device) => match opened_core::<S, W>(alloc, device, writer) {
            Ok(core) => Ok(core),
            Err(ended) => Err(status_of(ended)),
        },
        Err(_) => Err(refuse(writer)),
    }
}

/// Opens the CSV, and does what is asked over the store of FILE.
fn over_files<
    P: Files<File = File> + Eprint + Clock + AllocGlobal,
    S: Store,
    R: Read + Drop,
    W: Write,
    V: Write,
>(
    rt: &P,
    asked: &Transfer<'_>,
    is_verbose: bool,
    core: Core<S>,
    input: R,
    writer: &mut W,
    notes: &mut V,
) -> u8
    ensures { IsStatus result }
{
    if asked.form.header || asked.form.plain {
        return formed_over_files(rt, asked, is_verbose, core, input, writer, notes);
    }
    match asked.way {
        Way::Load => load_over_files(rt, asked, is_verbose, core, input, writer),
        Way::LoadBatches(most) => batches_over_files(
            rt, asked, is_verbose, most, core, input, writer, notes,
        ),
        Way::Dump => dump_over_files(rt, asked, is_verbose, core, writer),
    }
}

/// Loads from the CSV, or from standard input.
fn load_over_files<
    P: Files<File = File> + Eprint + Clock + AllocGlobal,
    S: Store,
    R: Read + Drop,
    W: Write,
>(rt: &P, asked: &Transfer<'_>, is_verbose: bool, core: Core<S>, input: R, writer: &mut W) -> u8
    ensures { IsStatus result }
{
    let alloc = rt.alloc();
    if asked.csv == INPUT {
        load_from(alloc, core, asked, Ok(input), writer)
    } else {
        load_from(
            alloc,
            core,
            asked,
            csv_to_read(rt, asked, is_verbose),
            writer,
        )
    }
}

/// Loads from a CSV that was opened, or says that it was not.
fn load_from<S: Store, R: Read + Drop, W: Write>(
    alloc: Global,
    core: Core<S>,
    asked: &Transfer<'_>,
    csv: io::Result<R>,
    writer: &mut W,
) -> u8
    ensures { IsStatus result }
{
    match csv {
        Ok(csv) => status_of(load_to_end(alloc, core, asked.table.as_bytes(), csv, writer)),
        Err(_) => status_of(without_csv(core, writer)),
    }
}

/// Loads from the CSV, or from standard input, by batches.
fn batches_over_files<
    P: Files<File = File> + Eprint + Clock + AllocGlobal,
    S: Store,
    R: Read + Drop,
    W: Write,
    V: Write,
>(
    rt: &P,
    asked: &Transfer<'_>,
    is_verbose: bool,
    most: u32,
    core: Core<S>,
    input: R,
    writer: &mut W,
    notes: &mut V,
) -> u8
    ensures { IsStatus result }
{
    let alloc = rt.alloc();
    if asked.csv == INPUT {
        batches_from(alloc, core, asked, most, Ok(input), writer, notes)
    } else {
        let csv = csv_to_read(rt, asked, is_verbose);
        batches_from(alloc, core, asked, most, csv, writer, notes)
    }
}

/// Loads by batches from a CSV that was opened, or says that it was not.
fn batches_from<S: Store, R: Read + Drop, W: Write, V: Write>(
    alloc: Global,
    core: Core<S>,
    asked: &Transfer<'_>,
    most: u32,
    csv: io::Result<R>,
    writer: &mut W,
    notes: &mut V,
) -> u8
    ensures { IsStatus result }
{
    let table = asked.table.as_bytes();
    match csv {
        Ok(csv) => status_of(load_batches_to_end(alloc, core, table, most, csv, writer, notes)),
        Err(_) => status_of(without_csv(core, writer)),
    }
}

/// Dumps into the CSV.
fn dump_over_files<P: Files<File = File> + Eprint + Clock + AllocGlobal, S: Store, W: Write>(
    rt: &P,
    asked: &Transfer<'_>,
    is_verbose: bool,
    core: Core<S>,
    writer: &mut W,
) -> u8
    ensures { IsStatus result }
{
    dump_into(
        rt.alloc(),
        core,
        asked,
        csv_to_write(rt, asked, is_verbose),
        writer,
    )
}

/// Dumps into a CSV that was made, or says that it was not.
fn dump_into<S: Store, V: Write + Drop, W: Write>(
    alloc: Global,
    core: Core<S>,
    asked: &Transfer<'_>,
    csv: io::Result<V>,
    writer: &mut W,
) -> u8
    ensures { IsStatus result }
{
    match csv {
        Ok(mut csv) => {
            let table = asked.table.as_bytes();
            status_of(dump_to_end(alloc, core, table, &mut csv, writer))
        }
        Err(_) => status_of(without_csv(core, writer)),
    }
}

/// The CSV, opened to be read; refused where it is FILE. Where it is asked for, the records that were
/// read are told.
pub(crate) fn csv_to_read<'a, P: Files<File = File> + Eprint + Clock>(
    rt: &'a P,
    asked: &Transfer<'_>,
    is_verbose: bool,
) -> io::Result<RecordReader<File, &'a P>> {
    if is_same_file(rt, asked.file, asked.csv) {
        return Err(ErrorKind::InvalidInput.into());
    }
    match File::open(rt, asked.csv) {
        Ok(csv) => Ok(RecordReader::new(csv, rt, is_verbose)),
        Err(error) => Err(error),
    }
}

/// The CSV, made or emptied; refused where it is FILE. Where it is asked for, the records that were
/// written are told.
pub(crate) fn csv_to_write<'a, P: Files<File = File> + Eprint + Clock>(
    rt: &'a P,
    asked: &Transfer<'_>,
    is_verbose: bool,
) -> io::Result<RecordWriter<File, &'a P>> {
    if is_same_file(rt, asked.file, asked.csv) {
        return Err(ErrorKind::InvalidInput.into());
    }
    match File::create(rt, asked.csv) {
        Ok(csv) => Ok(RecordWriter::new(csv, rt, is_verbose)),
        Err(error) => Err(error),
    }
}

/// The status of a command. What it hands back of its device ends here.
pub(crate) fn status_of<S: Store>(ended: EndedRun<S>) -> u8
    ensures { result ≡ ended.status }
{
    ended.status
}
