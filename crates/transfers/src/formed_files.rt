//! The commands over files, for a text of a form.
ghost use Rattle.endings.specs.Status.{IsStatus};

use crate::closing::without_csv;
use crate::files::{INPUT, csv_to_read, csv_to_write, status_of};
use crate::over_core_formed::{dump_formed_to_end, load_formed_batches_to_end, load_formed_to_end};
use crate::words::{Transfer, Way};
use sqlcore::Core;
use std::alloc::Global;
use std::fs::{File, Files};
use std::io;
use std::io::{Read, Write};
use std::time::Clock;
use store::Store;

/// Opens the CSV, and does what is asked over the store of FILE, in the form that is asked for.
pub(crate) fn formed_over_files<
    P: Files<File = File> + Eprint + Clock + AllocGlobal,
    S: Store,
    R: Read + Drop,
    W: Write,
    V: Write,
>(
    rt: &P,
    asked: &Transfer<'_>,
    is_verbose: bool,
    core: Core<S>,
    input: R,
    writer: &mut W,
    notes: &mut V,
) -> u8
    ensures { IsStatus result }
{
    match asked.way {
        Way::Load => load_over_files(rt, asked, is_verbose, core, input, writer),
        Way::LoadBatches(most) => batches_over_files(
            rt, asked, is_verbose, most, core, input, writer, notes,
        ),
        Way::Dump => dump_over_files(rt, asked, is_verbose, core, writer),
    }
}

/// Loads from the CSV, or from standard input.
fn load_over_files<
    P: Files<File = File> + Eprint + Clock + AllocGlobal,
    S: Store,
    R: Read + Drop,
    W: Write,
>(rt: &P, asked: &Transfer<'_>, is_verbose: bool, core: Core<S>, input: R, writer: &mut W) -> u8
    ensures { IsStatus result }
{
    let alloc = rt.alloc();
    if asked.csv == INPUT {
        load_from(alloc, core, asked, Ok(input), writer)
    } else {
        load_from(
            alloc,
            core,
            asked,
            csv_to_read(rt, asked, is_verbose),
            writer,
        )
    }
}

/// Loads from a text that was opened, or says that it was not.
fn load_from<S: Store, R: Read + Drop, W: Write>(
    alloc: Global,
    core: Core<S>,
    asked: &Transfer<'_>,
    csv: io::Result<R>,
    writer: &mut W,
) -> u8
    ensures { IsStatus result }
{
    let form = asked.form;
    let table = asked.table.as_bytes();
    match csv {
        Ok(csv) => status_of(load_formed_to_end(alloc, core, form, table, csv, writer)),
        Err(_) => status_of(without_csv(core, writer)),
    }
}

/// Loads from the CSV, or from standard input, by batches.
fn batches_over_files<
    P: Files<File = File> + Eprint + Clock + AllocGlobal,
    S: Store,
    R: Read + Drop,
    W: Write,
    V: Write,
>(
    rt: &P,
    asked: &Transfer<'_>,
    is_verbose: bool,
    most: u32,
    core: Core<S>,
    input: R,
    writer: &mut W,
    notes: &mut V,
) -> u8
    ensures { IsStatus result }
{
    let alloc = rt.alloc();
    if asked.csv == INPUT {
        batches_from(alloc, core, asked, most, Ok(input), writer, notes)
    } else {
        let csv = csv_to_read(rt, asked, is_verbose);
        batches_from(alloc, core, asked, most, csv, writer, notes)
    }
}

/// Loads by batches from a text that was opened, or says that it was not.
fn batches_from<S: Store, R: Read + Drop, W: Write, V: Write>(
    alloc: Global,
    core: Core<S>,
    asked: &Transfer<'_>,
    most: u32,
    csv: io::Result<R>,
    writer: &mut W,
    notes: &mut V,
) -> u8
    ensures { IsStatus result }
{
    let form = asked.form;
    let table = asked.table.as_bytes();
    match csv {
        Ok(csv) => status_of(load_formed_batches_to_end(
            alloc, core, form, table, most, csv, writer, notes,
        )),
        Err(_) => status_of(without_csv(core, writer)),
    }
}

/// Dumps into the CSV.
fn dump_over_files<P: Files<File = File> + Eprint + Clock + AllocGlobal, S: Store, W: Write>(
    rt: &P,
    asked: &Transfer<'_>,
    is_verbose: bool,
    core: Core<S>,
    writer: &mut W,
) -> u8
    ensures { IsStatus result }
{
    dump_into(
        rt.alloc(),
        core,
        asked,
        csv_to_write(rt, asked, is_verbose),
        writer,
    )
}

/// Dumps into a text that was made, or says that it was not.
fn dump_into<S: Store, V: Write + Drop, W: Write>(
    alloc: Global,
    core: Core<S>,
    asked: &Transfer<'_>,
    csv: io::Result<V>,
    writer: &mut W,
) -> u8
    ensures { IsStatus result }
{
    let form = asked.form;
    let table = asked.table.as_bytes();
    match csv {
        Ok(mut csv) => status_of(dump_formed_to_end(alloc, core, form, table, &mut csv, writer)),
        Err(_) => status_of(without_csv(core, writer)),
    }
}
