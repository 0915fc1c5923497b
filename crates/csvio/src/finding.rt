//! The rows of a text, for a table of a schema.
ghost use Rattle.std.specs.Prelude.{IfOk, IfErr};
ghost use Rattle.csvio.specs.Formed.{FindsIn, HasFormed, RefusesFor, RefusesIn};

use crate::form::Form;
use crate::formed::{columns_named, formed_rows};
use crate::loading::refusal_of;
use csv_rows::read_records;
use denote::Rows;
use items::Text;
use refusals::{Reason, Refusal};
use sqlval::{Column, Schema};
use std::alloc::Global;
use std::io::Read;

/// The rows of a text, in this form, for the table of this name. Where there is none, `name`.
pub(crate) fn find_in<R: Read + Drop>(
    alloc: Global,
    schema: &Schema,
    form: Form,
    name: &Text,
    reader: R,
) -> Result<Rows, Refusal>
    ensures rows { IfOk result (FindsIn schema.now.tables form name.now (R.remaining reader)) }
    ensures refused { IfErr result (RefusesIn schema.now.tables form name.now (R.remaining reader)) }
{
    match columns_named(schema, name) {
        Some(columns) => read_for(alloc, columns, form, reader),
        None => Err(Refusal::Invalid(Reason::Name)),
    }
}

/// The rows of a text, in this form, for a table that has these columns.
fn read_for<R: Read + Drop>(
    alloc: Global,
    columns: &[Column],
    form: Form,
    reader: R,
) -> Result<Rows, Refusal>
    ensures rows { IfOk result (HasFormed form columns.now (R.remaining reader)) }
    ensures refused { IfErr result (RefusesFor columns.now form (R.remaining reader)) }
{
    match read_records(alloc, reader) {
        Ok(records) => formed_rows(alloc, form, columns, records.as_slice()),
        Err(error) => Err(refusal_of(error)),
    }
}
