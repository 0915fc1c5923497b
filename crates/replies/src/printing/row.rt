ghost use Rattle.std.specs.Prelude.{◌≡◌, is_ok, IfErr};
ghost use Rattle.replies.specs.Printed.{quotes_doubled, printed_text, printed_value, other_field, other_fields, printed_fields, printed_row};
ghost use Rattle.replies.specs.Writes.{IsNoInterruption, Writes};

use super::put::put;
use items::Items;
use itoa::Buffer;
use memchr::memchr;
use sqlval::Value;
use std::io;
use std::io::Write;

/// A row on a line of its own.
pub(crate) fn print_row<W: Write>(row: &Items<Value>, writer: &mut W) -> io::Result<()>
    ensures writes { Writes (W.contents writer.old) (W.contents writer.new) (is_ok result) (printed_row row.now) }
    ensures tried_again { IfErr result IsNoInterruption }
{
    print_fields(row.as_slice(), writer)?;
    put(writer, b"\n")
}

fn print_fields<W: Write>(row: &[Value], writer: &mut W) -> io::Result<()>
    ensures writes { Writes (W.contents writer.old) (W.contents writer.new) (is_ok result) (printed_fields row.now) }
    ensures tried_again { IfErr result IsNoInterruption }
{
    match row {
        [] => Ok(()),
        [first, others @ ..] => {
            print_value(first, writer)?;
            print_others(others, writer)
        }
    }
}

fn print_others<W: Write>(values: &[Value], writer: &mut W) -> io::Result<()>
    ensures writes { Writes (W.contents writer.old) (W.contents writer.new) (is_ok result) (other_fields values.now) }
    ensures tried_again { IfErr result IsNoInterruption }
{
    for value in values {
        print_other(value, writer)?;
    }
    Ok(())
}

fn print_other<W: Write>(value: &Value, writer: &mut W) -> io::Result<()>
    ensures writes { Writes (W.contents writer.old) (W.contents writer.new) (is_ok result) (other_field value.now) }
    ensures tried_again { IfErr result IsNoInterruption }
{
    put(writer, b"|")?;
    print_value(value, writer)
}

fn print_value<W: Write>(value: &Value, writer: &mut W) -> io::Result<()>
    ensures writes { Writes (W.contents writer.old) (W.contents writer.new) (is_ok result) (printed_value value.now) }
    ensures tried_again { IfErr result IsNoInterruption }
{
    match value {
        Value::Null => put(writer, b"NULL"),
        Value::Int(number) => put(writer, Buffer::new().format(*number).as_bytes()),
        Value::Text(text) => print_text(text.as_slice(), writer),
    }
}

/// A text in single quotes.
fn print_text<W: Write>(text: &[u8], writer: &mut W) -> io::Result<()>
    ensures writes { Writes (W.contents writer.old) (W.contents writer.new) (is_ok result) (printed_text text.now) }
    ensures tried_again { IfErr result IsNoInterruption }
{
    put(writer, b"'")?;
    print_quoted(text, writer)?;
    put(writer, b"'")
}

/// The characters of a text, each quote twice: run by run, from quote to quote.
fn print_quoted<W: Write>(text: &[u8], writer: &mut W) -> io::Result<()>
    ensures writes { Writes (W.contents writer.old) (W.contents writer.new) (is_ok result) (quotes_doubled text.now) }
    ensures tried_again { IfErr result IsNoInterruption }
{
    let mut rest = text;
    while let Some(at) = memchr(b'\'', rest) {
        put(writer, &rest[..at])?;
        put(writer, b"''")?;
        rest = &rest[at + 1..];
    }
    put(writer, rest)
}
