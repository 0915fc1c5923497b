ghost use Rattle.std.specs.Prelude.{◌++◌, length, codes, is_ok, IfErr};
ghost use Rattle.replies.specs.Printed.{printed_rows, printed_line, printed_lines, printed_count, printed_changed, printed_refusal, printed_reply};
ghost use Rattle.replies.specs.Writes.{IsNoInterruption, Writes};
ghost use Rattle.refusals.specs.Refusal.{with_detail};

use super::put::put;
use super::row::print_row;
use crate::reply::Reply;
use items::{Items, Text};
use itoa::Buffer;
use refusals::Refusal;
use sqlval::Value;
use std::io;
use std::io::Write;

/// Writes the text of a reply, each line with a line feed. Where the writer refuses, it has a
/// beginning of it.
pub fn print_reply<W: Write>(reply: &Reply, writer: &mut W) -> io::Result<()>
    ensures writes { Writes (W.contents writer.old) (W.contents writer.new) (is_ok result) (printed_reply reply.now) }
    ensures tried_again { IfErr result IsNoInterruption }
{
    match reply {
        Reply::Rows(rows) => print_rows(rows.as_slice(), writer),
        Reply::Row(row) => print_row(row, writer),
        Reply::EndOfRows => put(writer, b"02000\n"),
        Reply::Changed(count) => print_changed(*count, writer),
        Reply::Unchanged => put(writer, b"02000 0\n"),
        Reply::Lines(lines) => print_lines(lines.as_slice(), writer),
        Reply::Done => put(writer, b"00000\n"),
        Reply::Refused(refusal) => print_refusal(refusal, writer),
    }
}

/// The rows, and how many they are.
fn print_rows<W: Write>(rows: &[Items<Value>], writer: &mut W) -> io::Result<()>
    ensures writes { Writes (W.contents writer.old) (W.contents writer.new) (is_ok result)
        (printed_rows rows.now ++ printed_count (length rows.now) (codes " rows)\n")) }
    ensures tried_again { IfErr result IsNoInterruption }
{
    print_each_row(rows, writer)?;
    print_count(rows.len(), b" rows)\n", writer)
}

fn print_each_row<W: Write>(rows: &[Items<Value>], writer: &mut W) -> io::Result<()>
    ensures writes { Writes (W.contents writer.old) (W.contents writer.new) (is_ok result) (printed_rows rows.now) }
    ensures tried_again { IfErr result IsNoInterruption }
{
    for row in rows {
        print_row(row, writer)?;
    }
    Ok(())
}

/// The lines, and how many they are.
fn print_lines<W: Write>(lines: &[Text], writer: &mut W) -> io::Result<()>
    ensures writes { Writes (W.contents writer.old) (W.contents writer.new) (is_ok result)
        (printed_lines lines.now ++ printed_count (length lines.now) (codes " lines)\n")) }
    ensures tried_again { IfErr result IsNoInterruption }
{
    print_each_line(lines, writer)?;
    print_count(lines.len(), b" lines)\n", writer)
}

fn print_each_line<W: Write>(lines: &[Text], writer: &mut W) -> io::Result<()>
    ensures writes { Writes (W.contents writer.old) (W.contents writer.new) (is_ok result) (printed_lines lines.now) }
    ensures tried_again { IfErr result IsNoInterruption }
{
    for line in lines {
        print_line(line, writer)?;
    }
    Ok(())
}

fn print_line<W: Write>(line: &Text, writer: &mut W) -> io::Result<()>
    ensures writes { Writes (W.contents writer.old) (W.contents writer.new) (is_ok result) (printed_line line.now) }
    ensures tried_again { IfErr result IsNoInterruption }
{
    put_two(line.as_slice(), b"\n", writer)
}

fn print_count<W: Write>(count: usize, noun: &[u8], writer: &mut W) -> io::Result<()>
    ensures writes { Writes (W.contents writer.old) (W.contents writer.new) (is_ok result) (printed_count count noun.now) }
    ensures tried_again { IfErr result IsNoInterruption }
{
    put_three(b"(", Buffer::new().format(count).as_bytes(), noun, writer)
}

fn print_changed<W: Write>(count: usize, writer: &mut W) -> io::Result<()>
    ensures writes { Writes (W.contents writer.old) (W.contents writer.new) (is_ok result) (printed_changed count) }
    ensures tried_again { IfErr result IsNoInterruption }
{
    put_three(
        b"00000 ",
        Buffer::new().format(count).as_bytes(),
        b"\n",
        writer,
    )
}

fn print_refusal<W: Write>(refusal: &Refusal, writer: &mut W) -> io::Result<()>
    ensures writes { Writes (W.contents writer.old) (W.contents writer.new) (is_ok result) (printed_refusal refusal.now) }
    ensures tried_again { IfErr result IsNoInterruption }
{
    let code = refusal.code().as_bytes();
    match refusal.detail() {
        None => put_three(b"ERROR ", code, b"\n", writer),
        Some(detail) => print_detailed(code, detail, writer),
    }
}

fn print_detailed<W: Write>(code: &[u8], detail: &[u8], writer: &mut W) -> io::Result<()>
    ensures writes { Writes (W.contents writer.old) (W.contents writer.new) (is_ok result)
        (codes "ERROR " ++ (with_detail code.now (Some detail.now) ++ codes "\n")) }
    ensures tried_again { IfErr result IsNoInterruption }
{
    put_three(b"ERROR ", code, b" ", writer)?;
    put_two(detail, b"\n", writer)
}

fn put_three<W: Write>(first: &[u8], second: &[u8], third: &[u8], writer: &mut W) -> io::Result<()>
    ensures writes { Writes (W.contents writer.old) (W.contents writer.new) (is_ok result) (first.now ++ (second.now ++ third.now)) }
    ensures tried_again { IfErr result IsNoInterruption }
{
    put(writer, first)?;
    put_two(second, third, writer)
}

fn put_two<W: Write>(first: &[u8], second: &[u8], writer: &mut W) -> io::Result<()>
    ensures writes { Writes (W.contents writer.old) (W.contents writer.new) (is_ok result) (first.now ++ second.now) }
    ensures tried_again { IfErr result IsNoInterruption }
{
    put(writer, first)?;
    put(writer, second)
}
