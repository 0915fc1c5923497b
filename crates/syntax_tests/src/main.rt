//! Prints, for each line of its input, the printed text of the statement that the line spells, or
//! its refusal. A line that begins with `#` is a heading and comes out as it is.
#![tactic(auto)]

mod escapes;
mod foreign;

use escapes::{escaped, unescaped};
use foreign::is_foreign;
use items::Items;
use lexer::tokens;
use parser::parse;
use printer::print;
use refusals::Refusal;
use std::alloc::Global;
use std::io;
use std::io::{BufWriter, Read, Write};

fn main(rt: HostRuntime) -> io::Result<()> {
    let alloc = rt.alloc();
    let mut input = Vec::new(alloc);
    rt.reader().read_to_end(&mut input)?;
    let mut writer = BufWriter::new(alloc, io::writer(&rt))?;
    for line in input.as_slice().split(|byte| *byte == b'\n') {
        write_line(alloc, line, &mut writer)?;
    }
    writer.flush()
}

/// Writes what comes of one line.
fn write_line<W: Write>(alloc: Global, line: &[u8], writer: &mut W) -> io::Result<()> {
    if line.first() == Some(&b'#') {
        writer.write_all(line)?;
    } else {
        let text = unescaped(alloc, line)?;
        match printed(alloc, text.as_slice()) {
            Ok(found) => writer.write_all(escaped(alloc, found.as_slice())?.as_slice())?,
            Err(refusal) => write!(writer, "ERROR {refusal}")?,
        }
    }
    writer.write_all(b"\n")
}

/// The printed text of the statement that a text spells.
fn printed(alloc: Global, text: &[u8]) -> Result<Items<u8>, Refusal> {
    let tokens = tokens(alloc, text)?;
    if tokens.iter().any(is_foreign) {
        return Err(Refusal::NotSupported);
    }
    let statement = parse(alloc, tokens.as_slice())?;
    Ok(print(alloc, &statement)?)
}
