//! Bytes that cannot stand in a line: `\n`, `\t`, `\r`, `\\`, and `\xNN` for the byte of two
//! hexadecimal digits.

ghost use Rattle.std.specs.Prelude.{◌≡◌, ◌≤◌, ◌<◌, ◌∷◌, ◌++◌, ℕ, List, IfOk, OnOk, length};
ghost use Rattle.syntax_tests.specs.Escapes.{Means, Spells, digit_value, line_of, written};
ghost use Rattle.syntax_tests.specs.Escapes as spec;

use std::alloc::{AllocError, Global};

/// Bytes for which the line stands. The answer is an error for want of memory alone.
pub fn unescaped(alloc: Global, line: &[u8]) -> Result<Vec<u8>, AllocError>
    ensures { IfOk result (λ text. Spells line.now text.items) }
{
    let mut text = Vec::new(alloc);
    let mut rest = line;
    while let [first, after @ ..] = rest {
        let (byte, left) = first_byte(*first, after);
        text.push(byte)?;
        rest = left;
    }
    Ok(text)
}

/// A text with each backslash written twice; the line stands for the text again. The answer is an
/// error for want of memory alone.
pub fn escaped(alloc: Global, text: &[u8]) -> Result<Vec<u8>, AllocError>
    ensures exact { IfOk result (λ line. line.items ≡ line_of text.now) }
    ensures read_back { IfOk result (λ line. Spells line.items text.now) }
{
    let mut line = Vec::new(alloc);
    for byte in text {
        push_written(&mut line, *byte)?;
    }
    Ok(line)
}

fn push_written(line: &mut Vec<u8>, byte: u8) -> Result<(), AllocError>
    ensures { OnOk result (line.new.items ≡ line.old.items ++ written byte) }
{
    if byte == b'\\' {
        line.push(b'\\')?;
    }
    line.push(byte)?;
    Ok(())
}

/// The first of the bytes for which a line stands, and what is left of the line.
fn first_byte(first: u8, after: &[u8]) -> (u8, &[u8])
    ensures step { (text : List ℕ) → Spells result.1.now text → Spells (first ∷ after.now) (result.0 ∷ text) }
    ensures shorter { length result.1.now ≤ length after.now }
{
    if first == b'\\' {
        after_backslash(after)
    } else {
        (first, after)
    }
}

/// The byte that is meant behind a backslash, and what is left.
fn after_backslash(after: &[u8]) -> (u8, &[u8])
    ensures means { Means after.now result.0 result.1.now }
    ensures shorter { length result.1.now ≤ length after.now }
{
    match after {
        [] => (b'\\', after),
        [first, rest @ ..] => {
            if *first == b'x' {
                after_x(rest)
            } else {
                (meaning(*first), rest)
            }
        }
    }
}

/// The byte that is meant behind `\x`, and what is left.
fn after_x(after: &[u8]) -> (u8, &[u8])
    ensures means { Means (120 ∷ after.now) result.0 result.1.now }
    ensures shorter { length result.1.now ≤ length after.now }
{
    match after {
        [high, low, rest @ ..] => (digit(*high) * 16 + digit(*low), rest),
        _ => (b'x', after),
    }
}

fn meaning(byte: u8) -> u8
    ensures { result ≡ spec.meaning byte }
{
    match byte {
        b'n' => b'\n',
        b't' => b'\t',
        b'r' => b'\r',
        other => other,
    }
}

fn digit(byte: u8) -> u8
    ensures exact { result ≡ digit_value byte }
    ensures small { result < 16 }
{
    match byte {
        b'0'..=b'9' => byte - b'0',
        b'a'..=b'f' => byte - b'a' + 10,
        b'A'..=b'F' => byte - b'A' + 10,
        _ => 0,
    }
}
