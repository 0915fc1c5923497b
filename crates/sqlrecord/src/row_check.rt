//! Why bytes were not decoded as a row, found without memory.

ghost use Rattle.std.specs.Prelude.{◌≡◌, ◌↔◌, ◌∷◌, drop, false, IsTrue, IfSome, IsNone};
ghost use Rattle.sqlrecord.specs.declared.error.DecodeError.TheVariants.{Damaged};
ghost use Rattle.sqlrecord.specs.Row.{HasPart, HasNoPart, HasRow, IsNoCode};

use crate::characters::is_text_of;
use crate::row::decode_integer;
use crate::{DecodeError, MAXIMUM_ROW};

/// How many bytes the code of a text takes.
fn text_length(bytes: &[u8]) -> Option<usize>
    requires { bytes.now ≡ 2 ∷ drop 1 bytes.now }
    ensures some { IfSome result (HasPart bytes.now) }
    ensures none { IsNone result → HasNoPart bytes.now }
{
    if bytes.len() < 3 {
        return None;
    }
    let length = u16::from_be_bytes([bytes[1], bytes[2]]) as usize;
    if bytes.len() < 3 + length {
        return None;
    }
    if !is_text_of(&bytes[3..3 + length]) {
        return None;
    }
    Some(3 + length)
}

/// How many bytes the code of the value takes that the bytes begin with.
fn value_length(bytes: &[u8]) -> Option<usize>
    ensures some { IfSome result (HasPart bytes.now) }
    ensures none { IsNone result → HasNoPart bytes.now }
{
    if bytes.is_empty() {
        return None;
    }
    match bytes[0] {
        0 => Some(1),
        1 => match decode_integer(bytes) {
            Some(decoded) => Some(decoded.taken),
            None => None,
        },
        2 => text_length(bytes),
        _ => None,
    }
}

/// Whether bytes are the code of a row.
fn is_code(bytes: &[u8]) -> bool
    ensures some { IsTrue result → HasRow bytes.now }
    ensures none { result ≡ false → IsNoCode bytes.now }
{
    if bytes.len() > MAXIMUM_ROW {
        return false;
    }
    let mut at = 0;
    while at < bytes.len() {
        match value_length(&bytes[at..]) {
            Some(taken) => at += taken,
            None => return false,
        }
    }
    true
}

/// Why bytes were not decoded: they are the code of no row, or else memory was refused.
pub(crate) fn reason(bytes: &[u8]) -> DecodeError
    ensures damaged { (result ≡ Damaged) ↔ IsNoCode bytes.now }
{
    if is_code(bytes) {
        DecodeError::OutOfMemory
    } else {
        DecodeError::Damaged
    }
}
