//! Why bytes were not decoded as a key, found without memory.

ghost use Rattle.std.specs.Prelude.{◌≡◌, ◌↔◌, ◌∷◌, drop, false, IsTrue, IfSome, IsNone};
ghost use Rattle.sqlrecord.specs.declared.error.DecodeError.TheVariants.{Damaged};
ghost use Rattle.sqlrecord.specs.Key.{HasKeyPart, HasNoKeyPart, HasKey, IsNoKey};

use crate::DecodeError;
use crate::characters::is_text_of;
use crate::key_decode::{decode_integer, first_zero};

/// How many bytes the key of a text takes.
fn text_length(bytes: &[u8]) -> Option<usize>
    requires { bytes.now ≡ 2 ∷ drop 1 bytes.now }
    ensures some { IfSome result (HasKeyPart bytes.now) }
    ensures none { IsNone result → HasNoKeyPart bytes.now }
{
    let length = match first_zero(&bytes[1..]) {
        Some(length) => length,
        None => return None,
    };
    if !is_text_of(&bytes[1..1 + length]) {
        return None;
    }
    Some(2 + length)
}

/// How many bytes the key of the value takes that the bytes begin with.
fn value_length(bytes: &[u8]) -> Option<usize>
    ensures some { IfSome result (HasKeyPart bytes.now) }
    ensures none { IsNone result → HasNoKeyPart bytes.now }
{
    if bytes.is_empty() {
        return None;
    }
    match bytes[0] {
        0 => Some(1),
        1 => match decode_integer(bytes) {
            Some(part) => Some(part.taken),
            None => None,
        },
        2 => text_length(bytes),
        _ => None,
    }
}

/// Whether bytes are the code of a key.
fn is_key(bytes: &[u8]) -> bool
    ensures some { IsTrue result → HasKey bytes.now }
    ensures none { result ≡ false → IsNoKey bytes.now }
{
    let mut at = 0;
    while at < bytes.len() {
        match value_length(&bytes[at..]) {
            Some(taken) => at += taken,
            None => return false,
        }
    }
    true
}

/// Why bytes were not decoded: they are the code of no key, or else memory was refused.
pub(crate) fn reason(bytes: &[u8]) -> DecodeError
    ensures damaged { (result ≡ Damaged) ↔ IsNoKey bytes.now }
{
    if is_key(bytes) {
        DecodeError::OutOfMemory
    } else {
        DecodeError::Damaged
    }
}
