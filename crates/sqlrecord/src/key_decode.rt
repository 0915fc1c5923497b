ghost use Rattle.std.specs.Prelude.{◌≡◌, ◌≢◌, ◌↔◌, ◌<◌, ◌≤◌, ◌+◌, ◌∷◌, ◌^◌, ℕ, List, drop, length, slice_index, IfOk, IfSome, IsNone};
ghost use Rattle.sqlval.specs.declared.value.Value.{Value as AnyValue};
ghost use Rattle.sqlrecord.specs.Key.{biased, IsKeyOf, IsNoKey, IsKeyPartOf, HasNoKeyPart, index_key_code};

use crate::DecodeError;
use crate::key_check::reason;
use items::{Items, Text};
use sqlval::Value;
use std::alloc::Global;

/// A value, and how many bytes its key takes.
#[derive(Drop)]
pub(crate) struct KeyPart {
    pub(crate) value: Value,
    pub(crate) taken: usize,
}

/// The place of the first byte 0.
pub(crate) fn first_zero(bytes: &[u8]) -> Option<usize>
    ensures some { IfSome result (λ n. (n < length bytes.now) × (slice_index bytes.now n ≡ 0)) }
    ensures first { IfSome result (λ n. (k : ℕ) → k < n → slice_index bytes.now k ≢ 0) }
    ensures none { IsNone result → (k : ℕ) → k < length bytes.now → slice_index bytes.now k ≢ 0 }
{
    for (i, byte) in bytes.iter().enumerate() {
        if *byte == 0 {
            return Some(i);
        }
    }
    None
}

/// The integer of 8 bytes with the sign bit flipped.
fn unbiased(number: u64) -> i64
    ensures { number ≡ biased result }
{
    if number >= 1 << 63 {
        (number - (1 << 63)) as i64
    } else {
        number as i64 - i64::MAX - 1
    }
}

/// An integer behind its first byte; `None` just where there are fewer than 8 bytes.
pub(crate) fn decode_integer(bytes: &[u8]) -> Option<KeyPart>
    requires { bytes.now ≡ 1 ∷ drop 1 bytes.now }
    ensures part { IfSome result (λ part. IsKeyPartOf bytes.now part.value part.taken) }
    ensures none { IsNone result → HasNoKeyPart bytes.now }
{
    if bytes.len() < 9 {
        return None;
    }
    let number = u64::from_be_bytes([
        bytes[1], bytes[2], bytes[3], bytes[4], bytes[5], bytes[6], bytes[7], bytes[8],
    ]);
    Some(KeyPart {
        value: Value::Int(unbiased(number)),
        taken: 9,
    })
}

/// A text behind its first byte; `None` for want of memory too.
fn decode_text(alloc: Global, bytes: &[u8]) -> Option<KeyPart>
    requires { bytes.now ≡ 2 ∷ drop 1 bytes.now }
    ensures { IfSome result (λ part. IsKeyPartOf bytes.now part.value part.taken) }
{
    let length = first_zero(&bytes[1..])?;
    let Ok(codes) = Items::from_slice(alloc, &bytes[1..1 + length]) else {
        return None;
    };
    let text = Text::from_items(codes)?;
    Some(KeyPart {
        value: Value::Text(text),
        taken: 2 + length,
    })
}

/// The value whose key the bytes begin with; `None` for want of memory too.
fn decode_value(alloc: Global, bytes: &[u8]) -> Option<KeyPart>
    ensures { IfSome result (λ part. IsKeyPartOf bytes.now part.value part.taken) }
{
    if bytes.is_empty() {
        return None;
    }
    match bytes[0] {
        0 => Some(KeyPart {
            value: Value::Null,
            taken: 1,
        }),
        1 => decode_integer(bytes),
        2 => decode_text(alloc, bytes),
        _ => None,
    }
}

/// The key of a code; `None` for want of memory too.
fn read_key(alloc: Global, bytes: &[u8]) -> Option<Items<Value>>
    ensures { IfSome result (λ key. IsKeyOf bytes.now key) }
{
    let mut key = Items::new(alloc);
    let mut at = 0;
    while at < bytes.len() {
        let KeyPart { value, taken } = decode_value(alloc, &bytes[at..])?;
        key.push(value).ok()?;
        at += taken;
    }
    Some(key)
}

/// The key of a code without a row number, of whatever length.
///
/// Refused as `Damaged` just where the bytes are the code of no key, with and without memory; else
/// for want of memory alone.
pub fn decode_key(alloc: Global, bytes: &[u8]) -> Result<Items<Value>, DecodeError>
    ensures key { IfOk result (λ key. IsKeyOf bytes.now key) }
    ensures only { IfOk result (λ key. (other : List AnyValue) → IsKeyOf bytes.now other → other ≡ key) }
    ensures damaged { (result ≡ Err DecodeError.Damaged) ↔ IsNoKey bytes.now }
{
    match read_key(alloc, bytes) {
        Some(key) => Ok(key),
        None => Err(reason(bytes)),
    }
}

/// The row number at the end of an index key; `None` just where there are fewer than 8 bytes.
pub fn row_number_of(bytes: &[u8]) -> Option<u64>
    ensures some { IfSome result (λ number. (key : List AnyValue) (n : ℕ) → n < 2 ^ 64
        → bytes.now ≡ index_key_code key n → number ≡ n) }
    ensures none { IsNone result ↔ (length bytes.now < 8) }
{
    if bytes.len() < 8 {
        return None;
    }
    let at = bytes.len() - 8;
    Some(u64::from_be_bytes([
        bytes[at],
        bytes[at + 1],
        bytes[at + 2],
        bytes[at + 3],
        bytes[at + 4],
        bytes[at + 5],
        bytes[at + 6],
        bytes[at + 7],
    ]))
}
