ghost use Rattle.std.specs.Prelude.{◌≡◌, ◌≢◌, ◌<◌, ◌≤◌, ◌+◌, ◌++◌, ◌∷◌, ◌↔◌, List, drop, length, IfOk, OnOk, IfSome, IsNone, IsErrOf};
ghost use Rattle.sqlval.specs.CodedLength.{row_length};
ghost use Rattle.sqlval.specs.declared.value.Value.{Value as AnyValue};
ghost use Rattle.sqlrecord.specs.Storable.{IsStorable};
ghost use Rattle.sqlrecord.specs.Row.{value_code, IsCodeOf, IsNoCode, IsPartOf, HasNoPart};

use crate::row_check::reason;
use crate::{DecodeError, EncodeError};
use items::{Items, Text};
use sqlval::{Value, coded_row_length};
use std::alloc::{AllocError, Global};

/// The most bytes of a row's code.
pub const MAXIMUM_ROW: usize = 1000;

/// Adds a value's part of a row.
fn put_value(code: &mut Vec<u8>, value: &Value) -> Result<(), AllocError>
    ensures put { OnOk result (code.new.items ≡ code.old.items ++ value_code value.now) }
    ensures storable { OnOk result (IsStorable value.now) }
{
    match value {
        Value::Null => code.push(0)?,
        Value::Int(number) => {
            code.push(1)?;
            code.extend_from_slice(&number.to_be_bytes())?;
        }
        Value::Text(text) => {
            let length = text.len() as u16;
            code.push(2)?;
            code.extend_from_slice(&length.to_be_bytes())?;
            code.extend_from_slice(text.as_slice())?;
        }
    }
    Ok(())
}

/// The code of a row.
///
/// Refused for want of memory, and for the limit `record` just where it would take more than 1,000
/// bytes.
pub fn encode_row(alloc: Global, row: &[Value]) -> Result<Items<u8>, EncodeError>
    ensures code { IfOk result (λ code. IsCodeOf code row.now) }
    ensures limit { IsErrOf result EncodeError.Record ↔ (1000 < row_length row.now) }
    ensures no_key { result ≢ Err EncodeError.Key }
{
    let length = coded_row_length(row);
    if length > MAXIMUM_ROW {
        return Err(EncodeError::Record);
    }
    let mut code = Vec::with_capacity(alloc, length)?;
    for value in row {
        put_value(&mut code, value)?;
    }
    Ok(Items::from_vec(code))
}

/// A value, and how many bytes its code takes.
#[derive(Drop)]
pub(crate) struct Decoded {
    pub(crate) value: Value,
    pub(crate) taken: usize,
}

/// An integer behind its first byte; `None` just where there are fewer than 8 bytes.
pub(crate) fn decode_integer(bytes: &[u8]) -> Option<Decoded>
    requires { bytes.now ≡ 1 ∷ drop 1 bytes.now }
    ensures part { IfSome result (λ decoded. IsPartOf bytes.now decoded.value decoded.taken) }
    ensures none { IsNone result → HasNoPart bytes.now }
{
    if bytes.len() < 9 {
        return None;
    }
    let number = i64::from_be_bytes([
        bytes[1], bytes[2], bytes[3], bytes[4], bytes[5], bytes[6], bytes[7], bytes[8],
    ]);
    Some(Decoded {
        value: Value::Int(number),
        taken: 9,
    })
}

/// A text behind its first byte; `None` for want of memory too.
fn decode_text(alloc: Global, bytes: &[u8]) -> Option<Decoded>
    requires { bytes.now ≡ 2 ∷ drop 1 bytes.now }
    ensures { IfSome result (λ decoded. IsPartOf bytes.now decoded.value decoded.taken) }
{
    if bytes.len() < 3 {
        return None;
    }
    let length = u16::from_be_bytes([bytes[1], bytes[2]]) as usize;
    if bytes.len() < 3 + length {
        return None;
    }
    let Ok(codes) = Items::from_slice(alloc, &bytes[3..3 + length]) else {
        return None;
    };
    let text = Text::from_items(codes)?;
    Some(Decoded {
        value: Value::Text(text),
        taken: 3 + length,
    })
}

/// The value whose code the bytes begin with; `None` for want of memory too.
fn decode_value(alloc: Global, bytes: &[u8]) -> Option<Decoded>
    ensures { IfSome result (λ decoded. IsPartOf bytes.now decoded.value decoded.taken) }
{
    if bytes.is_empty() {
        return None;
    }
    match bytes[0] {
        0 => Some(Decoded {
            value: Value::Null,
            taken: 1,
        }),
        1 => decode_integer(bytes),
        2 => decode_text(alloc, bytes),
        _ => None,
    }
}

/// The row of a code; `None` for want of memory too.
fn read_row(alloc: Global, bytes: &[u8]) -> Option<Items<Value>>
    ensures { IfSome result (λ row. IsCodeOf bytes.now row) }
{
    if bytes.len() > MAXIMUM_ROW {
        return None;
    }
    let mut row = Items::new(alloc);
    let mut at = 0;
    while at < bytes.len() {
        let Decoded { value, taken } = decode_value(alloc, &bytes[at..])?;
        row.push(value).ok()?;
        at += taken;
    }
    Some(row)
}

/// The row of a code.
///
/// Refused as `Damaged` just where the bytes are the code of no row, with and without memory; else
/// for want of memory alone.
pub fn decode_row(alloc: Global, bytes: &[u8]) -> Result<Items<Value>, DecodeError>
    ensures row { IfOk result (λ row. IsCodeOf bytes.now row) }
    ensures only { IfOk result (λ row. (other : List AnyValue) → IsCodeOf bytes.now other → other ≡ row) }
    ensures damaged { (result ≡ Err DecodeError.Damaged) ↔ IsNoCode bytes.now }
{
    match read_row(alloc, bytes) {
        Some(row) => Ok(row),
        None => Err(reason(bytes)),
    }
}
