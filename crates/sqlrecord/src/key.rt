ghost use Rattle.std.specs.Prelude.{◌≡◌, ◌≢◌, ◌<◌, ◌+◌, ◌++◌, ◌↔◌, IfOk, OnOk, IsErrOf};
ghost use Rattle.sqlval.specs.CodedLength.{key_length};
ghost use Rattle.sqlrecord.specs.Storable.{IsStorable, AllStorable};
ghost use Rattle.sqlrecord.specs.Key.{biased, value_key, key_code, index_key_code};

use crate::EncodeError;
use items::Items;
use sqlval::{Value, coded_index_key_length, coded_key_length};
use std::alloc::{AllocError, Global};

/// The most bytes of a key's code, with the row number of an index key.
pub const MAXIMUM_KEY: usize = 600;

/// The integer with its sign bit flipped.
fn biased_of(number: i64) -> u64
    ensures { result ≡ biased number }
{
    if number >= 0 {
        number as u64 + (1 << 63)
    } else {
        (number + i64::MAX + 1) as u64
    }
}

/// Adds a value's part of a key.
fn put_value(code: &mut Vec<u8>, value: &Value) -> Result<(), AllocError>
    ensures put { OnOk result (code.new.items ≡ code.old.items ++ value_key value.now) }
    ensures storable { OnOk result (IsStorable value.now) }
{
    match value {
        Value::Null => code.push(0)?,
        Value::Int(number) => {
            code.push(1)?;
            code.extend_from_slice(&biased_of(*number).to_be_bytes())?;
        }
        Value::Text(text) => {
            code.push(2)?;
            code.extend_from_slice(text.as_slice())?;
            code.push(0)?;
        }
    }
    Ok(())
}

/// Adds the values of a key.
fn put_values(code: &mut Vec<u8>, key: &[Value]) -> Result<(), AllocError>
    ensures put { OnOk result (code.new.items ≡ code.old.items ++ key_code key.now) }
    ensures storable { OnOk result (AllStorable key.now) }
{
    for value in key {
        put_value(code, value)?;
    }
    Ok(())
}

/// The code of a key.
///
/// Refused for want of memory, and for the limit `key` just where it would take more than 600
/// bytes.
pub fn encode_key(alloc: Global, key: &[Value]) -> Result<Items<u8>, EncodeError>
    ensures code { IfOk result (λ code. code ≡ key_code key.now) }
    ensures storable { OnOk result (AllStorable key.now) }
    ensures limit { IsErrOf result EncodeError.Key ↔ (600 < key_length key.now) }
    ensures no_row { result ≢ Err EncodeError.Record }
{
    let length = coded_key_length(key);
    if length > MAXIMUM_KEY {
        return Err(EncodeError::Key);
    }
    let mut code = Vec::with_capacity(alloc, length)?;
    put_values(&mut code, key)?;
    Ok(Items::from_vec(code))
}

/// The code of an index key: the key, and the number of its row.
///
/// Refused for want of memory, and for the limit `key` just where it would take more than 600
/// bytes.
pub fn encode_index_key(alloc: Global, key: &[Value], number: u64) -> Result<Items<u8>, EncodeError>
    ensures code { IfOk result (λ code. code ≡ index_key_code key.now number) }
    ensures storable { OnOk result (AllStorable key.now) }
    ensures limit { IsErrOf result EncodeError.Key ↔ (600 < key_length key.now + 8) }
    ensures no_row { result ≢ Err EncodeError.Record }
{
    let length = coded_index_key_length(key);
    if length > MAXIMUM_KEY {
        return Err(EncodeError::Key);
    }
    let mut code = Vec::with_capacity(alloc, length)?;
    put_values(&mut code, key)?;
    code.extend_from_slice(&number.to_be_bytes())?;
    Ok(Items::from_vec(code))
}
