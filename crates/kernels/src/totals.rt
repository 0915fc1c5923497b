//! The values of set functions over the values that they take.

ghost use Rattle.std.specs.Prelude.{◌≡◌, ◌∷◌, IfOk, fold, pos};
ghost use Rattle.sqlval.specs.Arithmetic.{in_range as value_in_range};
ghost use Rattle.sqlval.specs.Code.{IsUnlessMemory};
ghost use Rattle.denote.specs.Group.{aggregated, lesser, greater, total};
ghost use Rattle.kernels.specs.Totals.{integer_in};

use sqlval::{Code, Value, sort_order};
use std::alloc::{AllocError, Global};
use typing::SetFunctionType;

/// The integer; 0 for null and for a text, which typing excludes.
fn integer_of(value: &Value) -> i64
    ensures { result ≡ integer_in value.now }
{
    match value {
        Value::Int(number) => *number,
        _ => 0,
    }
}

/// The exact sum of the integers.
fn total_of(values: &[Value]) -> i128
    ensures { result ≡ total values.now }
{
    let mut sum: i128 = 0;
    for value in values {
        sum += i128::from(integer_of(value));
    }
    sum
}

/// An integer as a value. Refuses one outside signed 64 bits.
pub fn in_range(exact: i128) -> Result<Value, Code>
    ensures { result ≡ value_in_range exact }
{
    match i64::try_from(exact) {
        Ok(number) => Ok(Value::Int(number)),
        Err(_) => Err(Code::OutOfRange),
    }
}

/// SUM: null over no value. Refuses a whole sum outside signed 64 bits, whatever its parts are.
fn sum_of(values: &[Value]) -> Result<Value, Code>
    ensures { result ≡ aggregated SetFunctionType.Sum values.now }
{
    match values.split_first() {
        None => Ok(Value::Null),
        Some(_) => in_range(total_of(values)),
    }
}

/// AVG: the exact sum divided by the count, cut toward zero; null over no value.
fn average_of(values: &[Value]) -> Result<Value, Code>
    ensures { result ≡ aggregated SetFunctionType.Avg values.now }
{
    match values.split_first() {
        None => Ok(Value::Null),
        Some(_) => in_range(total_of(values) / values.len() as i128),
    }
}

/// The least value in the value order, the first of alike ones.
fn least_of<'a>(first: &'a Value, others: &'a [Value]) -> &'a Value
    ensures { result.now ≡ fold lesser first.now others.now }
{
    let mut best = first;
    for value in others {
        if sort_order(value, best).is_lt() {
            best = value;
        }
    }
    best
}

/// The greatest value in the value order, the first of alike ones.
fn greatest_of<'a>(first: &'a Value, others: &'a [Value]) -> &'a Value
    ensures { result.now ≡ fold greater first.now others.now }
{
    let mut best = first;
    for value in others {
        if sort_order(best, value).is_lt() {
            best = value;
        }
    }
    best
}

/// MIN: null over no value.
fn minimum(alloc: Global, values: &[Value]) -> Result<Value, AllocError>
    ensures { IfOk result (λ found. aggregated SetFunctionType.Min values.now ≡ Ok found) }
{
    match values.split_first() {
        None => Ok(Value::Null),
        Some((first, others)) => least_of(first, others).copy(alloc),
    }
}

/// MAX: null over no value.
fn maximum(alloc: Global, values: &[Value]) -> Result<Value, AllocError>
    ensures { IfOk result (λ found. aggregated SetFunctionType.Max values.now ≡ Ok found) }
{
    match values.split_first() {
        None => Ok(Value::Null),
        Some((first, others)) => greatest_of(first, others).copy(alloc),
    }
}

/// The value of a set function over the values that it takes. Refuses a whole outside signed 64
/// bits, and where it is a value perhaps for want of memory.
pub fn aggregate_values(
    alloc: Global,
    function: SetFunctionType,
    values: &[Value],
) -> Result<Value, Code>
    ensures { IsUnlessMemory (aggregated function values.now) result }
{
    match function {
        SetFunctionType::Count => in_range(values.len() as i128),
        SetFunctionType::Sum => sum_of(values),
        SetFunctionType::Avg => average_of(values),
        SetFunctionType::Min => Ok(minimum(alloc, values)?),
        SetFunctionType::Max => Ok(maximum(alloc, values)?),
    }
}
