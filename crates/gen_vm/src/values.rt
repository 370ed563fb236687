ghost use Rattle.std.specs.Prelude.{◌≡◌, ◌+◌, ◌≤◌, length, IfOk};
ghost use Rattle.ext_mean.specs.MeaningValues.{buffer_of, bytes_of, number_of, overwritten, same_value, truth_of, with_bytes};

use crate::bytes::overwritten;
use ext_mean::{Buffer, Value};
use sp_base::{Blob, Memory};
use std::alloc::Global;

pub fn number_of(value: &Value) -> u64
    ensures { result ≡ number_of value.now }
{
    match value {
        Value::Int(number) => *number,
        _ => 0,
    }
}

pub fn truth_of(value: &Value) -> bool
    ensures { result ≡ truth_of value.now }
{
    match value {
        Value::Bool(truth) => *truth,
        _ => false,
    }
}

/// The bytes of a slice.
pub fn bytes_of(value: &Value) -> &[u8]
    ensures { result.now ≡ bytes_of value.now }
{
    match value {
        Value::Slice(bytes) => bytes.bytes(),
        _ => &[],
    }
}

/// The bytes of a buffer, with or without a place.
pub fn buffer_of(value: &Value) -> &[u8]
    ensures { result.now ≡ buffer_of value.now }
{
    match value {
        Value::Buf(buffer) => buffer.bytes.bytes(),
        Value::Temp(bytes) => bytes.bytes(),
        _ => &[],
    }
}

/// Whether two ints, two bools or two slices are equal.
pub fn same_value(left: &Value, right: &Value) -> bool
    ensures { result ≡ same_value left.now right.now }
{
    match left {
        Value::Int(left) => match right {
            Value::Int(right) => *left == *right,
            _ => false,
        },
        Value::Bool(left) => match right {
            Value::Bool(right) => *left == *right,
            _ => false,
        },
        Value::Slice(left) => match right {
            Value::Slice(right) => left.is_same(right),
            _ => false,
        },
        _ => false,
    }
}

/// An equal buffer.
pub fn share_buffer(alloc: Global, buffer: &Buffer) -> Result<Buffer, Memory>
    ensures { IfOk result (λ copy. copy ≡ buffer.now) }
{
    let key = buffer.key.share(alloc)?;
    let bytes = buffer.bytes.share(alloc)?;
    Ok(Buffer {
        table: buffer.table,
        key,
        bytes,
    })
}

/// An equal value.
pub fn share(alloc: Global, value: &Value) -> Result<Value, Memory>
    ensures { IfOk result (λ copy. copy ≡ value.now) }
{
    match value {
        Value::Int(number) => Ok(Value::Int(*number)),
        Value::Bool(truth) => Ok(Value::Bool(*truth)),
        Value::Slice(bytes) => Ok(Value::Slice(bytes.share(alloc)?)),
        Value::Buf(buffer) => Ok(Value::Buf(share_buffer(alloc, buffer)?)),
        Value::Temp(bytes) => Ok(Value::Temp(bytes.share(alloc)?)),
    }
}

/// A buffer with bytes written over its own from a place on, which touches these bytes alone.
pub fn written(value: Value, place: usize, bytes: &[u8]) -> Value
    requires { place + length bytes.now ≤ length (buffer_of value) }
    ensures { result ≡ with_bytes value (overwritten (buffer_of value) place bytes.now) }
{
    match value {
        Value::Buf(buffer) => {
            let Buffer {
                table,
                key,
                bytes: old,
            } = buffer;
            Value::Buf(Buffer {
                table,
                key,
                bytes: overwritten(old, place, bytes),
            })
        }
        Value::Temp(old) => Value::Temp(overwritten(old, place, bytes)),
        other => other,
    }
}
