ghost use Rattle.std.specs.Prelude.{◌≡◌, ◌+◌, ◌≤◌, length, nat_le, IfOk, ◌%◌, ◌==◌, ◌&&◌};
ghost use Rattle.sp_base.specs.Limits.{IsKey};
ghost use Rattle.ext_mean.specs.MeaningValues.{is_key, overwritten, part_of, word_of};

use sp_base::{Blob, Key, MOST_KEY, Memory};
use std::alloc::Global;

/// Whether `count` bytes from a place on are within `length` bytes. The sum does not wrap.
pub fn fits(place: u64, count: u64, length: usize) -> bool
    ensures { result ≡ nat_le (place + count) length }
{
    u128::from(place) + u128::from(count) <= length as u128
}

/// Whether a key has from 1 to 64 bytes.
pub fn is_key(key: &[u8]) -> bool
    ensures { result ≡ is_key key.now }
{
    1 <= key.len() && key.len() <= MOST_KEY
}

/// The key of bytes that are one.
pub fn key_of(alloc: Global, bytes: &[u8]) -> Result<Key, Memory>
    requires { IsKey bytes.now }
    ensures { IfOk result (λ key. key ≡ bytes.now) }
{
    let key = Key::of(alloc, bytes);
    match key {
        Ok(key) => Ok(key),
        // Bytes that are a key have no other fault.
        Err(_) => Err(Memory),
    }
}

/// Whether a width of `multiget` is from 1 to 64 and divides the length of the keys.
pub fn is_width(width: u64, length: usize) -> bool
    ensures { result ≡ (nat_le 1 width && nat_le width 64 && (length % width == 0)) }
{
    1 <= width && width <= MOST_KEY as u64 && length as u64 % width == 0
}

/// The `count` bytes from a place on.
pub fn part_of(bytes: &[u8], from: usize, count: usize) -> &[u8]
    requires { from + count ≤ length bytes.now }
    ensures { result.now ≡ part_of bytes.now from count }
{
    &bytes[from..from + count]
}

/// Eight bytes as a number, little endian.
pub fn word_of(bytes: &[u8]) -> u64
    requires { length bytes.now ≡ 8 }
    ensures { result ≡ word_of bytes.now }
{
    u64::from_le_bytes([
        bytes[0], bytes[1], bytes[2], bytes[3], bytes[4], bytes[5], bytes[6], bytes[7],
    ])
}

/// The bytes with others written over them from a place on, which touches these bytes alone.
pub fn overwritten(bytes: Blob, place: usize, written: &[u8]) -> Blob
    requires { place + length written.now ≤ length bytes }
    ensures { result ≡ overwritten bytes place written.now }
{
    let mut whole = bytes.into_vec();
    whole[place..place + written.len()].copy_from_slice(written);
    Blob::from_vec(whole)
}
