ghost use Rattle.std.specs.Prelude.{◌≡◌, ◌≤◌, IfOk};
ghost use Rattle.std.specs.Int.{w32, w64};
ghost use Rattle.wire.specs.Readers.{Gives};
ghost use Rattle.wire.specs.Fields.{byte_in, number_at, u16_in, u32_in};

use crate::faults::ReadFault;
use bytes::Buf;

/// A byte from `least` to `most`.
pub fn byte(bytes: &[u8], least: u8, most: u8) -> Result<(u8, &[u8]), ReadFault>
    ensures given { Gives (λ x. (x.0, x.1.now)) result (byte_in least most bytes.now) }
    ensures within { IfOk result (λ x. (least ≤ x.0) × (x.0 ≤ most)) }
{
    match bytes {
        [] => Err(ReadFault::Bad { left: 0 }),
        [first, rest @ ..] => {
            if *first < least || *first > most {
                Err(ReadFault::Bad { left: bytes.len() })
            } else {
                Ok((*first, rest))
            }
        }
    }
}

/// A number of four bytes.
pub fn u32_any(bytes: &[u8]) -> Result<(u32, &[u8]), ReadFault>
    ensures { Gives (λ x. (x.0, x.1.now)) result (number_at w32 bytes.now) }
{
    let mut rest = bytes;
    match rest.try_get_u32() {
        Ok(number) => Ok((number, rest)),
        Err(_) => Err(ReadFault::Bad { left: 0 }),
    }
}

/// A number of eight bytes.
pub fn u64_any(bytes: &[u8]) -> Result<(u64, &[u8]), ReadFault>
    ensures { Gives (λ x. (x.0, x.1.now)) result (number_at w64 bytes.now) }
{
    let mut rest = bytes;
    match rest.try_get_u64() {
        Ok(number) => Ok((number, rest)),
        Err(_) => Err(ReadFault::Bad { left: 0 }),
    }
}

/// A number of two bytes from `least` to `most`. A byte behind which no such number goes on is bad.
#[tactic(auto, unfolding(crate::specs::Fields::u16_in))]
pub fn u16_from(bytes: &[u8], least: u16, most: u16) -> Result<(u16, &[u8]), ReadFault>
    requires { least ≤ most }
    ensures given { Gives (λ x. (x.0, x.1.now)) result (u16_in least most bytes.now) }
    ensures within { IfOk result (λ x. (least ≤ x.0) × (x.0 ≤ most)) }
{
    let (high, rest) = byte(bytes, (least / 256) as u8, (most / 256) as u8)?;
    let above = u16::from(high) * 256;
    let low_least = least.saturating_sub(above) as u8;
    let low_most = (most - above).min(255) as u8;
    let (low, rest) = byte(rest, low_least, low_most)?;
    Ok((above + u16::from(low), rest))
}

/// A number of four bytes from `least` to `most`. A byte behind which no such number goes on is bad.
#[tactic(auto, unfolding(crate::specs::Fields::u32_in))]
pub fn u32_from(bytes: &[u8], least: u32, most: u32) -> Result<(u32, &[u8]), ReadFault>
    requires { least ≤ most }
    ensures given { Gives (λ x. (x.0, x.1.now)) result (u32_in least most bytes.now) }
    ensures within { IfOk result (λ x. (least ≤ x.0) × (x.0 ≤ most)) }
{
    let (high, rest) = u16_from(bytes, (least / 65_536) as u16, (most / 65_536) as u16)?;
    let above = u32::from(high) * 65_536;
    let low_least = least.saturating_sub(above) as u16;
    let low_most = (most - above).min(65_535) as u16;
    let (low, rest) = u16_from(rest, low_least, low_most)?;
    Ok((above + u32::from(low), rest))
}
