ghost use Rattle.std.specs.Prelude.{◌≡◌, ◌<◌, ◌≤◌, [], length, IfSome};
ghost use Rattle.sp_outside.specs.Faults.{FaultCounted};
ghost use Rattle.sp_outside.specs.Reading.{Reads, IsWithin};

use crate::source::{Source, Took};
use std::alloc::Global;

/// How reading an input ended.
#[derive(Debug, Drop)]
pub enum Input {
    /// The source came to its end, and these bytes are all that came.
    Whole(Vec<u8>),
    /// There are more bytes than were asked for. One byte more has come, and the rest is unread.
    Longer,
    /// The source failed.
    Failed,
    /// There was no memory for the bytes.
    Memory,
}

/// The most bytes that are asked for at once.
pub(crate) const PIECE: usize = 65_536;

/// Reads to the end of a source, but no more than `most + 1` bytes.
pub fn read_input<S: Source>(alloc: Global, source: &mut S, most: usize) -> Input
    ensures told { IfSome (S.left source.old) (λ input.
        Reads result most input (S.left source.new)) }
    ensures within { IsWithin result most }
    ensures failed { result ≡ Input.Failed →
        FaultCounted (S.faults source.old) (S.faults source.new) }
    ensures never_falls { S.faults source.old ≤ S.faults source.new }
{
    match Vec::from_elem(alloc, 0u8, PIECE) {
        Ok(mut piece) => read_by_pieces(Vec::new(alloc), source, piece.as_mut_slice(), most),
        Err(_) => Input::Memory,
    }
}

/// Reads to the end of a source by way of `piece`, into a vector that is still empty.
fn read_by_pieces<S: Source>(
    mut bytes: Vec<u8>,
    source: &mut S,
    piece: &mut [u8],
    most: usize,
) -> Input
    requires some { 0 < length piece.old }
    requires none { bytes.items ≡ [] }
    ensures told { IfSome (S.left source.old) (λ input.
        Reads result most input (S.left source.new)) }
    ensures within { IsWithin result most }
    ensures failed { result ≡ Input.Failed →
        FaultCounted (S.faults source.old) (S.faults source.new) }
    ensures never_falls { S.faults source.old ≤ S.faults source.new }
{
    'pieces: loop {
        let room = most - bytes.len();
        let want = room.saturating_add(1).min(piece.len());
        match source.take(&mut piece[..want]) {
            Took::Bytes(n) => {
                if n > room {
                    return Input::Longer;
                }
                if bytes.extend_from_slice(&piece[..n]).is_err() {
                    return Input::Memory;
                }
            }
            Took::End => return Input::Whole(bytes),
            Took::Failed => return Input::Failed,
        }
    }
}
