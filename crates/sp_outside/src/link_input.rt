ghost use Rattle.std.specs.Prelude.{◌≡◌, ◌<◌, ◌≤◌, [], length, IfSome};
ghost use Rattle.sp_outside.specs.Faults.{FaultCounted};
ghost use Rattle.sp_outside.specs.Hearing.{HearsAll};
ghost use Rattle.sp_outside.specs.Reading.{Reads, IsWithin};

use crate::input::{Input, PIECE};
use crate::link::Link;
use crate::source::Took;
use std::alloc::Global;

/// Takes what comes to the end of a link, but no more than `most + 1` bytes.
pub fn read_link<L: Link>(alloc: Global, link: &mut L, most: usize) -> Input
    ensures told { IfSome (L.left link.old) (λ input. Reads result most input (L.left link.new)) }
    ensures heard { HearsAll result most (L.heard link.old) (L.heard link.new) }
    ensures same_said { L.said link.new ≡ L.said link.old }
    ensures within { IsWithin result most }
    ensures failed { result ≡ Input.Failed → FaultCounted (L.faults link.old) (L.faults link.new) }
    ensures never_falls { L.faults link.old ≤ L.faults link.new }
{
    match Vec::from_elem(alloc, 0u8, PIECE) {
        Ok(mut piece) => hear_by_pieces(Vec::new(alloc), link, piece.as_mut_slice(), most),
        Err(_) => Input::Memory,
    }
}

/// Takes what comes to the end of a link by way of `piece`, into a vector that is still empty.
fn hear_by_pieces<L: Link>(mut bytes: Vec<u8>, link: &mut L, piece: &mut [u8], most: usize) -> Input
    requires some { 0 < length piece.old }
    requires none { bytes.items ≡ [] }
    ensures told { IfSome (L.left link.old) (λ input. Reads result most input (L.left link.new)) }
    ensures heard { HearsAll result most (L.heard link.old) (L.heard link.new) }
    ensures same_said { L.said link.new ≡ L.said link.old }
    ensures within { IsWithin result most }
    ensures failed { result ≡ Input.Failed → FaultCounted (L.faults link.old) (L.faults link.new) }
    ensures never_falls { L.faults link.old ≤ L.faults link.new }
{
    'pieces: loop {
        let room = most - bytes.len();
        let want = room.saturating_add(1).min(piece.len());
        match link.take(&mut piece[..want]) {
            Took::Bytes(n) => {
                if n > room {
                    return Input::Longer;
                }
                if bytes.extend_from_slice(&piece[..n]).is_err() {
                    return Input::Memory;
                }
            }
            Took::End => return Input::Whole(bytes),
            Took::Failed => return Input::Failed,
        }
    }
}
