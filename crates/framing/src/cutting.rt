ghost use Rattle.std.specs.Prelude.{◌≡◌, ◌+◌, ◌<◌, ◌≤◌, [], ◌++◌, length, drop, slice_index, IfOk, IfSome, IfNone, MatchOption, OnErr, vec_len};
ghost use Rattle.std.specs.List.{All};
ghost use Rattle.framing.specs.Frames.{IsTooLong, NoFrame, NotTooLong, announced, stream_of};
ghost use Rattle.sp_base.specs.Limits.{IsBody};
ghost use Rattle.sp_base.specs.Spelling.{frame};

use sp_base::{Blob, MOST_FRAME, Memory};
use std::alloc::Global;

/// A byte of two slices, one behind the other.
fn byte_of(front: &[u8], back: &[u8], i: usize) -> u8
    requires { i < length front.now + length back.now }
    ensures { result ≡ slice_index (front.now ++ back.now) i }
{
    if i < front.len() {
        front[i]
    } else {
        back[i - front.len()]
    }
}

/// The length that the first four bytes spell.
fn length_at(front: &[u8], back: &[u8]) -> Option<u32>
    ensures found { IfSome result (λ n. (4 ≤ length (front.now ++ back.now))
        × (n ≡ announced (front.now ++ back.now))) }
    ensures none { IfNone result (length (front.now ++ back.now) < 4) }
{
    if front.len() + back.len() < 4 {
        return None;
    }
    let bytes = [
        byte_of(front, back, 0),
        byte_of(front, back, 1),
        byte_of(front, back, 2),
        byte_of(front, back, 3),
    ];
    Some(u32::from_be_bytes(bytes))
}

/// The length that is too long and stands at the front.
pub fn too_long(front: &[u8], back: &[u8]) -> Option<u32>
    ensures { MatchOption result
        (NotTooLong (front.now ++ back.now))
        (λ n. IsTooLong n (front.now ++ back.now)) }
{
    let n = length_at(front, back)?;
    if n > MOST_FRAME { Some(n) } else { None }
}

/// The body of the whole frame at the front, and the bytes behind it.
#[tactic(auto, unfolding(sp_base::specs::Spelling::u32))]
fn first_frame(bytes: &[u8]) -> Option<(&[u8], &[u8])>
    ensures found { IfSome result (λ x. (bytes.now ≡ frame x.0.now ++ x.1.now) × IsBody x.0.now) }
    ensures none { IfNone result (NoFrame bytes.now) }
{
    let n = length_at(bytes, &[])?;
    if n > MOST_FRAME || bytes.len() - 4 < n as usize {
        return None;
    }
    let (_, rest) = bytes.split_at(4);
    Some(rest.split_at(n as usize))
}

/// The bodies of the whole frames at the front, and the bytes behind them.
#[tactic(auto, unfolding(sp_base::specs::Spelling::u32))]
fn cut(alloc: Global, bytes: &[u8]) -> Result<(Vec<Blob>, &[u8]), Memory>
    ensures { IfOk result (λ x. (bytes.now ≡ stream_of x.0.items ++ x.1.now)
        × All IsBody x.0.items × NoFrame x.1.now) }
{
    let mut bodies = Vec::new(alloc);
    let mut rest = bytes;
    while let Some((body, behind)) = first_frame(rest) {
        bodies.push(Blob::of(alloc, body)?)?;
        rest = behind;
    }
    Ok((bodies, rest))
}

fn remove_front(bytes: &mut Vec<u8>, n: usize)
    requires { n ≤ vec_len bytes.old }
    ensures { bytes.new.items ≡ drop n bytes.old.items }
{
    if n == 0 {
        return;
    }
    let len = bytes.len();
    bytes.as_mut_slice().copy_within(n..len, 0);
    bytes.truncate(len - n);
}

/// Adds a piece to the pending bytes, and takes the whole frames off their front.
pub fn take_frames(alloc: Global, pending: &mut Vec<u8>, piece: &[u8]) -> Result<Vec<Blob>, Memory>
    ensures whole { IfOk result (λ bodies. pending.old.items ++ piece.now
        ≡ stream_of bodies.items ++ pending.new.items) }
    ensures each { IfOk result (λ bodies. All IsBody bodies.items) }
    ensures rest { IfOk result (λ _. NoFrame pending.new.items) }
    ensures err { OnErr result (pending.new.items ≡ pending.old.items) }
{
    let before = pending.len();
    pending.extend_from_slice(piece)?;
    match cut(alloc, pending.as_slice()) {
        Ok((bodies, rest)) => {
            let done = pending.len() - rest.len();
            remove_front(pending, done);
            Ok(bodies)
        }
        Err(fault) => {
            pending.truncate(before);
            Err(fault)
        }
    }
}
