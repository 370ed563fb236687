//! Links and doors that move between threads, and texts that go over links.
ghost use Rattle.std.specs.Prelude.{◌≡◌, ◌<◌, ◌++◌, ℕ, List, length, Some, IfSome, IsTrue, vec_len};
ghost use Rattle.sp_outside.specs.Doors.{HasNoMore};

use crate::forms::door_with;
use sp_outside::{
    Accepted, Bound, Door, Input, Link, MemDoor, MemLink, Written, read_link, write_link,
};
use std::alloc::Global;
use std::test::Fail;
use std::thread;
use std::thread::Threads;

/// A door that is bound, of which at least one link is out.
#[derive(Drop)]
struct Open {
    door: MemDoor,
    ghost bound: { 0 < door.sessions },
    ghost out: { vec_len door.ended < door.given },
}

/// Accepts a further link, echoes what it says, and is done with it.
fn serves_one(open: Open) -> Open {
    let Open { mut door } = open;
    if let Accepted::Link(mut link) = door.accept() {
        let mut byte = [0u8; 1];
        link.take(&mut byte);
        link.put(&byte);
        link.shut();
        door.done(link);
    }
    Open { door }
}

/// Shuts a link.
fn shuts<L: Link>(mut link: L) -> L {
    link.shut();
    link
}

/// Shuts a link of any door in a thread of its own, from which it comes back.
fn shuts_elsewhere<R: Threads, D: Door>(rt: &R, link: D::Link) -> D::Link {
    thread::join(rt, move || shuts(link), || ()).0
}

/// What was said on the links that are done, in order.
fn said(alloc: Global, door: &MemDoor) -> Result<Vec<u8>, Fail> {
    let mut said = Vec::new(alloc);
    for link in &door.ended {
        said.extend_from_slice(link.held.as_slice())?;
    }
    Ok(said)
}

#[test]
fn links_are_done_in_order_whoever_accepted_them(rt: HostRuntime) -> Result<(), Fail> {
    let alloc = rt.alloc();
    let mut door = door_with(alloc, 2, Vec::new(alloc))?;
    let Bound::Yes = door.bind(7001, 2) else {
        return Err(Fail::from("no door"));
    };
    let Accepted::Link(mut first) = door.accept() else {
        return Err(Fail::from("no link"));
    };
    first.put(b"a");
    let first = shuts_elsewhere::<_, MemDoor>(&rt, first);
    let open = Open { door };
    let member = thread::spawn(&rt, move || serves_one(open))?;
    let Open { mut door } = member.join(&rt);
    door.done(first);
    assert_eq!(rt; said(alloc, &door)?.as_slice(), b"\x01a".as_slice());
    assert!(rt; matches!(door.accept(), Accepted::Closed));
    Ok(())
}

/// Accepts links and is done with each, until the door gives no more. Returns whether it closed.
fn drains<D: Door>(door: &mut D) -> bool
    requires bound { IsTrue (D.bound door.old) }
    requires all_done { IfSome (D.ended door.old) (λ links. length links ≡ D.given door.old) }
    ensures all_done { IfSome (D.ended door.new) (λ links. length links ≡ D.given door.new) }
    ensures closed { IsTrue result →
        HasNoMore (D.most door.new) (D.given door.new) (D.coming door.new) }
{
    'links: loop {
        match door.accept() {
            Accepted::Link(link) => door.done(link),
            Accepted::Closed => return true,
            Accepted::Failed => return false,
        }
    }
}

#[test]
fn a_door_is_drained_to_its_last_link(rt: HostRuntime) -> Result<(), Fail> {
    let alloc = rt.alloc();
    let mut door = door_with(alloc, 3, Vec::new(alloc))?;
    let Bound::Yes = door.bind(7001, 2) else {
        return Err(Fail::from("no door"));
    };
    assert!(rt; drains(&mut door));
    assert_eq!(rt; (door.ended.len(), door.coming.len()), (2, 1));
    Ok(())
}

/// Says back all that comes. Returns whether all of it was said.
fn echoes<L: Link>(alloc: Global, link: &mut L, most: usize) -> bool
    ensures { (input said : List ℕ) → L.left link.old ≡ Some input → L.said link.old ≡ Some said →
        IsTrue result → L.said link.new ≡ Some (said ++ input) }
{
    match read_link(alloc, link, most) {
        Input::Whole(text) => matches!(write_link(link, text.as_slice()), Written::Whole),
        _ => false,
    }
}

#[test]
fn a_long_text_goes_over_a_link_in_pieces(rt: HostRuntime) -> Result<(), Fail> {
    let alloc = rt.alloc();
    let bytes = vec![in alloc; 7u8; 200_000]?;
    let mut link = MemLink::of(alloc, bytes, 200_000, Vec::new(alloc))?;
    assert!(rt; matches!(read_link(alloc, &mut link, 199_999), Input::Longer));
    link.at = 0;
    assert!(rt; echoes(alloc, &mut link, 200_000));
    assert!(rt; link.held.as_slice() == link.bytes.as_slice());
    assert_eq!(rt; write_link(&mut link, b""), Written::Whole);
    assert_eq!(rt; write_link(&mut link, b"x"), Written::Failed);
    assert_eq!(rt; link.faults, 1);
    Ok(())
}
