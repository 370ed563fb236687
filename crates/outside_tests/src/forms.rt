//! The forms in memory, call by call.
ghost use Rattle.std.specs.Prelude.{◌≡◌, ◌<◌, [], All, IfOk};
ghost use Rattle.sp_outside.specs.Hearing.{IsUnused};

use sp_base::Memory;
use sp_outside::{
    Accepted, Bound, Dial, Dialled, Door, Link, MemDial, MemDoor, MemLink, MemSink, MemSource,
    Sink, Source, Took, Wrote,
};
use std::alloc::Global;
use std::test::Fail;

/// So many links with nothing heard and nothing said, each to a peer that says its place.
pub(crate) fn unused_links(alloc: Global, count: u8) -> Result<Vec<MemLink>, Memory>
    ensures { IfOk result (λ links.
        All (λ link. IsUnused link.at link.held.items link.faults) links.items) }
{
    let mut links = Vec::new(alloc);
    for place in 0..count {
        let bytes = vec![in alloc; place; 1]?;
        links.push(MemLink::of(alloc, bytes, 4, Vec::new(alloc))?)?;
    }
    Ok(links)
}

/// A door that is not bound, with so many links to come.
pub(crate) fn door_with(alloc: Global, count: u8, fail: Vec<u32>) -> Result<MemDoor, Memory>
    ensures { IfOk result (λ door. (door.given ≡ 0) × (door.ended.items ≡ [])) }
{
    Ok(MemDoor {
        coming: unused_links(alloc, count)?,
        ended: Vec::new(alloc),
        given: 0,
        sessions: 0,
        fail,
        calls: 0,
        faults: 0,
    })
}

#[test]
fn a_source_and_a_sink_fail_at_the_named_call_alone(rt: HostRuntime) -> Result<(), Fail> {
    let alloc = rt.alloc();
    for named in 0..4u32 {
        let mut source = MemSource {
            bytes: b"abcdef".to_vec(alloc)?,
            at: 0,
            fail: vec![in alloc; named; 1]?,
            calls: 0,
            faults: 0,
        };
        let mut sink = MemSink::of(alloc, 6, vec![in alloc; named; 1]?)?;
        for call in 0..4u32 {
            let took = source.take(&mut [0u8; 2]);
            assert_eq!(rt;
                took == Took::Failed,
                call == named,
                "take {call} of {named}"
            );
            let wrote = sink.put(b"ab");
            assert_eq!(rt;
                wrote == Wrote::Failed,
                call == named,
                "put {call} of {named}"
            );
        }
        assert_eq!(rt; (source.faults, source.at), (1, 6));
        assert_eq!(rt;
            (sink.faults, sink.held.as_slice()),
            (1, b"ababab".as_slice())
        );
    }
    Ok(())
}

#[test]
fn a_link_counts_takes_and_puts_together(rt: HostRuntime) -> Result<(), Fail> {
    let alloc = rt.alloc();
    for (named, heard, said) in [(0, 2, 4), (1, 4, 2), (2, 2, 4), (3, 4, 2)] {
        let fail = vec![in alloc; named; 1]?;
        let mut link = MemLink::of(alloc, b"abcdef".to_vec(alloc)?, 6, fail)?;
        for turn in 0..2u32 {
            let took = link.take(&mut [0u8; 2]);
            assert_eq!(rt;
                took == Took::Failed,
                2 * turn == named,
                "take {turn} of {named}"
            );
            let wrote = link.put(b"xy");
            assert_eq!(rt;
                wrote == Wrote::Failed,
                2 * turn + 1 == named,
                "put {turn} of {named}"
            );
        }
        assert_eq!(rt; (link.at, link.held.len(), link.faults), (heard, said, 1));
    }
    Ok(())
}

#[test]
fn a_link_takes_what_it_has_room_for(rt: HostRuntime) -> Result<(), Fail> {
    let alloc = rt.alloc();
    let mut link = MemLink::of(alloc, Vec::new(alloc), 3, Vec::new(alloc))?;
    assert_eq!(rt; link.take(&mut [0u8; 2]), Took::End);
    assert_eq!(rt; link.put(b"ab"), Wrote::Bytes(2));
    assert_eq!(rt; link.put(b"cd"), Wrote::Bytes(1));
    assert_eq!(rt; link.put(b"d"), Wrote::Failed);
    link.shut();
    assert_eq!(rt; (link.held.as_slice(), link.faults), (b"abc".as_slice(), 1));
    Ok(())
}

/// What a bound door answers that is asked for a link, by a letter.
fn accepts(door: &mut MemDoor) -> u8
    requires { 0 < door.old.sessions }
    ensures { door.new.sessions ≡ door.old.sessions }
{
    match door.accept() {
        Accepted::Link(_) => b'L',
        Accepted::Closed => b'C',
        Accepted::Failed => b'F',
    }
}

/// What a door answers that is to be bound and is then asked for three links.
fn answers(door: &mut MemDoor, sessions: u32) -> [u8; 4]
    requires { 0 < sessions }
{
    match door.bind(7001, sessions) {
        Bound::Yes => [b'Y', accepts(door), accepts(door), accepts(door)],
        Bound::Failed => *b"F---",
        Bound::Memory => *b"M---",
    }
}

#[test]
fn a_door_closes_behind_its_list_and_its_sessions(rt: HostRuntime) -> Result<(), Fail> {
    let alloc = rt.alloc();
    for (links, sessions, named, want) in [
        (2, 3, 9, *b"YLLC"),
        (3, 2, 9, *b"YLLC"),
        (3, 3, 9, *b"YLLL"),
        (0, 1, 9, *b"YCCC"),
        (3, 3, 0, *b"F---"),
        (3, 3, 1, *b"YFLL"),
        (3, 3, 2, *b"YLFL"),
        (1, 3, 3, *b"YLCF"),
    ] {
        let mut door = door_with(alloc, links, vec![in alloc; named; 1]?)?;
        assert_eq!(rt;
            answers(&mut door, sessions),
            want,
            "{links} links, {sessions} sessions"
        );
        assert_eq!(rt; door.faults, u64::from(named < 9));
    }
    Ok(())
}

#[test]
fn a_dial_fails_at_the_named_call_and_behind_its_list(rt: HostRuntime) -> Result<(), Fail> {
    let alloc = rt.alloc();
    for (named, want) in [(0, *b"FLLF"), (1, *b"LFLF"), (2, *b"LLFF"), (3, *b"LLFF")] {
        let mut dial = MemDial {
            coming: unused_links(alloc, 2)?,
            ended: None,
            fail: vec![in alloc; named; 1]?,
            calls: 0,
            faults: 0,
        };
        for letter in want {
            match dial.dial(7001) {
                Dialled::Link(link) => {
                    assert_eq!(rt; letter, b'L', "at {named}");
                    dial.done(link);
                }
                Dialled::Failed => assert_eq!(rt; letter, b'F', "at {named}"),
            }
        }
        assert_eq!(rt; dial.faults, 2);
        let last = dial.ended.as_ref().map(|link| link.bytes.as_slice());
        assert!(rt; last == Some([1u8].as_slice()));
    }
    Ok(())
}
