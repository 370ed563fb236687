//! TCP over loopback. Each call finds its peer ready, or gives up after some seconds.
ghost use Rattle.std.specs.Prelude.{◌<◌, IfOk, IsSome};

use sp_outside::{
    Accepted, Bound, Dial, Dialled, Door, Link, TcpDial, TcpDoor, TcpLink, Took, Wrote,
};
use std::io::ErrorKind;
use std::test::Fail;
use std::time::Duration;
use std::{io, thread};

/// For how many seconds a call waits for its peer.
const PATIENCE: u64 = 10;

/// The port that peers reach a bound door at.
fn port_of<R>(door: &TcpDoor<R>) -> io::Result<u16> {
    match &door.listener {
        Some(listener) => Ok(listener.local_addr()?.port()),
        None => Err(ErrorKind::NotConnected.into()),
    }
}

/// Whether a bound door is reached from this machine alone.
fn is_local<R>(door: &TcpDoor<R>) -> io::Result<bool> {
    match &door.listener {
        Some(listener) => Ok(listener.local_addr()?.ip().is_loopback()),
        None => Ok(false),
    }
}

/// A door that some port of this machine leads to, for so many sessions.
fn bound_door(rt: &HostRuntime, sessions: u32) -> Result<TcpDoor<HostRuntime>, Fail>
    requires { 0 < sessions }
    ensures { IfOk result (λ door. IsSome door.listener) }
{
    let mut door = TcpDoor::new(*rt);
    match door.bind(0, sessions) {
        Bound::Yes => Ok(door),
        Bound::Failed | Bound::Memory => Err(Fail::from("no port")),
    }
}

/// A new link by way of a door, as its dialler and its acceptor have it.
fn both_ends(
    dial: &mut TcpDial<HostRuntime>,
    door: &mut TcpDoor<HostRuntime>,
) -> Result<(TcpLink, TcpLink), Fail>
    requires { IsSome door.old.listener }
    ensures { IsSome door.new.listener }
{
    let Dialled::Link(near) = dial.dial(port_of(door)?) else {
        return Err(Fail::from("no answer"));
    };
    let Accepted::Link(far) = door.accept() else {
        return Err(Fail::from("no peer"));
    };
    let patience = Some(Duration::from_secs(PATIENCE));
    near.stream.set_read_timeout(patience)?;
    far.stream.set_read_timeout(patience)?;
    Ok((near, far))
}

#[test]
fn a_tcp_link_carries_bytes_until_it_is_shut_or_reset(rt: HostRuntime) -> Result<(), Fail> {
    let mut door = bound_door(&rt, 2)?;
    let mut dial = TcpDial::new(rt);
    let mut into = [0u8; 3];
    let (mut near, mut far) = both_ends(&mut dial, &mut door)?;
    assert!(rt; near.stream.nodelay()? && far.stream.nodelay()?);
    assert_eq!(rt; near.put(b"ab"), Wrote::Bytes(2));
    assert_eq!(rt; far.take(&mut into[..1]), Took::Bytes(1));
    near.shut();
    assert_eq!(rt; far.take(&mut into[1..]), Took::Bytes(1));
    assert_eq!(rt; far.take(&mut into[2..]), Took::End);
    assert_eq!(rt; far.put(b"c"), Wrote::Bytes(1));
    assert_eq!(rt; near.take(&mut into[2..]), Took::Bytes(1));
    assert_eq!(rt; into, *b"abc");
    assert_eq!(rt; (near.faults, far.faults), (0, 0));
    let (mut near, far) = both_ends(&mut dial, &mut door)?;
    assert_eq!(rt; near.put(b"ab"), Wrote::Bytes(2));
    drop(far);
    assert_eq!(rt; near.take(&mut into), Took::Failed);
    assert_eq!(rt; near.put(b"ab"), Wrote::Failed);
    assert_eq!(rt; near.faults, 2);
    Ok(())
}

/// Accepts one link, echoes one piece, and is done with it. Returns whether the door then closes.
fn serves_one(mut door: TcpDoor<HostRuntime>) -> bool {
    if door.listener.is_none() {
        return false;
    }
    if let Accepted::Link(mut link) = door.accept() {
        let mut into = [0u8; 4];
        if let Took::Bytes(n) = link.take(&mut into) {
            link.put(&into[..n]);
        }
        door.done(link);
    }
    matches!(door.accept(), Accepted::Closed)
}

#[test]
fn a_tcp_door_serves_a_thread_and_counts_a_taken_port(rt: HostRuntime) -> Result<(), Fail> {
    let door = bound_door(&rt, 1)?;
    let port = port_of(&door)?;
    assert!(rt; is_local(&door)?);
    let mut second = TcpDoor::new(rt);
    assert_eq!(rt; second.bind(port, 1), Bound::Failed);
    assert_eq!(rt; second.faults, 1);
    let server = thread::spawn(&rt, move || serves_one(door))?;
    let Dialled::Link(mut link) = TcpDial::new(rt).dial(port) else {
        return Err(Fail::from("no answer"));
    };
    link.stream
        .set_read_timeout(Some(Duration::from_secs(PATIENCE)))?;
    let mut into = [0u8; 8];
    assert_eq!(rt; link.put(b"ping"), Wrote::Bytes(4));
    assert_eq!(rt; link.take(&mut into), Took::Bytes(4));
    assert_eq!(rt; into, *b"ping\0\0\0\0");
    assert_eq!(rt; link.take(&mut into), Took::End);
    assert!(rt; server.join(&rt));
    Ok(())
}

#[test]
fn a_tcp_dial_keeps_its_last_link_and_counts_a_refusal(rt: HostRuntime) -> Result<(), Fail> {
    let mut door = bound_door(&rt, 2)?;
    let port = port_of(&door)?;
    let mut dial = TcpDial::new(rt);
    let (first, _far) = both_ends(&mut dial, &mut door)?;
    let (last, _other) = both_ends(&mut dial, &mut door)?;
    let address = last.stream.local_addr()?;
    dial.done(first);
    dial.done(last);
    drop(door);
    assert!(rt; matches!(dial.dial(port), Dialled::Failed));
    assert_eq!(rt; dial.faults, 1);
    let Some(kept) = &dial.ended else {
        return Err(Fail::from("no link is kept"));
    };
    assert!(rt; kept.stream.local_addr()? == address);
    Ok(())
}
