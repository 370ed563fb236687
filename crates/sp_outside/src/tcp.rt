//! Links, doors and dials over TCP on this machine alone. They tell nothing of the bytes: that TCP
//! carries them in order, or fails, is trusted.
ghost use Rattle.std.specs.Prelude.{◌≡◌, ◌≤◌, ◌<◌, length, is_some, IfOk, None, Some};
ghost use Rattle.sp_outside.specs.Doors.{IfDialled, faults_after_dial};
ghost use Rattle.sp_outside.specs.Faults.{FaultCounted};
ghost use Rattle.sp_outside.specs.Putting.{TakesWithin, faults_after_put};
ghost use Rattle.sp_outside.specs.Taking.{ComesWithin, faults_after_take};

use crate::dial::{Dial, Dialled};
use crate::door::{Accepted, Bound, Door};
use crate::link::Link;
use crate::sink::Wrote;
use crate::source::Took;
use std::io;
use std::io::{Read, Write};
use std::net::{Ipv4Addr, Net, Shutdown, SocketAddr, TcpListener, TcpStream};

/// The address of a port of this machine that no other machine reaches.
fn local(port: u16) -> SocketAddr {
    SocketAddr::from((Ipv4Addr::LOCALHOST, port))
}

/// A link over TCP.
#[derive(Drop)]
pub struct TcpLink {
    /// The connection, whose small writes are not held back.
    pub stream: TcpStream,
    /// How many calls of the system were an error or took nothing, up to the last value.
    pub faults: u64,
}

impl TcpLink {
    /// A link that has not failed yet, whose writes go out at once.
    fn of(stream: TcpStream) -> io::Result<TcpLink>
        ensures { IfOk result (λ link. link.faults ≡ 0) }
    {
        stream.set_nodelay(true)?;
        Ok(TcpLink { stream, faults: 0 })
    }
}

impl Link for TcpLink {
    ghost faults = { λ s. s.faults };

    ghost left = { λ _. None };

    ghost heard = { λ _. None };

    ghost said = { λ _. None };

    fn take(&mut self, into: &mut [u8]) -> Took
        requires { 0 < length into.old }
        ensures within { ComesWithin result (length into.new) }
        ensures failed { result ≡ Took.Failed → FaultCounted self.old.faults self.new.faults }
        ensures never_falls { self.old.faults ≤ self.new.faults }
        ensures faults { self.new.faults ≡ faults_after_take result self.old.faults }
    {
        match self.stream.read(into) {
            Ok(0) => Took::End,
            Ok(n) => Took::Bytes(n),
            Err(_) => {
                self.faults = self.faults.saturating_add(1);
                Took::Failed
            }
        }
    }

    fn put(&mut self, piece: &[u8]) -> Wrote
        requires { 0 < length piece.now }
        ensures within { TakesWithin result (length piece.now) }
        ensures failed { result ≡ Wrote.Failed → FaultCounted self.old.faults self.new.faults }
        ensures never_falls { self.old.faults ≤ self.new.faults }
        ensures faults { self.new.faults ≡ faults_after_put result self.old.faults }
    {
        match self.stream.write(piece) {
            Ok(n) if n > 0 => Wrote::Bytes(n),
            Ok(_) | Err(_) => {
                self.faults = self.faults.saturating_add(1);
                Wrote::Failed
            }
        }
    }

    fn shut(&mut self)
        ensures { self.old.faults ≤ self.new.faults }
    {
        if self.stream.shutdown(Shutdown::Write).is_err() {
            self.faults = self.faults.saturating_add(1);
        }
    }
}

/// A door at a TCP port of this machine.
#[derive(Drop)]
pub struct TcpDoor<R> {
    /// The runtime's value, by which sockets are opened.
    pub rt: R,
    /// The socket that peers reach, once the door is bound.
    pub listener: Option<TcpListener>,
    /// How many links are given at most.
    pub sessions: u32,
    /// How many links were given.
    pub given: u32,
    /// How many calls of the system were an error, up to the last value.
    pub faults: u64,
}

impl<R> TcpDoor<R> {
    /// A door that is not bound yet.
    pub fn new(rt: R) -> TcpDoor<R>
        ensures { result ≡ record {
          rt = rt;
          listener = None;
          sessions = 0;
          given = 0;
          faults = 0;
        } }
    {
        TcpDoor {
            rt,
            listener: None,
            sessions: 0,
            given: 0,
            faults: 0,
        }
    }
}

impl<R: Net<Listener = TcpListener, Stream = TcpStream> + Send + Drop> Door for TcpDoor<R> {
    type Link = TcpLink;

    ghost faults = { λ d. d.faults };

    ghost bound = { λ d. is_some d.listener };

    ghost most = { λ d. d.sessions };

    ghost coming = { λ _. None };

    ghost given = { λ d. d.given };

    ghost ended = { λ _. None };

    fn bind(&mut self, port: u16, sessions: u32) -> Bound {
        match self.rt.bind(local(port)) {
            Ok(listener) => {
                self.listener = Some(listener);
                self.sessions = sessions;
                Bound::Yes
            }
            Err(_) => {
                self.faults = self.faults.saturating_add(1);
                Bound::Failed
            }
        }
    }

    fn accept(&mut self) -> Accepted<TcpLink> {
        if self.given >= self.sessions {
            return Accepted::Closed;
        }
        match self.listener.as_ref().map(accept_from) {
            Some(Ok(link)) => {
                self.given += 1;
                Accepted::Link(link)
            }
            Some(Err(_)) | None => {
                self.faults = self.faults.saturating_add(1);
                Accepted::Failed
            }
        }
    }

    fn done(&mut self, _link: TcpLink) {}
}

/// Waits for a peer, and makes the link to it.
fn accept_from(listener: &TcpListener) -> io::Result<TcpLink>
    ensures { IfOk result (λ link. link.faults ≡ 0) }
{
    let (stream, _) = listener.accept()?;
    TcpLink::of(stream)
}

/// A dial over TCP to this machine.
#[derive(Drop)]
pub struct TcpDial<R> {
    /// The runtime's value, by which sockets are opened.
    pub rt: R,
    /// The link that was done last.
    pub ended: Option<TcpLink>,
    /// How many calls of the system were an error, up to the last value.
    pub faults: u64,
}

impl<R> TcpDial<R> {
    /// A dial by which no link is done yet.
    pub fn new(rt: R) -> TcpDial<R>
        ensures { result ≡ record { rt = rt; ended = None; faults = 0 } }
    {
        TcpDial {
            rt,
            ended: None,
            faults: 0,
        }
    }
}

impl<R: Net<Listener = TcpListener, Stream = TcpStream> + Drop> Dial for TcpDial<R> {
    type Link = TcpLink;

    ghost faults = { λ d. d.faults };

    ghost ended = { λ d. d.ended };

    fn dial(&mut self, port: u16) -> Dialled<TcpLink>
        ensures fresh { IfDialled result (λ link. link.faults ≡ 0) }
        ensures failed { result ≡ Dialled.Failed → FaultCounted self.old.faults self.new.faults }
        ensures never_falls { self.old.faults ≤ self.new.faults }
        ensures faults { self.new.faults ≡ faults_after_dial result self.old.faults }
        ensures kept { self.new ≡ record self.old { faults = self.new.faults } }
    {
        match dial_at(&self.rt, port) {
            Ok(link) => Dialled::Link(link),
            Err(_) => {
                self.faults = self.faults.saturating_add(1);
                Dialled::Failed
            }
        }
    }

    fn done(&mut self, link: TcpLink)
        ensures { self.new ≡ record self.old { ended = Some link } }
    {
        self.ended = Some(link);
    }
}

/// Reaches a port of this machine, and makes the link to it.
fn dial_at<R: Net<Listener = TcpListener, Stream = TcpStream>>(
    rt: &R,
    port: u16,
) -> io::Result<TcpLink>
    ensures { IfOk result (λ link. link.faults ≡ 0) }
{
    TcpLink::of(rt.connect(local(port))?)
}
