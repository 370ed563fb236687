ghost use Rattle.std.specs.Prelude.{◌≡◌, ◌<◌, ◌≤◌, length, None};
ghost use Rattle.sp_outside.specs.Faults.{FaultCounted};
ghost use Rattle.sp_outside.specs.Putting.{TakesWithin, faults_after_put};
ghost use Rattle.sp_outside.specs.Streams.{ReadsOn, WritesOn};
ghost use Rattle.sp_outside.specs.Taking.{ComesWithin, faults_after_take};

use crate::sink::{Sink, Wrote};
use crate::source::{Source, Took};
use std::io::{Read, Write};

/// A source over a reader of the standard library. It tells nothing of the bytes.
#[derive(Drop)]
pub struct StdSource<R> {
    pub reader: R,
    /// How many reads were an error, up to the last value.
    pub faults: u64,
}

impl<R: Read> StdSource<R> {
    /// A source that has not failed yet.
    pub fn new(reader: R) -> StdSource<R>
        ensures { result ≡ record { reader = reader; faults = 0 } }
    {
        StdSource { reader, faults: 0 }
    }
}

impl<R: Read> Source for StdSource<R> {
    ghost faults = { λ s. s.faults };

    ghost left = { λ _. None };

    fn take(&mut self, into: &mut [u8]) -> Took
        requires { 0 < length into.old }
        ensures within { ComesWithin result (length into.new) }
        ensures failed { result ≡ Took.Failed → FaultCounted self.old.faults self.new.faults }
        ensures never_falls { self.old.faults ≤ self.new.faults }
        ensures faults { self.new.faults ≡ faults_after_take result self.old.faults }
        ensures bytes { ReadsOn result (R.remaining self.old.reader) (R.remaining self.new.reader)
            into.new }
    {
        match self.reader.read(into) {
            Ok(0) => Took::End,
            Ok(n) => Took::Bytes(n),
            Err(_) => {
                self.faults = self.faults.saturating_add(1);
                Took::Failed
            }
        }
    }
}

/// A sink over a writer of the standard library. It tells nothing of the bytes.
#[derive(Drop)]
pub struct StdSink<W> {
    pub writer: W,
    /// How many writes were an error or took nothing, up to the last value.
    pub faults: u64,
}

impl<W: Write> StdSink<W> {
    /// A sink that has not failed yet.
    pub fn new(writer: W) -> StdSink<W>
        ensures { result ≡ record { writer = writer; faults = 0 } }
    {
        StdSink { writer, faults: 0 }
    }
}

impl<W: Write> Sink for StdSink<W> {
    ghost faults = { λ s. s.faults };

    ghost held = { λ _. None };

    fn put(&mut self, piece: &[u8]) -> Wrote
        requires { 0 < length piece.now }
        ensures within { TakesWithin result (length piece.now) }
        ensures failed { result ≡ Wrote.Failed → FaultCounted self.old.faults self.new.faults }
        ensures never_falls { self.old.faults ≤ self.new.faults }
        ensures faults { self.new.faults ≡ faults_after_put result self.old.faults }
        ensures bytes { WritesOn result (W.contents self.old.writer) (W.contents self.new.writer)
            piece.now }
    {
        match self.writer.write(piece) {
            Ok(n) if n > 0 => Wrote::Bytes(n),
            Ok(_) | Err(_) => {
                self.faults = self.faults.saturating_add(1);
                Wrote::Failed
            }
        }
    }
}
