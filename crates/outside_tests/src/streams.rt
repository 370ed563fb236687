ghost use Rattle.std.specs.Prelude.{◌≡◌, ◌≢◌, ◌++◌, ℕ, List, Some, IsTrue};
ghost use Rattle.sp_outside.specs.Faults.{FaultCounted};

use sp_outside::{
    Input, MemSink, MemSource, Sink, Source, StdSink, StdSource, SureSink, SureSource, Took,
    Written, Wrote, read_input, write_output,
};
use std::alloc::Global;
use std::io::{self, ErrorKind, Read, Write};
use std::test::Fail;

/// Copies what a source has left to a sink. Returns whether all of it was copied.
fn copies<S: Source, K: Sink>(alloc: Global, source: &mut S, sink: &mut K, most: usize) -> bool
    ensures { (input held : List ℕ) → S.left source.old ≡ Some input → K.held sink.old ≡ Some held →
        IsTrue result → K.held sink.new ≡ Some (held ++ input) }
{
    match read_input(alloc, source, most) {
        Input::Whole(text) => matches!(write_output(sink, text.as_slice()), Written::Whole),
        _ => false,
    }
}

/// Reads from a source that never fails.
fn reads_surely(alloc: Global, source: &mut SureSource, most: usize) -> Input
    ensures { result ≢ Input.Failed }
{
    read_input(alloc, source, most)
}

/// Writes to a sink twice. Returns whether a write failed.
fn fails_once<K: Sink>(sink: &mut K) -> bool
    ensures { IsTrue result → FaultCounted (K.faults sink.old) (K.faults sink.new) }
{
    let first = write_output(sink, b"a");
    let second = write_output(sink, b"b");
    first == Written::Failed || second == Written::Failed
}

#[test]
fn a_whole_input_is_copied(rt: HostRuntime) -> Result<(), Fail> {
    let alloc = rt.alloc();
    let mut source = MemSource {
        bytes: b"ext 1".to_vec(alloc)?,
        at: 0,
        fail: Vec::new(alloc),
        calls: 0,
        faults: 0,
    };
    let mut sink = MemSink::of(alloc, 5, Vec::new(alloc))?;
    assert!(rt; copies(alloc, &mut source, &mut sink, 5));
    assert_eq!(rt; sink.held.as_slice(), b"ext 1".as_slice());
    let mut sure = SureSource {
        bytes: b"ext 1".to_vec(alloc)?,
        at: 2,
    };
    assert!(rt; copies(alloc, &mut sure, &mut SureSink, 3));
    assert!(rt; fails_once(&mut sink));
    assert!(rt; !fails_once(&mut SureSink));
    Ok(())
}

#[test]
fn a_long_input_comes_in_pieces(rt: HostRuntime) -> Result<(), Fail> {
    let alloc = rt.alloc();
    let bytes = vec![in alloc; 7u8; 200_000]?;
    let mut source = SureSource { bytes, at: 0 };
    match reads_surely(alloc, &mut source, 200_000) {
        Input::Whole(text) => assert_eq!(rt; text.len(), 200_000),
        _ => assert!(rt; false),
    }
    source.at = 0;
    assert!(rt; matches!(reads_surely(alloc, &mut source, 150_000), Input::Longer));
    assert_eq!(rt; source.at, 150_001);
    Ok(())
}

/// A stream that fails once, and then has one byte or takes one byte.
#[derive(Drop)]
struct FailsOnce(bool);

impl Read for FailsOnce {
    fn read(&mut self, buf: &mut [u8]) -> io::Result<usize> {
        if !self.0 {
            self.0 = true;
            return Err(ErrorKind::TimedOut.into());
        }
        Ok(buf.len().min(1))
    }
}

impl Write for FailsOnce {
    fn write(&mut self, buf: &[u8]) -> io::Result<usize> {
        if !self.0 {
            self.0 = true;
            return Err(ErrorKind::TimedOut.into());
        }
        Ok(buf.len().min(1))
    }

    fn flush(&mut self) -> io::Result<()> {
        Ok(())
    }
}

#[test]
fn a_reader_of_std_is_a_source(rt: HostRuntime) {
    let mut into = [0u8; 4];
    let mut source = StdSource::new(b"abc".as_slice());
    assert_eq!(rt; source.take(&mut into), Took::Bytes(3));
    assert_eq!(rt; into, *b"abc\0");
    assert_eq!(rt; source.take(&mut into), Took::End);
    assert_eq!(rt; source.faults, 0);
    let mut failing = StdSource::new(FailsOnce(false));
    assert_eq!(rt; failing.take(&mut into), Took::Failed);
    assert_eq!(rt; failing.faults, 1);
    assert_eq!(rt; failing.take(&mut into), Took::Bytes(1));
}

#[test]
fn a_writer_of_std_is_a_sink(rt: HostRuntime) {
    let mut sink = StdSink::new(Vec::new(rt.alloc()));
    assert_eq!(rt; sink.put(b"abc"), Wrote::Bytes(3));
    assert_eq!(rt; sink.writer.as_slice(), b"abc".as_slice());
    let mut failing = StdSink::new(FailsOnce(false));
    assert_eq!(rt; failing.put(b"abc"), Wrote::Failed);
    assert_eq!(rt; failing.put(b"abc"), Wrote::Bytes(1));
    let mut room = [0u8; 2];
    let mut full = StdSink::new(room.as_mut_slice());
    assert_eq!(rt; full.put(b"abc"), Wrote::Bytes(2));
    assert_eq!(rt; full.put(b"c"), Wrote::Failed);
    assert_eq!(rt; full.faults, 1);
}
