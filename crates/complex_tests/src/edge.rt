//! Bytes in and out, some calls of which fail.
use io_edge::{
    Failed, MemSink, MemSource, ReadAll, Sink, Source, StdSink, StdSource, WriteFault, read_all,
    write_all,
};
use std::alloc::{AllocError as NoMemory, Global};
use std::io;
use std::io::{ErrorKind, Read, Write};
use std::process::Abort;

const LETTERS: &[u8] = b"abcdefghijklmnopqrstuvwxy";

/// Reads at most 16 bytes; gives how many, and the first.
fn step(source: &mut MemSource) -> (Result<usize, Failed>, u8) {
    let mut buffer = [0; 16];
    let answer = source.read(&mut buffer);
    (answer, buffer[0])
}

#[test]
fn a_source_in_memory_gives_its_bytes_in_steps(rt: HostRuntime) -> Result<(), NoMemory> {
    let mut source = MemSource::new(rt.alloc(), LETTERS, 10, &[2])?;
    assert!(rt; step(&mut source) == (Ok(10), b'a'));
    assert!(rt; step(&mut source) == (Err(Failed), 0));
    assert!(rt; step(&mut source) == (Ok(10), b'k'));
    assert!(rt; source.faults() == 1);
    Ok(())
}

/// What reading answers up to the limit.
fn reading(
    rt: &impl Abort,
    alloc: Global,
    limit: usize,
    failing: &[u64],
) -> Result<Result<usize, ReadAll>, NoMemory> {
    assert!(rt; limit < 100);
    let mut source = MemSource::new(alloc, LETTERS, 10, failing)?;
    Ok(read_all(alloc, &mut source, limit).map(|all| all.len()))
}

#[test]
fn read_all_stops_over_the_limit(rt: HostRuntime) -> Result<(), NoMemory> {
    assert!(rt; reading(&rt, rt.alloc(), 25, &[])? == Ok(25));
    assert!(rt; reading(&rt, rt.alloc(), 24, &[])? == Err(ReadAll::TooLong));
    assert!(rt; reading(&rt, rt.alloc(), 30, &[2])? == Err(ReadAll::ReadFault));
    Ok(())
}

#[test]
fn a_sink_in_memory_takes_what_it_has_room_for(rt: HostRuntime) -> Result<(), NoMemory> {
    let mut sink = MemSink::new(rt.alloc(), 8, 3, &[2])?;
    assert!(rt; write_all(&mut sink, b"abcde") == Err(WriteFault));
    assert!(rt; write_all(&mut sink, b"de") == Ok(()));
    assert!(rt; sink.taken() == b"abcde".as_slice() && sink.faults() == 1);
    assert!(rt; write_all(&mut sink, b"fghij") == Err(WriteFault));
    assert!(rt; sink.flush() == Ok(()));
    Ok(())
}

/// A reader whose reads fail.
#[derive(Drop)]
struct Broken;

impl Read for Broken {
    fn read(&mut self, _buf: &mut [u8]) -> io::Result<usize> {
        Err(ErrorKind::Other.into())
    }
}

/// A writer that takes all, and whose flushes fail.
#[derive(Drop)]
struct BrokenFlush;

impl Write for BrokenFlush {
    fn write(&mut self, buf: &[u8]) -> io::Result<usize> {
        Ok(buf.len())
    }

    fn flush(&mut self) -> io::Result<()> {
        Err(ErrorKind::Other.into())
    }
}

#[test]
fn reading_over_std_counts_errors(rt: HostRuntime) {
    let mut source = StdSource::new(b"cells".as_slice().chain(Broken));
    let fault = read_all(rt.alloc(), &mut source, 5).err();
    assert!(rt; fault == Some(ReadAll::ReadFault));
    assert!(rt; source.faults() == 1);
}

#[test]
fn writing_over_std_counts_errors(rt: HostRuntime) {
    // A slice takes what fits, and then nothing.
    let mut room = [0; 4];
    let mut sink = StdSink::new(room.as_mut_slice());
    assert!(rt; write_all(&mut sink, b"cells") == Err(WriteFault));
    assert!(rt; sink.faults() == 1);
}

#[test]
fn flushing_over_std_counts_errors(rt: HostRuntime) {
    let mut sink = StdSink::new(BrokenFlush);
    assert!(rt; write_all(&mut sink, b"cells") == Ok(()));
    assert!(rt; sink.flush() == Err(Failed));
    assert!(rt; sink.faults() == 1);
}
