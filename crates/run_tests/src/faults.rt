use io_edge::{MemSink, MemSource};
use sheaf_run::{Status, run};
use std::alloc::Global;
use std::process::Abort;
use std::test::Fail;

// Three vertices and the three edges between them.
const CIRCLE: &[u8] = b"field 2\ncell 0 1\ncell 0 1\ncell 0 1\ncell 1 1\ncell 1 1\ncell 1 1\n\
face 0 3 - 1\nface 1 3 + 1\nface 1 4 - 1\nface 2 4 + 1\nface 0 5 - 1\nface 2 5 + 1\nclient\nbetti\ndone\n";

const TRANSCRIPT: &[u8] =
    b"client 0\n1 v0 betti 1 1\norder\nask 0 1\npair 0 0 3\npair 0 1 4\nreply 0 1\nend\n";

/// Runs over the circle, by reads of 10 bytes and writes of 8, where the calls with these numbers fail.
fn has_answer(
    rt: &impl Abort,
    alloc: Global,
    failing_reads: &[u64],
    failing_writes: &[u64],
    status: Status,
    output: &[u8],
) -> Result<(), Fail> {
    let mut words = Vec::new(alloc);
    words.push(String::from_str(alloc, "solve")?)?;
    let mut source = MemSource::new(alloc, CIRCLE, 10, failing_reads)?;
    let mut sink = MemSink::new(alloc, 100, 8, failing_writes)?;
    assert_eq!(rt; run(alloc, &words, &mut source, &mut sink), status);
    assert_eq!(rt; sink.taken(), output);
    Ok(())
}

#[test]
fn faults(rt: HostRuntime) -> Result<(), Fail> {
    let alloc = rt.alloc();
    has_answer(&rt, alloc, &[], &[], Status::Done, TRANSCRIPT)?;
    has_answer(&rt, alloc, &[2], &[], Status::ReadFault, b"")?;
    has_answer(&rt, alloc, &[], &[2], Status::WriteFault, b"client 0")?;
    // After ten writes comes the flush.
    has_answer(&rt, alloc, &[], &[11], Status::WriteFault, TRANSCRIPT)
}
