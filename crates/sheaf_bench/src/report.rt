use dense_blocks::Block;
use std::alloc::{AllocError as NoMemory, Global};
use std::io;
use std::time::{Duration, Instant};
use thiserror::Error;

/// What came of a workload.
#[derive(Drop)]
pub struct Report {
    /// What its result is, in words.
    pub result: String,
    /// How long the call took, and how much there was of what it counts; none where it is not timed.
    pub time: Option<(Duration, u32)>,
}

/// What came of a workload, or why nothing did.
pub type Outcome = Result<Report, Failure>;

/// The readings of the clock before and after a call, none where it failed.
pub type Span = (Option<Instant>, Option<Instant>);

/// The report of a call over so many of a unit, whose result has this checksum.
pub fn timed(alloc: Global, span: Span, count: u32, unit: &str, checksum: u32) -> Outcome {
    let (Some(start), Some(end)) = span else {
        return Err(Failure::Outside);
    };
    Ok(Report {
        result: format!(in alloc; "{count} {unit}, checksum {checksum:08x}")?,
        time: Some((end.duration_since(start), count)),
    })
}

/// A number that the bytes, in their order, determine; `sum` is that of those before them, 0 where there are none.
pub fn checksum(mut sum: u32, bytes: &[u8]) -> u32 {
    for byte in bytes {
        let next = sum.wrapping_add(u32::from(*byte) + 1);
        sum = next.wrapping_mul(16_777_619);
    }
    sum
}

/// That number for the entries of all blocks.
pub fn checksum_of(mut sum: u32, blocks: &[Block]) -> u32 {
    for block in blocks {
        sum = checksum(sum, block.entries.as_slice());
    }
    sum
}

/// Why a workload was refused, or gave nothing.
#[derive(Clone, Copy, Debug, Error)]
pub enum Failure {
    #[error("wanted are a workload and a size of it, as docs/PERFORMANCE.md lists them")]
    Words,
    #[error("out of memory")]
    Memory(#[from] NoMemory),
    #[error("the clock, the words, the input or the output failed")]
    Outside,
    #[error("the input cannot be read, or is no sheaf")]
    Input,
    #[error("the workload was not made as it was to be")]
    Made,
}

impl From<io::Error> for Failure {
    fn from(_: io::Error) -> Self {
        Failure::Outside
    }
}
