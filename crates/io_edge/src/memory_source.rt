ghost use Rattle.std.specs.Prelude.{◌≡◌, ℕ, ◌<◌, ◌≤◌, ◌↔◌, [], Some, length, take, drop, min, IfOk, OnErr, IsErr};
ghost use Rattle.io_edge.specs.Faults.{HasCause};
ghost use Rattle.io_edge.specs.Counts.{next_count};
ghost use Rattle.io_edge.specs.Input.{Gave};
ghost use Rattle.io_edge.specs.Memory.{SourceState, FailsNext};

use crate::edge::{Failed, Source};
use crate::numbered::fails_next;
use std::alloc::{AllocError as NoMemory, Global};
use std::marker::Model;

/// A source of bytes in memory, some calls of which fail.
///
/// Calls are numbered from 1 on; where a `u64` has no further number, each call has its last.
#[derive(Drop)]
pub struct MemSource {
    bytes: Vec<u8>,
    at: usize,
    step: usize,
    failing: Vec<u64>,
    calls: u64,
    faults: u64,
}

impl Model for MemSource {
    ghost use Rattle.std.specs.Prelude.{◌<◌, ◌≤◌, length, drop};
    ghost use Rattle.io_edge.specs.Memory.{SourceState};

    ghost Value = { SourceState };

    ghost view = { λ s. record {
      left = drop s.at s.bytes.items;
      step = s.step;
      failing = s.failing.items;
      calls = s.calls;
      faults = s.faults;
    } };

    ghost invariant = { λ s. (s.at ≤ length s.bytes.items) × (0 < s.step) };
}

impl MemSource {
    /// A source of these bytes that gives at most `step` of them in a call, with no call and no fault yet. The calls
    /// with the numbers in `failing` fail.
    ///
    /// # Errors
    ///
    /// `AllocError` where there is no memory for the bytes and the numbers.
    pub fn new(alloc: Global, bytes: &[u8], step: usize, failing: &[u64]) -> Result<Self, NoMemory>
        requires { 0 < step }
        ensures { IfOk result (λ source. source ≡ record {
          left = bytes.now;
          step = step;
          failing = failing.now;
          calls = 0;
          faults = 0;
        }) }
    {
        Ok(MemSource {
            bytes: bytes.to_vec(alloc)?,
            at: 0,
            step,
            failing: failing.to_vec(alloc)?,
            calls: 0,
            faults: 0,
        })
    }
}

impl Source for MemSource {
    ghost left = { λ source. Some source.left };

    ghost fault_count = { λ source. source.faults };

    fn read(&mut self, buf: &mut [u8]) -> Result<usize, Failed>
        requires { 0 < length buf.old }
        ensures bound { IfOk result (λ n. n ≤ length buf.new) }
        ensures gave { IfOk result (λ n. Gave (Some self.old.left) (Some self.new.left) (take n buf.new)) }
        ensures end { IfOk result (λ n. (n ≡ 0) ↔ (self.old.left ≡ [])) }
        ensures failed { OnErr result (Some self.new.left ≡ Some self.old.left) }
        ensures cause { HasCause self.old.faults self.new.faults result }

        // As many bytes as there is room for, as a step has and as are left.
        ensures count { IfOk result (λ n. n ≡
            min (min (length buf.old) self.old.step) (length self.old.left)) }
        ensures fails { IsErr result ↔ FailsNext self.old.failing self.old.calls }
        ensures ok { IfOk result (λ n. self.new ≡ record self.old {
          left = drop n self.old.left;
          calls = next_count self.old.calls;
        }) }
        ensures err { OnErr result (self.new ≡ record self.old {
          calls = next_count self.old.calls;
          faults = next_count self.old.faults;
        }) }
    {
        if fails_next(&self.failing, &mut self.calls) {
            return Err(Failed::counted(&mut self.faults));
        }
        let left = &self.bytes[self.at..];
        let count = buf.len().min(self.step).min(left.len());
        buf[..count].copy_from_slice(&left[..count]);
        self.at += count;
        Ok(count)
    }

    fn faults(&self) -> u64 {
        self.faults
    }
}
