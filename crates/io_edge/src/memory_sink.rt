ghost use Rattle.std.specs.Prelude.{◌≡◌, ℕ, ◌-◌, ◌<◌, ◌≤◌, ◌↔◌, ◌⊎◌, [], ◌++◌, Some, length, take, min, IfOk, OnOk};
ghost use Rattle.std.specs.Prelude.{OnErr, IsErr};
ghost use Rattle.io_edge.specs.Faults.{HasCause};
ghost use Rattle.io_edge.specs.Counts.{next_count};
ghost use Rattle.io_edge.specs.Bytes.{Took, IsFlushed};
ghost use Rattle.io_edge.specs.Memory.{SinkState, FailsNext};

use crate::edge::{Failed, Sink};
use crate::numbered::fails_next;
use std::alloc::{AllocError as NoMemory, Global};
use std::marker::Model;

/// A sink that keeps its bytes in memory, with room for so many, some calls of which fail.
///
/// Calls, writes and flushes together, are numbered from 1 on; where a `u64` has no further number, each call has its
/// last.
#[derive(Drop)]
pub struct MemSink {
    taken: Vec<u8>,
    flushed: usize,
    room: usize,
    step: usize,
    failing: Vec<u64>,
    calls: u64,
    faults: u64,
}

impl Model for MemSink {
    ghost use Rattle.std.specs.Prelude.{◌<◌, ◌≤◌, length, vec_capacity};
    ghost use Rattle.io_edge.specs.Memory.{SinkState};

    ghost Value = { SinkState };

    ghost view = { λ s. record {
      taken = s.taken.items;
      flushed = s.flushed;
      room = s.room;
      step = s.step;
      failing = s.failing.items;
      calls = s.calls;
      faults = s.faults;
    } };

    ghost invariant = { λ s.
        (length s.taken.items ≤ s.room) × (s.room ≤ vec_capacity s.taken) × (0 < s.step) };
}

impl MemSink {
    /// An empty sink with the memory for `room` bytes, which takes at most `step` of them in a call, with no call and
    /// no fault yet. The calls with the numbers in `failing` fail.
    ///
    /// # Errors
    ///
    /// `AllocError` where there is no memory for the room and the numbers.
    pub fn new(alloc: Global, room: usize, step: usize, failing: &[u64]) -> Result<Self, NoMemory>
        requires { 0 < step }
        ensures { IfOk result (λ sink. sink ≡ record {
          taken = [];
          flushed = 0;
          room = room;
          step = step;
          failing = failing.now;
          calls = 0;
          faults = 0;
        }) }
    {
        Ok(MemSink {
            taken: Vec::with_capacity(alloc, room)?,
            flushed: 0,
            room,
            step,
            failing: failing.to_vec(alloc)?,
            calls: 0,
            faults: 0,
        })
    }

    /// All bytes taken so far.
    pub fn taken(&self) -> &[u8]
        ensures { result.now ≡ self.now.taken }
    {
        &self.taken
    }
}

impl Sink for MemSink {
    ghost taken = { λ sink. Some sink.taken };

    ghost flushed = { λ sink. sink.flushed };

    ghost fault_count = { λ sink. sink.faults };

    fn write(&mut self, bytes: &[u8]) -> Result<usize, Failed>
        requires { 0 < length bytes.now }
        ensures bound { IfOk result (λ n. (0 < n) × (n ≤ length bytes.now)) }
        ensures took { IfOk result (λ n. Took (Some self.old.taken) (Some self.new.taken) (take n bytes.now)) }
        ensures failed { OnErr result (Some self.new.taken ≡ Some self.old.taken) }
        ensures flushed { self.new.flushed ≡ self.old.flushed }
        ensures cause { HasCause self.old.faults self.new.faults result }

        // As many bytes as are offered, as a step has and as there is room for.
        ensures count { IfOk result (λ n. n ≡
            min (min (length bytes.now) self.old.step) (self.old.room - length self.old.taken)) }
        ensures fails { IsErr result ↔
            (FailsNext self.old.failing self.old.calls ⊎ (self.old.room ≡ length self.old.taken)) }
        ensures ok { IfOk result (λ n. self.new ≡ record self.old {
          taken = self.old.taken ++ take n bytes.now;
          calls = next_count self.old.calls;
        }) }
        ensures err { OnErr result (self.new ≡ record self.old {
          calls = next_count self.old.calls;
          faults = next_count self.old.faults;
        }) }
    {
        let count = bytes.len().min(self.step).min(self.room - self.taken.len());
        if fails_next(&self.failing, &mut self.calls) || count == 0 {
            return Err(Failed::counted(&mut self.faults));
        }
        self.taken.extend_from_slice(&bytes[..count]).unwrap();
        Ok(count)
    }

    fn flush(&mut self) -> Result<(), Failed>
        ensures taken { Some self.new.taken ≡ Some self.old.taken }
        ensures ok { OnOk result (IsFlushed (Some self.new.taken) self.new.flushed) }
        ensures failed { OnErr result (self.new.flushed ≡ self.old.flushed) }
        ensures cause { HasCause self.old.faults self.new.faults result }
        ensures fails { IsErr result ↔ FailsNext self.old.failing self.old.calls }
        ensures done { OnOk result (self.new ≡ record self.old {
          flushed = length self.old.taken;
          calls = next_count self.old.calls;
        }) }
        ensures err { OnErr result (self.new ≡ record self.old {
          calls = next_count self.old.calls;
          faults = next_count self.old.faults;
        }) }
    {
        if fails_next(&self.failing, &mut self.calls) {
            return Err(Failed::counted(&mut self.faults));
        }
        self.flushed = self.taken.len();
        Ok(())
    }

    fn faults(&self) -> u64 {
        self.faults
    }
}
