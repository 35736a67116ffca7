ghost use Rattle.std.specs.Prelude.{◌≡◌, ◌≢◌, ℕ, ◌<◌, ◌≤◌, ◌↔◌, List, [], Option, None, length, take, IfOk, IfSome};
ghost use Rattle.std.specs.Prelude.{OnOk, OnErr};
ghost use Rattle.io_edge.specs.Faults.{HasCause};
ghost use Rattle.io_edge.specs.Counts.{next_count};
ghost use Rattle.io_edge.specs.Bytes.{Took, IsFlushed};
ghost use Rattle.std.specs.Io.KnownBytes.{prepend_known};

use thiserror::Error;

/// A call on a source or a sink failed: it gave or took nothing, and its fault is counted.
#[derive(Clone, Copy, Debug, PartialEq, Eq, Error)]
#[error("the call failed")]
pub struct Failed;

impl Failed {
    /// Counts one fault more, up to the last value of a `u64`.
    pub(crate) fn counted(faults: &mut u64) -> Self
        ensures next { faults.new ≡ next_count faults.old }
        ensures later { faults.old ≤ faults.new }
    {
        *faults = faults.saturating_add(1);
        Failed
    }
}

/// Bytes that come in.
pub trait Source {
    /// The bytes still to come, where the source tells them.
    ghost left: { Self → Option (List ℕ) } = { λ _. None };

    /// The count that `faults` answers.
    ghost fault_count: { Self → ℕ };

    /// Reads the next bytes into the start of the buffer, and answers how many; none only at the end of input.
    ///
    /// # Errors
    ///
    /// `Failed` where the call had a fault. It gave no byte then, and a later call may give it.
    fn read(&mut self, buf: &mut [u8]) -> Result<usize, Failed>
        requires { 0 < length buf.old }
        ensures bound { IfOk result (λ n. n ≤ length buf.new) }
        ensures gave { IfOk result (λ n. left self.old ≡ prepend_known (take n buf.new) (left self.new)) }
        ensures end { IfOk result (λ n. IfSome (left self.old) (λ bytes. (n ≡ 0) ↔ (bytes ≡ []))) }
        ensures failed { OnErr result (left self.new ≡ left self.old) }
        ensures cause { HasCause (fault_count self.old) (fault_count self.new) result };

    /// How many faults there were, up to the last value of a `u64`.
    fn faults(&self) -> u64
        ensures { result ≡ fault_count self.now };
}

/// Bytes that go out.
pub trait Sink {
    /// All bytes taken so far, where the sink tells them.
    ghost taken: { Self → Option (List ℕ) } = { λ _. None };

    /// How many bytes were taken before the last flush that answered `Ok`, and 0 before any.
    ghost flushed: { Self → ℕ } = { λ _. 0 };

    /// The count that `faults` answers.
    ghost fault_count: { Self → ℕ };

    /// Takes the first bytes, one or more, and answers how many.
    ///
    /// # Errors
    ///
    /// `Failed` where the call had a fault. It took no byte then.
    fn write(&mut self, bytes: &[u8]) -> Result<usize, Failed>
        requires { 0 < length bytes.now }
        ensures bound { IfOk result (λ n. (0 < n) × (n ≤ length bytes.now)) }
        ensures took { IfOk result (λ n. Took (taken self.old) (taken self.new) (take n bytes.now)) }
        ensures failed { OnErr result (taken self.new ≡ taken self.old) }
        ensures flushed { flushed self.new ≡ flushed self.old }
        ensures cause { HasCause (fault_count self.old) (fault_count self.new) result };

    /// Passes on all that was taken.
    ///
    /// # Errors
    ///
    /// `Failed` where the call had a fault. What was flushed before stays so.
    fn flush(&mut self) -> Result<(), Failed>
        ensures taken { taken self.new ≡ taken self.old }
        ensures ok { OnOk result (IsFlushed (taken self.new) (flushed self.new)) }
        ensures failed { OnErr result (flushed self.new ≡ flushed self.old) }
        ensures cause { HasCause (fault_count self.old) (fault_count self.new) result };

    /// How many faults there were, up to the last value of a `u64`.
    fn faults(&self) -> u64
        ensures { result ≡ fault_count self.now };
}
