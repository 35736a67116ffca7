ghost use Rattle.std.specs.Io.KnownBytes.{Keeps, ReadConsumes, WriteAppends};
ghost use Rattle.std.specs.Prelude.{◌≡◌, ℕ, ◌<◌, ◌≤◌, length, IfOk};
ghost use Rattle.io_edge.specs.Faults.{HasCause};
ghost use Rattle.io_edge.specs.Counts.{count_after};

use crate::edge::{Failed, Sink, Source};
use std::io::{Read, Write};
use std::marker::Model;

/// A reader of std, whose faults are counted. Each error of it is a fault, that of an interrupted read too.
///
/// Contracts see the reader and the count. The bytes still to come are not told: they are what the reader gives.
#[derive(Drop)]
pub struct StdSource<R> {
    reader: R,
    faults: u64,
}

impl<R> Model for StdSource<R> {
    ghost use Rattle.io_edge.specs.Counts.{Counted};

    ghost Value = { Counted R };

    ghost view = { λ source. record { inner = source.reader; faults = source.faults } };
}

impl<R: Read> StdSource<R> {
    /// A source of the bytes that the reader gives, with no fault yet.
    pub fn new(reader: R) -> Self
        ensures { result ≡ record { inner = reader; faults = 0 } }
    {
        StdSource { reader, faults: 0 }
    }
}

impl<R: Read> Source for StdSource<R> {
    ghost fault_count = { λ source. source.faults };

    fn read(&mut self, buf: &mut [u8]) -> Result<usize, Failed>
        ensures bound { IfOk result (λ n. n ≤ length buf.new) }
        ensures cause { HasCause self.old.faults self.new.faults result }
        ensures counted { self.new.faults ≡ count_after result self.old.faults }

        // What std says of the bytes that its reader has left holds of this call.
        ensures bytes { ReadConsumes (R.remaining self.old.inner) (R.remaining self.new.inner) result buf.new }
    {
        match self.reader.read(buf) {
            Ok(count) => Ok(count),
            Err(_) => Err(Failed::counted(&mut self.faults)),
        }
    }

    fn faults(&self) -> u64 {
        self.faults
    }
}

/// A writer of std, whose faults are counted. Each error of it is a fault, and so is a write of which it takes nothing.
///
/// Contracts see the writer and the count. The bytes taken are not told: they are what went to the writer.
#[derive(Drop)]
pub struct StdSink<W> {
    writer: W,
    faults: u64,
}

impl<W> Model for StdSink<W> {
    ghost use Rattle.io_edge.specs.Counts.{Counted};

    ghost Value = { Counted W };

    ghost view = { λ sink. record { inner = sink.writer; faults = sink.faults } };
}

impl<W: Write> StdSink<W> {
    /// A sink whose bytes go to the writer, with no fault yet.
    pub fn new(writer: W) -> Self
        ensures { result ≡ record { inner = writer; faults = 0 } }
    {
        StdSink { writer, faults: 0 }
    }
}

impl<W: Write> Sink for StdSink<W> {
    ghost fault_count = { λ sink. sink.faults };

    fn write(&mut self, bytes: &[u8]) -> Result<usize, Failed>
        requires { 0 < length bytes.now }
        ensures bound { IfOk result (λ n. (0 < n) × (n ≤ length bytes.now)) }
        ensures cause { HasCause self.old.faults self.new.faults result }
        ensures counted { self.new.faults ≡ count_after result self.old.faults }

        // What std says of the bytes that its writer holds holds of this call.
        ensures bytes { WriteAppends (W.contents self.old.inner) (W.contents self.new.inner) result bytes.now }
    {
        match self.writer.write(bytes) {
            Ok(count) if count > 0 => Ok(count),
            _ => Err(Failed::counted(&mut self.faults)),
        }
    }

    fn flush(&mut self) -> Result<(), Failed>
        ensures cause { HasCause self.old.faults self.new.faults result }
        ensures counted { self.new.faults ≡ count_after result self.old.faults }
        ensures bytes { Keeps (W.contents self.old.inner) (W.contents self.new.inner) }
    {
        match self.writer.flush() {
            Ok(()) => Ok(()),
            Err(_) => Err(Failed::counted(&mut self.faults)),
        }
    }

    fn faults(&self) -> u64 {
        self.faults
    }
}
