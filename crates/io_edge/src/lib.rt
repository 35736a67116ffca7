//! The outside: bytes in, bytes out, and faults counted.
//!
//! A [`Source`] gives bytes and a [`Sink`] takes them; each call may fail, and each failure is counted. [`read_all`]
//! and [`write_all`] work over any of them: [`StdSource`] and [`StdSink`] over the readers and writers of std,
//! [`MemSource`] and [`MemSink`] over memory, with calls that fail on purpose.
#![tactic(auto)]

mod adapters;
mod edge;
mod input;
mod memory_sink;
mod memory_source;
mod numbered;
mod output;

pub use adapters::{StdSink, StdSource};
pub use edge::{Failed, Sink, Source};
pub use input::{ReadAll, read_all};
pub use memory_sink::MemSink;
pub use memory_source::MemSource;
pub use output::{WriteFault, write_all};
