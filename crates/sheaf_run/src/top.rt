ghost use Rattle.std.specs.Prelude.{◌≡◌, ◌≢◌, map, string_bytes, None, Some};
ghost use Rattle.sheaf_run.specs.Answers.{AnswersJob, job_of};
ghost use Rattle.sheaf_run.specs.Views.{source_view, sink_view};
ghost use Rattle.sheaf_run.specs.Runs.{IsRun, Serves};

use crate::input::answer_bytes;
use crate::job::{Job, job_of};
use crate::refusals::{refuse_limit, refuse_words};
use crate::status::Status;
use io_edge::{ReadAll, Sink, Source, read_all};
use sheaf_text::{MOST_BYTES, Which};
use std::alloc::Global;

/// Reads the whole input and does the job with it.
fn answer_source<S: Source, K: Sink>(
    alloc: Global,
    job: Job,
    source: &mut S,
    sink: &mut K,
) -> Status
    ensures run { IsRun (AnswersJob (Some job))
        (source_view S.left S.fault_count source.old)
        (source_view S.left S.fault_count source.new)
        (sink_view K.taken K.flushed K.fault_count sink.old)
        (sink_view K.taken K.flushed K.fault_count sink.new) result }
    ensures accepted { result ≢ Status.BadWords }
{
    match read_all(alloc, source, MOST_BYTES) {
        Ok(bytes) => answer_bytes(alloc, job, &bytes, sink),
        Err(ReadAll::TooLong) => refuse_limit(sink, 0, Which::Bytes),
        Err(ReadAll::ReadFault) => Status::ReadFault,
        Err(ReadAll::NoMemory) => Status::NoMemory,
    }
}

/// Does the job that the words ask for: reads the source to its end, and writes what it is answered.
///
/// The words are those after the program's name. The order is: words, the whole input, its form, its complex, its
/// sheaf, the writing. Every status but the two faults and NoMemory is answered only after its text was written and
/// flushed. With refused words nothing is read.
pub fn run_solo<S: Source, K: Sink>(
    alloc: Global,
    words: &[String],
    source: &mut S,
    sink: &mut K,
) -> Status
    ensures serves { Serves (job_of (map string_bytes words.now))
        (source_view S.left S.fault_count source.old)
        (source_view S.left S.fault_count source.new)
        (sink_view K.taken K.flushed K.fault_count sink.old)
        (sink_view K.taken K.flushed K.fault_count sink.new) result }
    ensures unread { job_of (map string_bytes words.now) ≡ None → source.new ≡ source.old }
{
    match job_of(words) {
        None => refuse_words(sink),
        Some(job) => answer_source(alloc, job, source, sink),
    }
}

/// Does all that the program does: for now what `run_solo` does.
pub fn run<S: Source, K: Sink>(
    alloc: Global,
    words: &[String],
    source: &mut S,
    sink: &mut K,
) -> Status
    ensures serves { Serves (job_of (map string_bytes words.now))
        (source_view S.left S.fault_count source.old)
        (source_view S.left S.fault_count source.new)
        (sink_view K.taken K.flushed K.fault_count sink.old)
        (sink_view K.taken K.flushed K.fault_count sink.new) result }
    ensures unread { job_of (map string_bytes words.now) ≡ None → source.new ≡ source.old }
{
    run_solo(alloc, words, source, sink)
}
