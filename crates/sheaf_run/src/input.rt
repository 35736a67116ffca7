ghost use Rattle.sheaf_text.specs.Readings.{reading};
ghost use Rattle.sheaf_run.specs.Answers.{AnswersReading};
ghost use Rattle.sheaf_run.specs.Replies.{Replies};
ghost use Rattle.sheaf_run.specs.Views.{sink_view};

use crate::answers::answer;
use crate::job::Job;
use crate::refusals::{refuse_limit, refuse_line};
use crate::status::Status;
use io_edge::Sink;
use sheaf_text::{TextFault, read};
use std::alloc::Global;

/// Does the job with what the bytes are read as.
pub fn answer_bytes<K: Sink>(alloc: Global, job: Job, bytes: &[u8], sink: &mut K) -> Status
    ensures { Replies (AnswersReading job (reading bytes.now))
        (sink_view K.taken K.flushed K.fault_count sink.old)
        (sink_view K.taken K.flushed K.fault_count sink.new) result }
{
    match read(alloc, bytes) {
        Ok(input) => answer(alloc, job, input.draft, input.scripts.as_slice(), sink),
        Err(TextFault::BadLine { line, cause }) => refuse_line(sink, line, cause),
        Err(TextFault::Limit { line, which }) => refuse_limit(sink, line, which),
        Err(TextFault::NoMemory) => Status::NoMemory,
    }
}
