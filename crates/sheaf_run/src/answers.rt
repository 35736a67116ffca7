ghost use Rattle.std.specs.Prelude.{◌≡◌, ◌≤◌, IfOk, length, sum_by};
ghost use Rattle.sheaf_text.specs.Answers.{AreServable};
ghost use Rattle.sheaf_run.specs.Answers.{AnswersDraft, IsTextOf};
ghost use Rattle.sheaf_run.specs.Replies.{IsRight, Replies};
ghost use Rattle.sheaf_run.specs.Views.{sink_view};
ghost use Rattle.sheaf_run.specs.declared.job.Job.TheVariants.{Solve, Check};

use crate::job::Job;
use crate::output::{send, send_line};
use crate::refusals::refuse_draft;
use crate::session::session_events;
use crate::status::Status;
use dense_blocks::Listed;
use field_table::Field;
use io_edge::Sink;
use reply_text::transcript;
use sheaf_data::{Draft, Sheaf};
use sheaf_words::Command;
use std::alloc::{AllocError as NoMemory, Global};

/// The transcript of what happens where the clients with these scripts are served on the sheaf.
fn solution(
    alloc: Global,
    sheaf: Sheaf<Field>,
    scripts: &[Listed<Command>],
) -> Result<Vec<u8>, NoMemory>
    requires { AreServable sheaf.complex.dims scripts.now }
    ensures { IfOk result (λ text. IsTextOf Solve sheaf scripts.now text.items) }
{
    let events = session_events(alloc, sheaf, scripts)?;
    transcript(alloc, scripts, &events)
}

/// Serves the clients with these scripts on the sheaf, and writes the transcript.
fn solve<K: Sink>(
    alloc: Global,
    sheaf: Sheaf<Field>,
    scripts: &[Listed<Command>],
    sink: &mut K,
) -> Status
    requires { AreServable sheaf.complex.dims scripts.now }
    ensures { Replies (IsRight Solve sheaf scripts.now)
        (sink_view K.taken K.flushed K.fault_count sink.old)
        (sink_view K.taken K.flushed K.fault_count sink.new) result }
{
    match solution(alloc, sheaf, scripts) {
        Ok(text) => send(sink, Status::Done, text.as_slice()),
        Err(_) => Status::NoMemory,
    }
}

/// How many commands the scripts have.
fn command_count(scripts: &[Listed<Command>]) -> usize
    requires { sum_by length scripts.now ≤ 4096 }
    ensures { result ≡ sum_by length scripts.now }
{
    let mut count = 0;
    for script in scripts {
        count += script.as_slice().len();
    }
    count
}

/// Writes how many cells and faces a draft has, how many clients ask, and how many commands these have. Takes no
/// memory.
fn check<K: Sink>(draft: &Draft<Field>, scripts: &[Listed<Command>], sink: &mut K) -> Status
    requires { AreServable draft.now.complex.dims scripts.now }
    ensures { Replies (IsRight Check draft.now scripts.now)
        (sink_view K.taken K.flushed K.fault_count sink.old)
        (sink_view K.taken K.flushed K.fault_count sink.new) result }
{
    let cells = draft.complex.dims().len();
    let faces = draft.complex.face_count() as usize;
    let commands = command_count(scripts);
    send_line(
        sink,
        Status::Done,
        b"good",
        &[cells, faces, scripts.len(), commands],
    )
}

/// Does the job with a sheaf and the scripts of its clients.
fn answer_sheaf<K: Sink>(
    alloc: Global,
    job: Job,
    sheaf: Sheaf<Field>,
    scripts: &[Listed<Command>],
    sink: &mut K,
) -> Status
    requires { AreServable sheaf.complex.dims scripts.now }
    ensures { Replies (IsRight job sheaf scripts.now)
        (sink_view K.taken K.flushed K.fault_count sink.old)
        (sink_view K.taken K.flushed K.fault_count sink.new) result }
{
    match job {
        Job::Solve => solve(alloc, sheaf, scripts, sink),
        Job::Check => check(sheaf.draft(), scripts, sink),
    }
}

/// Does the job with a draft and the scripts of its clients; where the draft is no sheaf, writes its first fault.
pub fn answer<K: Sink>(
    alloc: Global,
    job: Job,
    draft: Draft<Field>,
    scripts: &[Listed<Command>],
    sink: &mut K,
) -> Status
    requires { AreServable draft.complex.dims scripts.now }
    ensures { Replies (AnswersDraft job draft scripts.now)
        (sink_view K.taken K.flushed K.fault_count sink.old)
        (sink_view K.taken K.flushed K.fault_count sink.new) result }
{
    match draft.seal() {
        Ok(sheaf) => answer_sheaf(alloc, job, sheaf, scripts, sink),
        Err(refused) => refuse_draft(sink, refused.1),
    }
}
