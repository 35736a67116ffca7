ghost use Rattle.std.specs.Prelude.{◌≡◌, ◌≢◌, ◌++◌, codes};
ghost use Rattle.sheaf_run.specs.Words.{cause_word, limit_word};
ghost use Rattle.sheaf_run.specs.Answers.{bad_words, bad_line, bad_draft};
ghost use Rattle.sheaf_text.specs.declared.fault.Refusal.TheVariants.{Bad, Over};
ghost use Rattle.sheaf_run.specs.Replies.{Replies};
ghost use Rattle.sheaf_run.specs.Views.{sink_view};
ghost use Rattle.sheaf_data.specs.declared.fault.SealFault.TheVariants.{Complex};

use crate::output::{send, send_line, send_text};
use crate::status::Status;
use incidence_check::Incidence;
use io_edge::Sink;
use sheaf_data::SealFault;
use sheaf_text::{LineCause, Which};

/// Writes that the words are refused.
pub fn refuse_words<K: Sink>(sink: &mut K) -> Status
    ensures replies { Replies (λ a. a ≡ bad_words)
        (sink_view K.taken K.flushed K.fault_count sink.old)
        (sink_view K.taken K.flushed K.fault_count sink.new) result }
    ensures memory { result ≢ Status.NoMemory }
{
    send(sink, Status::BadWords, b"bad words\n")
}

/// The end of a line that names the cause.
fn cause_end(cause: LineCause) -> &'static [u8]
    ensures { result.now ≡ codes " " ++ (cause_word cause ++ codes "\n") }
{
    match cause {
        LineCause::End => b" end\n",
        LineCause::After => b" after\n",
        LineCause::Word => b" word\n",
        LineCause::Count => b" count\n",
        LineCause::Number => b" number\n",
        LineCause::Sign => b" sign\n",
        LineCause::Field => b" field\n",
        LineCause::Cell => b" cell\n",
        LineCause::Vertex => b" vertex\n",
        LineCause::Dims => b" dims\n",
        LineCause::Twice => b" twice\n",
        LineCause::Shape => b" shape\n",
        LineCause::Entry => b" entry\n",
    }
}

/// Writes which line is refused, and why. Takes no memory.
pub fn refuse_line<K: Sink>(sink: &mut K, line: u32, cause: LineCause) -> Status
    ensures { Replies (λ a. a ≡ bad_line line (Bad cause))
        (sink_view K.taken K.flushed K.fault_count sink.old)
        (sink_view K.taken K.flushed K.fault_count sink.new) result }
{
    let end = cause_end(cause);
    send_text(sink, Status::BadLine, b"bad line", &[line as usize], end)
}

/// The words that name the limit.
fn limit_words(which: Which) -> &'static [u8]
    ensures { result.now ≡ codes "limit " ++ limit_word which }
{
    match which {
        Which::Bytes => b"limit bytes",
        Which::Cells => b"limit cells",
        Which::Dimension => b"limit dimension",
        Which::Stalk => b"limit stalk",
        Which::Total => b"limit total",
        Which::Faces => b"limit faces",
        Which::Clients => b"limit clients",
        Which::Commands => b"limit commands",
        Which::Room => b"limit room",
    }
}

/// Writes which limit is passed, and at which line. Takes no memory.
pub fn refuse_limit<K: Sink>(sink: &mut K, line: u32, which: Which) -> Status
    ensures { Replies (λ a. a ≡ bad_line line (Over which))
        (sink_view K.taken K.flushed K.fault_count sink.old)
        (sink_view K.taken K.flushed K.fault_count sink.new) result }
{
    let words = limit_words(which);
    send_line(sink, Status::Limit, words, &[line as usize])
}

/// Writes why the complex is refused. Takes no memory.
fn refuse_complex<K: Sink>(sink: &mut K, fault: Incidence) -> Status
    ensures { Replies (λ a. a ≡ bad_draft (Complex fault))
        (sink_view K.taken K.flushed K.fault_count sink.old)
        (sink_view K.taken K.flushed K.fault_count sink.new) result }
{
    let bad = Status::BadComplex;
    match fault {
        Incidence::EdgeEnds { t } => send_line(sink, bad, b"bad complex edge", &[t as usize]),
        Incidence::Middles { s, u, count } => {
            send_line(
                sink,
                bad,
                b"bad complex middles",
                &[s as usize, u as usize, count as usize],
            )
        }
        Incidence::Signs { s, u } => send_line(
            sink,
            bad,
            b"bad complex signs",
            &[s as usize, u as usize],
        ),
    }
}

/// Writes why the draft is refused. Takes no memory.
pub fn refuse_draft<K: Sink>(sink: &mut K, fault: SealFault) -> Status
    ensures { Replies (λ a. a ≡ bad_draft fault)
        (sink_view K.taken K.flushed K.fault_count sink.old)
        (sink_view K.taken K.flushed K.fault_count sink.new) result }
{
    match fault {
        SealFault::Complex(incidence) => refuse_complex(sink, incidence),
        SealFault::Noncommuting { s, u } => {
            send_line(
                sink,
                Status::BadSheaf,
                b"bad sheaf square",
                &[s as usize, u as usize],
            )
        }
    }
}
