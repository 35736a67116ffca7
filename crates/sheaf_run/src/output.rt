ghost use Rattle.std.specs.Prelude.{◌≡◌, ◌⊎◌, ◌∷◌, ◌++◌, ◌≤◌, codes, decimal, map, OnOk, OnErr};
ghost use Rattle.io_edge.specs.Faults.{HasCause};
ghost use Rattle.io_edge.specs.Bytes.{Took, TookPrefix, IsFlushed};
ghost use Rattle.reply_text.specs.Lines.{line_text};
ghost use Rattle.sheaf_run.specs.Answers.{IsAnswer};
ghost use Rattle.sheaf_run.specs.Parts.{spaced_numbers, text_of_parts};
ghost use Rattle.sheaf_run.specs.Replies.{Replies};
ghost use Rattle.sheaf_run.specs.Views.{sink_view};

use crate::status::Status;
use io_edge::{Sink, WriteFault, write_all};
use itoa::Buffer;

/// Gives the sink a text and flushes it; answers the status, or WriteFault. Takes no memory.
pub fn send<K: Sink>(sink: &mut K, status: Status, text: &[u8]) -> Status
    requires { IsAnswer status }
    ensures replies { Replies (λ a. a ≡ record { status = status; text = text.now })
        (sink_view K.taken K.flushed K.fault_count sink.old)
        (sink_view K.taken K.flushed K.fault_count sink.new) result }
    ensures status { (result ≡ status) ⊎ (result ≡ Status.WriteFault) }
{
    if write_all(sink, text).is_err() {
        return Status::WriteFault;
    }
    match sink.flush() {
        Ok(()) => status,
        Err(_) => Status::WriteFault,
    }
}

/// Gives the sink a space and the number. Takes no memory.
#[tactic(auto, using(io_edge::proofs::Known::taken_pieces))]
fn put_number<K: Sink>(sink: &mut K, number: usize) -> Result<(), WriteFault>
    ensures ok { OnOk result (Took (K.taken sink.old) (K.taken sink.new) (codes " " ++ decimal number)) }
    ensures err { OnErr result (TookPrefix (K.taken sink.old) (K.taken sink.new) (codes " " ++ decimal number)) }
    ensures cause { HasCause (K.fault_count sink.old) (K.fault_count sink.new) result }
{
    let mut buffer = Buffer::new();
    write_all(sink, b" ")?;
    write_all(sink, buffer.format(number).as_bytes())?;
    Ok(())
}

/// Gives the sink the numbers, each after a space. Takes no memory.
fn put_numbers<K: Sink>(sink: &mut K, numbers: &[usize]) -> Result<(), WriteFault>
    ensures ok { OnOk result (Took (K.taken sink.old) (K.taken sink.new) (spaced_numbers numbers.now)) }
    ensures err { OnErr result (TookPrefix (K.taken sink.old) (K.taken sink.new) (spaced_numbers numbers.now)) }
    ensures cause { HasCause (K.fault_count sink.old) (K.fault_count sink.new) result }
{
    for number in numbers {
        match put_number(sink, *number) {
            Ok(()) => {}
            Err(fault) => return Err(fault),
        }
    }
    Ok(())
}

/// Gives the sink words, then numbers, and then the rest. Takes no memory.
#[tactic(auto, using(io_edge::proofs::Known::taken_pieces))]
fn put_text<K: Sink>(
    sink: &mut K,
    words: &[u8],
    numbers: &[usize],
    rest: &[u8],
) -> Result<(), WriteFault>
    ensures ok { OnOk result (Took (K.taken sink.old) (K.taken sink.new)
        (text_of_parts words.now numbers.now rest.now)) }
    ensures err { OnErr result (TookPrefix (K.taken sink.old) (K.taken sink.new)
        (text_of_parts words.now numbers.now rest.now)) }
    ensures cause { HasCause (K.fault_count sink.old) (K.fault_count sink.new) result }
{
    write_all(sink, words)?;
    put_numbers(sink, numbers)?;
    write_all(sink, rest)?;
    Ok(())
}

/// Gives the sink words, then numbers, and then the rest, and flushes it; answers the status, or WriteFault. Takes no
/// memory.
pub fn send_text<K: Sink>(
    sink: &mut K,
    status: Status,
    words: &[u8],
    numbers: &[usize],
    rest: &[u8],
) -> Status
    requires { IsAnswer status }
    ensures { Replies (λ a. a ≡ record { status = status; text = text_of_parts words.now numbers.now rest.now })
        (sink_view K.taken K.flushed K.fault_count sink.old)
        (sink_view K.taken K.flushed K.fault_count sink.new) result }
{
    if put_text(sink, words, numbers, rest).is_err() {
        return Status::WriteFault;
    }
    if sink.flush().is_err() {
        return Status::WriteFault;
    }
    status
}

/// The same for a line of words and then numbers.
pub fn send_line<K: Sink>(sink: &mut K, status: Status, words: &[u8], numbers: &[usize]) -> Status
    requires { IsAnswer status }
    ensures { Replies (λ a. a ≡ record { status = status; text = line_text (words.now ∷ map decimal numbers.now) })
        (sink_view K.taken K.flushed K.fault_count sink.old)
        (sink_view K.taken K.flushed K.fault_count sink.new) result }
{
    send_text(sink, status, words, numbers, b"\n")
}
