ghost use Rattle.std.specs.Prelude.{◌≡◌, ℕ, ◌+◌, ◌<◌, ◌≤◌, ◌∷◌, [], ◌++◌, List, Some, None, MatchOption, length, take};
ghost use Rattle.std.specs.Prelude.{slice_get, sum_by, IfOk, OnOk, codes, true, ◌^◌};
ghost use Rattle.sheaf_words.specs.declared.event.Event.{Event};
ghost use Rattle.reply_text.specs.Parts.{lines_text, client_part, clients_lines, event_lines};
ghost use Rattle.reply_text.specs.Parts.{asks_for, current_version};
ghost use Rattle.reply_text.specs.ClientEvents.{IsAnswerTo, AreOf, IfPresent, AreAnswered};
ghost use Rattle.reply_text.specs.Transcripts.{ends_for, is_accepted, version_named, client_lines};
ghost use Rattle.reply_text.specs.Transcripts.{transcript};
ghost use Rattle.reply_text.specs.Counts.{IsCountOf};

use crate::counts::Counts;
use crate::order::put_order;
use crate::replies::put_reply;
use crate::words::put_number;
use dense_blocks::Listed;
use sheaf_words::{Command, Event, Verdict};
use std::alloc::{AllocError as NoMemory, Global};

/// Whether the event ends a command of the client.
fn ends_for(client: u32, event: &Event) -> bool
    ensures { result ≡ ends_for client event.now }
{
    match event {
        Event::Edit { c, .. } | Event::Reply { c, .. } => *c == client,
        Event::Ask { .. } | Event::Pair { .. } => false,
    }
}

/// Whether the client asks by this event.
fn asks_for(client: u32, event: &Event) -> bool
    ensures { result ≡ asks_for client event.now }
{
    match event {
        Event::Ask { c } => *c == client,
        _ => false,
    }
}

/// Whether the event makes a new version.
fn is_accepted(event: &Event) -> bool
    ensures { result ≡ is_accepted event.now }
{
    matches!(
        event,
        Event::Edit {
            verdict: Verdict::Accepted,
            ..
        }
    )
}

impl Counts {
    /// The counts before any event.
    fn none() -> Counts
        ensures { (c : ℕ) → IsCountOf c [] result }
    {
        Counts {
            ended: 0,
            standing: 0,
            asked: 0,
        }
    }

    /// The counts of the client after one event more.
    fn after(self, client: u32, event: &Event) -> Counts
        requires ended_fits { self.ended + 1 < 2 ^ 32 }
        requires standing_fits { self.standing + 1 < 2 ^ 32 }
        ensures { (events : List Event) → IsCountOf client events self
            → IsCountOf client (events ++ event.now ∷ []) result }
    {
        let ended = self.ended + u32::from(ends_for(client, event));
        let standing = self.standing + u32::from(is_accepted(event));
        let asked = if asks_for(client, event) {
            self.standing
        } else {
            self.asked
        };
        Counts {
            ended,
            standing,
            asked,
        }
    }

    /// The version that the reply names which the event gives.
    fn version_named(self, event: &Event) -> u32
        requires standing_fits { self.standing + 1 < 2 ^ 32 }
        ensures { (events : List Event) (c : ℕ) → ends_for c event.now ≡ true → IsCountOf c events self
            → result ≡ version_named events event.now }
    {
        match event {
            Event::Edit {
                verdict: Verdict::Accepted,
                ..
            } => self.standing + 1,
            Event::Edit { .. } | Event::Ask { .. } => self.standing,
            Event::Pair { v, .. } => *v,
            Event::Reply { .. } => self.asked,
        }
    }
}

/// The command at a place of a script, if there is one.
fn command_at(script: &[Command], place: u32) -> Option<&Command>
    ensures { MatchOption result (slice_get script.now place ≡ None)
        (λ command. slice_get script.now place ≡ Some command.now) }
{
    script.get(place as usize)
}

/// Appends the lines that the event gives the client with this script.
fn put_answer(
    alloc: Global,
    out: &mut Vec<u8>,
    client: u32,
    script: &[Command],
    counts: Counts,
    event: &Event,
) -> Result<(), NoMemory>
    requires ended_fits { counts.ended + 1 < 2 ^ 32 }
    requires standing_fits { counts.standing + 1 < 2 ^ 32 }
    requires answers { ends_for client event.now ≡ true
        → IfPresent (slice_get script.now counts.ended) (λ command. IsAnswerTo command event.now) }
    ensures { (events : List Event) → IsCountOf client events counts →
        OnOk result (out.new.items ≡ out.old.items ++ lines_text (event_lines client script.now events event.now)) }
{
    if !ends_for(client, event) {
        return Ok(());
    }
    let Some(command) = command_at(script, counts.ended) else {
        return Ok(());
    };
    let number = counts.ended + 1;
    let version = counts.version_named(event);
    put_reply(alloc, number, version, command, event, out)
}

/// Appends the replies to the client with this script, in order.
fn put_client(
    alloc: Global,
    out: &mut Vec<u8>,
    client: u32,
    script: &[Command],
    events: &[Event],
) -> Result<(), NoMemory>
    requires few { length script.now + 1 < 2 ^ 32 }
    requires few_versions { current_version events.now + 1 < 2 ^ 32 }
    requires answers { AreAnswered client script.now events.now }
    ensures { OnOk result (out.new.items ≡ out.old.items ++ lines_text (client_lines client script.now [] events.now)) }
{
    let mut counts = Counts::none();
    for event in events {
        put_answer(alloc, out, client, script, counts, event)?;
        counts = counts.after(client, event);
    }
    Ok(())
}

/// Appends the line of the client, and its replies.
fn put_part(
    alloc: Global,
    out: &mut Vec<u8>,
    client: u32,
    script: &[Command],
    events: &[Event],
) -> Result<(), NoMemory>
    requires few { length script.now + 1 < 2 ^ 32 }
    requires few_versions { current_version events.now + 1 < 2 ^ 32 }
    requires answers { AreAnswered client script.now events.now }
    ensures { OnOk result (out.new.items ≡ out.old.items ++ lines_text (client_part client script.now events.now)) }
{
    out.extend_from_slice(b"client ")?;
    put_number(out, client)?;
    out.push(b'\n')?;
    put_client(alloc, out, client, script, events)
}

/// Appends this for each client.
fn put_clients(
    alloc: Global,
    out: &mut Vec<u8>,
    scripts: &[Listed<Command>],
    events: &[Event],
) -> Result<(), NoMemory>
    requires few { sum_by length scripts.now + 1 < 2 ^ 32 }
    requires few_clients { length scripts.now < 2 ^ 32 }
    requires of { AreOf scripts.now events.now }
    ensures { OnOk result (out.new.items ≡ out.old.items ++ lines_text (clients_lines 0 scripts.now events.now)) }
{
    let mut client = 0u32;
    for script in scripts {
        put_part(alloc, out, client, script.as_slice(), events)?;
        client += 1;
    }
    Ok(())
}

/// The transcript of the events that clients with these scripts made: for each client, counted from 0, a line and its
/// replies; then the line `order`, a line for each event, and the line `end`.
///
/// Each event is one of these clients, and each that ends a command ends the next one of its client's script and
/// answers it.
pub fn transcript(
    alloc: Global,
    scripts: &[Listed<Command>],
    events: &[Event],
) -> Result<Vec<u8>, NoMemory>
    requires few { sum_by length scripts.now + 1 < 2 ^ 32 }
    requires few_clients { length scripts.now < 2 ^ 32 }
    requires of { AreOf scripts.now events.now }
    ensures { IfOk result (λ text. text.items ≡ transcript scripts.now events.now) }
{
    let mut text = Vec::new(alloc);
    put_clients(alloc, &mut text, scripts, events)?;
    text.extend_from_slice(b"order\n")?;
    put_order(alloc, &mut text, scripts, events)?;
    text.extend_from_slice(b"end\n")?;
    Ok(text)
}
