ghost use Rattle.std.specs.Prelude.{◌≡◌, ℕ, ◌+◌, ◌<◌, ◌^◌, ◌∷◌, [], ◌++◌, List, length, sum_by, All, IfSome, OnOk};
ghost use Rattle.sheaf_words.specs.declared.event.Event.{Event};
ghost use Rattle.reply_text.specs.Parts.{lines_text, command_number, placed_lines};
ghost use Rattle.reply_text.specs.ClientEvents.{AreOf, client_of, ender_of};
ghost use Rattle.reply_text.specs.Counts.{AreCounted};

use crate::events::put_line;
use dense_blocks::Listed;
use sheaf_words::{Command, Event};
use std::alloc::{AllocError as NoMemory, Global};

/// The client whose command the event is about.
fn client_of(event: &Event) -> Option<u32>
    ensures { result ≡ client_of event.now }
{
    match event {
        Event::Edit { c, .. } | Event::Ask { c } | Event::Reply { c, .. } => Some(*c),
        Event::Pair { .. } => None,
    }
}

/// The client whose command the event ends.
fn ender_of(event: &Event) -> Option<u32>
    ensures { result ≡ ender_of event.now }
{
    match event {
        Event::Edit { c, .. } | Event::Reply { c, .. } => Some(*c),
        Event::Ask { .. } | Event::Pair { .. } => None,
    }
}

/// The number of the command that the event is about.
fn number_of(counts: &[u32], event: &Event) -> u32
    requires known { IfSome (client_of event.now) (λ c. c < length counts.now) }
    requires fits { All (λ n. n + 1 < 2 ^ 32) counts.now }
    ensures { (events : List Event) → AreCounted events counts.now → result ≡ command_number events event.now }
{
    match client_of(event) {
        Some(c) => counts[c as usize] + 1,
        None => 0,
    }
}

/// Counts the event, for the client whose command it ends.
fn count_event(counts: &mut Vec<u32>, event: &Event)
    requires known { IfSome (client_of event.now) (λ c. c < length counts.old.items) }
    requires fits { All (λ n. n + 1 < 2 ^ 32) counts.old.items }
    ensures len { length counts.new.items ≡ length counts.old.items }
    ensures counted { (events : List Event) → AreCounted events counts.old.items
        → AreCounted (events ++ event.now ∷ []) counts.new.items }
{
    if let Some(c) = ender_of(event) {
        counts[c as usize] += 1;
    }
}

/// Appends a line for each event that the clients with these scripts have made.
pub(crate) fn put_order(
    alloc: Global,
    out: &mut Vec<u8>,
    scripts: &[Listed<Command>],
    events: &[Event],
) -> Result<(), NoMemory>
    requires few { sum_by length scripts.now + 1 < 2 ^ 32 }
    requires of { AreOf scripts.now events.now }
    requires known { All (λ event. IfSome (client_of event) (λ c. c < length scripts.now)) events.now }
    ensures { OnOk result (out.new.items ≡ out.old.items ++ lines_text (placed_lines events.now)) }
{
    let mut counts = vec![in alloc; 0u32; scripts.len()]?;
    for event in events {
        let number = number_of(counts.as_slice(), event);
        put_line(out, number, event)?;
        count_event(&mut counts, event);
    }
    Ok(())
}
