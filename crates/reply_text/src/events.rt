ghost use Rattle.std.specs.Prelude.{◌≡◌, ◌∷◌, ◌++◌, OnOk, OnErr, codes};
ghost use Rattle.std.specs.Fmt.{decimal};
ghost use Rattle.std.specs.List.{join_with_byte};
ghost use Rattle.reply_text.specs.Lines.{line_text};
ghost use Rattle.reply_text.specs.Parts.{numbered_words};

use crate::words::{put_named, put_next};
use sheaf_words::Event;
use std::alloc::{AllocError as NoMemory, Global};

/// Appends a word, a space, the number of a client, a space and the number of its command.
fn put_step(out: &mut Vec<u8>, word: &[u8], client: u32, number: u32) -> Result<(), NoMemory>
    ensures { OnOk result (out.new.items ≡ out.old.items
        ++ ((word.now ++ 32 ∷ decimal client) ++ 32 ∷ decimal number)) }
{
    put_named(out, word, client)?;
    put_next(out, number)
}

fn put_pair(out: &mut Vec<u8>, v: u32, x: u32, y: u32) -> Result<(), NoMemory>
    ensures { OnOk result (out.new.items ≡ out.old.items
        ++ (((codes "pair" ++ 32 ∷ decimal v) ++ 32 ∷ decimal x) ++ 32 ∷ decimal y)) }
{
    put_step(out, b"pair", v, x)?;
    put_next(out, y)
}

fn put_event(out: &mut Vec<u8>, number: u32, event: &Event) -> Result<(), NoMemory>
    ensures { OnOk result (out.new.items ≡ out.old.items ++ join_with_byte 32 (numbered_words number event.now)) }
{
    match event {
        Event::Edit { c, .. } => put_step(out, b"edit", *c, number),
        Event::Ask { c } => put_step(out, b"ask", *c, number),
        Event::Pair { v, x, y } => put_pair(out, *v, *x, *y),
        Event::Reply { c, .. } => put_step(out, b"reply", *c, number),
    }
}

/// Appends the line of an event, as `event_line`; but without memory a part of it may stand there.
pub(crate) fn put_line(out: &mut Vec<u8>, number: u32, event: &Event) -> Result<(), NoMemory>
    ensures { OnOk result (out.new.items ≡ out.old.items ++ line_text (numbered_words number event.now)) }
{
    put_event(out, number, event)?;
    out.push(b'\n')?;
    Ok(())
}

/// Appends the line of an event that is about the command of this number, counted from 1 for each client.
///
/// The line of a pair has its own version and no number; no other line has a version. The line is made apart, and so
/// without memory the text is as before.
pub fn event_line(
    alloc: Global,
    number: u32,
    _v: u32,
    event: &Event,
    out: &mut Vec<u8>,
) -> Result<(), NoMemory>
    ensures ok { OnOk result (out.new.items ≡ out.old.items ++ line_text (numbered_words number event.now)) }
    ensures err { OnErr result (out.new.items ≡ out.old.items) }
{
    let mut text = Vec::new(alloc);
    put_line(&mut text, number, event)?;
    out.extend_from_slice(text.as_slice())
}
