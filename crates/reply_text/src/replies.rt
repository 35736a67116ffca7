ghost use Rattle.std.specs.Prelude.{◌≡◌, ◌∷◌, ◌++◌, [], map, codes, OnOk, OnErr};
ghost use Rattle.std.specs.Fmt.{decimal};
ghost use Rattle.reply_text.specs.Parts.{spaced_words, lines_text};
ghost use Rattle.reply_text.specs.Reductions.{reduced_counts, map_counts, reduced_lines, map_lines};
ghost use Rattle.reply_text.specs.Replies.{command_word, subject_of, cause_words, reply_words, answer_words};
ghost use Rattle.reply_text.specs.Replies.{first_line, lines_of, further_lines, reply_lines};
ghost use Rattle.reply_text.specs.ClientEvents.{IsAnswerTo};

use crate::classes::{
    put_basis_size, put_class, put_closed, put_extension, put_misfit, put_open, put_row,
    put_vectors,
};
use crate::reductions::{put_map_counts, put_maps, put_reduced, put_reduced_counts};
use crate::words::{put_all, put_count, put_named, put_next, put_number};
use sheaf_words::{Cause, Command, Event, Maps, Query, Reduced, Reply, Verdict};
use std::alloc::{AllocError as NoMemory, Global};

/// The first word of a command.
fn command_word(command: &Command) -> &'static [u8]
    ensures { result.now ≡ command_word command.now }
{
    match command {
        Command::Change(_) => b"edit",
        Command::Ask(Query::Betti) => b"betti",
        Command::Ask(Query::Reduce) => b"reduce",
        Command::Ask(Query::Equiv) => b"equiv",
        Command::Ask(Query::Basis { .. }) => b"basis",
        Command::Ask(Query::Class { .. }) => b"class",
        Command::Ask(Query::Sections) => b"sections",
        Command::Ask(Query::Extend { .. }) => b"extend",
    }
}

/// The degree or the vertex that a command asks about; 0 where it asks about neither.
fn subject_of(command: &Command) -> u32
    ensures { result ≡ subject_of command.now }
{
    match command {
        Command::Ask(Query::Basis { k } | Query::Class { k, .. }) => u32::from(*k),
        Command::Ask(Query::Extend { s, .. }) => *s,
        _ => 0,
    }
}

fn put_cause(out: &mut Vec<u8>, cause: Cause) -> Result<(), NoMemory>
    ensures { OnOk result (out.new.items ≡ out.old.items ++ spaced_words (cause_words cause)) }
{
    match cause {
        Cause::NoCell { i } => put_named(out, b" cell", i),
        Cause::NoFace { i } => put_named(out, b" face", i),
        Cause::StalkLimit { i } => put_named(out, b" stalk", i),
        Cause::Shape { i } => put_named(out, b" shape", i),
        Cause::Entry { i } => put_named(out, b" entry", i),
        Cause::TotalLimit => out.extend_from_slice(b" total"),
        Cause::Square { s, u } => put_square(out, s, u),
    }
}

fn put_square(out: &mut Vec<u8>, s: u32, u: u32) -> Result<(), NoMemory>
    ensures { OnOk result (out.new.items ≡ out.old.items ++ spaced_words (cause_words (Cause.Square s u))) }
{
    put_named(out, b" square", s)?;
    put_next(out, u)
}

fn put_refusal(out: &mut Vec<u8>, cause: Cause) -> Result<(), NoMemory>
    ensures { OnOk result (out.new.items ≡ out.old.items ++ spaced_words (codes "refused" ∷ cause_words cause)) }
{
    out.extend_from_slice(b" refused")?;
    put_cause(out, cause)
}

/// Appends what the first line says of a reply, after the word of the command.
fn put_reply_words(
    alloc: Global,
    out: &mut Vec<u8>,
    command: &Command,
    r: &Reply,
) -> Result<(), NoMemory>
    ensures { OnOk result (out.new.items ≡ out.old.items ++ spaced_words (reply_words command.now r.now)) }
{
    match r {
        Reply::Betti(numbers) => put_all(out, numbers.as_slice()),
        Reply::Reduce(reduced) => put_reduced_counts(alloc, out, reduced),
        Reply::Equiv(reduced, maps) => put_equiv_counts(alloc, out, reduced, maps),
        Reply::Basis { k, vectors } => put_basis_size(out, *k, vectors.as_slice().len()),
        Reply::NotCocycle { k, t } => put_open(out, *k, *t),
        Reply::Class { k, coords, .. } => put_closed(out, *k, coords.as_slice()),
        Reply::Sections(vectors) => put_count(out, vectors.as_slice().len()),
        Reply::Section { s, .. } => put_extension(out, *s, b"section"),
        Reply::NoSection { s, .. } => put_extension(out, *s, b"none"),
        Reply::BadLength => put_misfit(out, subject_of(command), b"length"),
        Reply::BadEntry => put_misfit(out, subject_of(command), b"entry"),
    }
}

fn put_equiv_counts(
    alloc: Global,
    out: &mut Vec<u8>,
    reduced: &Reduced,
    maps: &Maps,
) -> Result<(), NoMemory>
    ensures { OnOk result (out.new.items ≡ out.old.items
        ++ spaced_words (map decimal (reduced_counts reduced.now ++ map_counts reduced.now maps.now))) }
{
    put_reduced_counts(alloc, out, reduced)?;
    put_map_counts(alloc, out, reduced, maps)
}

fn put_answer(
    alloc: Global,
    out: &mut Vec<u8>,
    command: &Command,
    event: &Event,
) -> Result<(), NoMemory>
    ensures { OnOk result (out.new.items ≡ out.old.items ++ spaced_words (answer_words command.now event.now)) }
{
    match event {
        Event::Edit {
            verdict: Verdict::Accepted,
            ..
        } => out.extend_from_slice(b" accepted"),
        Event::Edit {
            verdict: Verdict::Refused(cause),
            ..
        } => put_refusal(out, *cause),
        Event::Reply { r, .. } => put_reply_words(alloc, out, command, r),
        _ => Ok(()),
    }
}

/// Appends the first line.
fn put_first(
    alloc: Global,
    out: &mut Vec<u8>,
    number: u32,
    v: u32,
    command: &Command,
    event: &Event,
) -> Result<(), NoMemory>
    ensures { OnOk result (out.new.items ≡ out.old.items
        ++ lines_text (first_line number v command.now event.now ∷ [])) }
{
    put_number(out, number)?;
    out.extend_from_slice(b" v")?;
    put_number(out, v)?;
    out.push(b' ')?;
    out.extend_from_slice(command_word(command))?;
    put_answer(alloc, out, command, event)?;
    out.push(b'\n')?;
    Ok(())
}

fn put_equiv(
    alloc: Global,
    out: &mut Vec<u8>,
    reduced: &Reduced,
    maps: &Maps,
) -> Result<(), NoMemory>
    ensures { OnOk result (out.new.items ≡ out.old.items
        ++ lines_text (reduced_lines reduced.now ++ map_lines reduced.now maps.now)) }
{
    put_reduced(alloc, out, reduced)?;
    put_maps(alloc, out, reduced, maps)
}

/// Appends the lines of a reply after the first.
fn put_lines(alloc: Global, out: &mut Vec<u8>, r: &Reply) -> Result<(), NoMemory>
    ensures { OnOk result (out.new.items ≡ out.old.items ++ lines_text (lines_of r.now)) }
{
    match r {
        Reply::Reduce(reduced) => put_reduced(alloc, out, reduced),
        Reply::Equiv(reduced, maps) => put_equiv(alloc, out, reduced, maps),
        Reply::Basis { vectors, .. } | Reply::Sections(vectors) => {
            put_vectors(out, vectors.as_slice())
        }
        Reply::Class {
            vectors,
            primitive,
            ..
        } => put_class(out, vectors.as_slice(), primitive.as_slice()),
        Reply::Section { z, .. } => put_row(out, b"vector", z.as_slice()),
        Reply::NoSection { functional, .. } => put_row(out, b"functional", functional.as_slice()),
        _ => Ok(()),
    }
}

/// Appends the lines after the first.
fn put_further(alloc: Global, out: &mut Vec<u8>, event: &Event) -> Result<(), NoMemory>
    ensures { OnOk result (out.new.items ≡ out.old.items ++ lines_text (further_lines event.now)) }
{
    match event {
        Event::Reply { r, .. } => put_lines(alloc, out, r),
        _ => Ok(()),
    }
}

/// Appends the lines that answer a command, as `reply_lines`; but without memory some of them may stand there.
pub(crate) fn put_reply(
    alloc: Global,
    number: u32,
    v: u32,
    command: &Command,
    event: &Event,
    out: &mut Vec<u8>,
) -> Result<(), NoMemory>
    ensures { OnOk result (out.new.items ≡ out.old.items
        ++ lines_text (reply_lines number v command.now event.now)) }
{
    put_first(alloc, out, number, v, command, event)?;
    put_further(alloc, out, event)
}

/// Appends the lines that answer the command of this number, counted from 1, on the version `v`: for an edit that is
/// accepted the new version, for one that is refused the version that stands, for a query the version that was asked.
///
/// The event is the verdict on the edit, or the reply to the query, that the command is. The lines are made apart, and
/// so without memory the text is as before.
pub fn reply_lines(
    alloc: Global,
    number: u32,
    v: u32,
    command: &Command,
    event: &Event,
    out: &mut Vec<u8>,
) -> Result<(), NoMemory>
    requires { IsAnswerTo command.now event.now }
    ensures ok { OnOk result (out.new.items ≡ out.old.items
        ++ lines_text (reply_lines number v command.now event.now)) }
    ensures err { OnErr result (out.new.items ≡ out.old.items) }
{
    let mut text = Vec::new(alloc);
    put_reply(alloc, number, v, command, event, &mut text)?;
    out.extend_from_slice(text.as_slice())
}
