//! A value of each shape is copied.
use dense_blocks::Listed;
use sheaf_words::{Cause, Command, Edit, Event, Query, Reply, Set, Verdict};
use std::alloc::{AllocError as NoMemory, Global};
use std::fmt::Debug;

/// Whether two values are written alike.
fn are_alike<T: Debug>(alloc: Global, left: &T, right: &T) -> Result<bool, NoMemory> {
    let left = format!(in alloc; "{left:?}")?;
    let right = format!(in alloc; "{right:?}")?;
    Ok(left == right)
}

fn numbers(alloc: Global) -> Result<Listed<u32>, NoMemory> {
    Ok(Listed::of(Vec::from_slice(alloc, &[1, 300])?))
}

fn copies_command(alloc: Global, command: &Command) -> Result<bool, NoMemory> {
    let copy = command.copy(alloc)?;
    are_alike(alloc, command, &copy)
}

/// Whether an edit of this set is copied.
fn copies_set(alloc: Global, set: Set) -> Result<bool, NoMemory> {
    let mut sets = Vec::new(alloc);
    sets.push(set)?;
    let edit = Edit {
        sets: Listed::of(sets),
    };
    copies_command(alloc, &Command::Change(edit))
}

#[test]
fn copies_edits(rt: HostRuntime) -> Result<(), NoMemory> {
    assert!(rt; copies_set(rt.alloc(), Set::Stalk { s: 1, n: 2 })?);
    let entries = numbers(rt.alloc())?;
    assert!(rt;
        copies_set(
            rt.alloc(),
            Set::Restrict {
                s: 3,
                t: 4,
                entries
            }
        )?
    );
    Ok(())
}

fn copies_query(alloc: Global, query: Query) -> Result<bool, NoMemory> {
    copies_command(alloc, &Command::Ask(query))
}

#[test]
fn copies_queries(rt: HostRuntime) -> Result<(), NoMemory> {
    assert!(rt; copies_query(rt.alloc(), Query::Sections)?);
    assert!(rt; copies_query(rt.alloc(), Query::Basis { k: 1 })?);
    let z = numbers(rt.alloc())?;
    assert!(rt; copies_query(rt.alloc(), Query::Class { k: 2, z })?);
    Ok(())
}

fn copies_event(alloc: Global, event: &Event) -> Result<bool, NoMemory> {
    let copy = event.copy(alloc)?;
    are_alike(alloc, event, &copy)
}

fn copies_reply(alloc: Global, r: Reply) -> Result<bool, NoMemory> {
    copies_event(alloc, &Event::Reply { c: 6, r })
}

#[test]
fn copies_replies(rt: HostRuntime) -> Result<(), NoMemory> {
    assert!(rt; copies_reply(rt.alloc(), Reply::BadEntry)?);
    assert!(rt; copies_reply(rt.alloc(), Reply::NotCocycle { k: 2, t: 3 })?);
    let numbers = numbers(rt.alloc())?;
    assert!(rt; copies_reply(rt.alloc(), Reply::Betti(numbers))?);
    Ok(())
}

/// The functional of a stalk of one coordinate.
fn no_section(alloc: Global) -> Result<Reply, NoMemory> {
    let functional = Listed::of(Vec::from_slice(alloc, &[8])?);
    Ok(Reply::NoSection { s: 7, functional })
}

#[test]
fn copies_a_row(rt: HostRuntime) -> Result<(), NoMemory> {
    let reply = no_section(rt.alloc())?;
    assert!(rt; copies_reply(rt.alloc(), reply)?);
    Ok(())
}

#[test]
fn copies_events(rt: HostRuntime) -> Result<(), NoMemory> {
    assert!(rt; copies_event(rt.alloc(), &Event::Ask { c: 2 })?);
    assert!(rt; copies_event(rt.alloc(), &Event::Pair { v: 3, x: 4, y: 5 })?);
    Ok(())
}

fn copies_cause(alloc: Global, cause: &Cause) -> Result<bool, NoMemory> {
    let copy = cause.copy(alloc)?;
    are_alike(alloc, cause, &copy)
}

fn copies_verdict(alloc: Global, verdict: &Verdict) -> Result<bool, NoMemory> {
    let copy = verdict.copy(alloc)?;
    are_alike(alloc, verdict, &copy)
}

#[test]
fn copies_verdicts(rt: HostRuntime) -> Result<(), NoMemory> {
    let cause = Cause::Square { s: 6, u: 7 };
    assert!(rt; copies_cause(rt.alloc(), &cause)?);
    let verdict = Verdict::Refused(cause);
    assert!(rt; copies_verdict(rt.alloc(), &verdict)?);
    assert!(rt; copies_event(rt.alloc(), &Event::Edit { c: 1, verdict })?);
    Ok(())
}
