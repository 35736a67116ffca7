//! The lines of replies that no row has: of a reduced complex, and of the maps to it.
ghost use Rattle.reply_text.specs.ClientEvents.{IsAnswerTo};

use dense_blocks::{Block, Listed};
use reply_text::reply_lines;
use sheaf_words::{Command, Event, Maps, Query, Reduced, Reply};
use std::alloc::{AllocError as NoMemory, Global};

/// One matrix for each of the degrees 0 and 1.
fn two_degrees(low: Block, high: Block, alloc: Global) -> Result<Listed<Block>, NoMemory> {
    let mut matrices = Vec::new(alloc);
    matrices.push(low)?;
    matrices.push(high)?;
    Ok(Listed::of(matrices))
}

fn pairs(alloc: Global, list: &[(u32, u32)]) -> Result<Listed<(u32, u32)>, NoMemory> {
    Ok(Listed::of(Vec::from_slice(alloc, list)?))
}

fn cells(alloc: Global, list: &[(u32, u8, u8)]) -> Result<Listed<(u32, u8, u8)>, NoMemory> {
    Ok(Listed::of(Vec::from_slice(alloc, list)?))
}

/// The lines of a reply to command 1 on version 0.
fn lines(alloc: Global, query: Query, r: Reply) -> Result<Vec<u8>, NoMemory>
    requires { IsAnswerTo (Command.Ask query) (Event.Reply 0 r) }
{
    let mut out = Vec::new(alloc);
    let event = Event::Reply { c: 0, r };
    reply_lines(alloc, 1, 0, &Command::Ask(query), &event, &mut out)?;
    Ok(out)
}

/// A circle of three vertices and three edges, without the pairs of 0 and 3 and of 1 and 4.
fn circle(alloc: Global) -> Result<Reduced, NoMemory> {
    let low = Block::of(alloc, 1, 1, &[0])?;
    let high = Block::of(alloc, 0, 1, &[])?;
    Ok(Reduced {
        pairs: pairs(alloc, &[(0, 3), (1, 4)])?,
        live: cells(alloc, &[(2, 0, 1), (5, 1, 1)])?,
        d: two_degrees(low, high, alloc)?,
    })
}

/// The maps to it over the field of order 3.
fn circle_maps(alloc: Global) -> Result<Maps, NoMemory> {
    let base = cells(
        alloc,
        &[
            (0, 0, 1),
            (1, 0, 1),
            (2, 0, 1),
            (3, 1, 1),
            (4, 1, 1),
            (5, 1, 1),
        ],
    )?;
    let low = Block::of(alloc, 1, 3, &[0, 0, 1])?;
    let high = Block::of(alloc, 1, 3, &[2, 2, 1])?;
    let pi = two_degrees(low, high, alloc)?;
    let low = Block::of(alloc, 3, 1, &[1, 1, 1])?;
    let high = Block::of(alloc, 3, 1, &[0, 0, 1])?;
    let iota = two_degrees(low, high, alloc)?;
    let low = Block::of(alloc, 3, 3, &[2, 2, 0, 0, 2, 0, 0, 0, 0])?;
    let high = Block::of(alloc, 3, 0, &[])?;
    let h = two_degrees(low, high, alloc)?;
    Ok(Maps { base, pi, iota, h })
}

#[test]
fn writes_a_circle_without_two_pairs(rt: HostRuntime) -> Result<(), NoMemory> {
    let reply = Reply::Reduce(circle(rt.alloc())?);
    let out = lines(rt.alloc(), Query::Reduce, reply)?;
    let text = b"1 v0 reduce 2 2 0\npair 0 3\npair 1 4\nlive 2 1\nlive 5 1\n";
    assert!(rt; out.as_slice() == text.as_slice());
    Ok(())
}

#[test]
fn writes_the_maps_of_the_circle(rt: HostRuntime) -> Result<(), NoMemory> {
    let reply = Reply::Equiv(circle(rt.alloc())?, circle_maps(rt.alloc())?);
    let out = lines(rt.alloc(), Query::Equiv, reply)?;
    let text = b"1 v0 equiv 2 2 0 4 4 3\npair 0 3\npair 1 4\nlive 2 1\nlive 5 1\n\
        pi 2 2 1\npi 3 5 2\npi 4 5 2\npi 5 5 1\n\
        iota 2 0 1\niota 2 1 1\niota 2 2 1\niota 5 5 1\n\
        h 3 0 2\nh 4 0 2\nh 4 1 2\n";
    assert!(rt; out.as_slice() == text.as_slice());
    Ok(())
}

/// Cells of two degrees in turns, with several coordinates.
fn mixed(alloc: Global) -> Result<Reduced, NoMemory> {
    let low = Block::of(alloc, 3, 3, &[1, 0, 0, 2, 3, 4, 0, 0, 1])?;
    let high = Block::of(alloc, 0, 3, &[])?;
    Ok(Reduced {
        pairs: pairs(alloc, &[])?,
        live: cells(alloc, &[(1, 1, 2), (2, 0, 1), (4, 1, 1), (5, 0, 2)])?,
        d: two_degrees(low, high, alloc)?,
    })
}

#[test]
fn writes_blocks_of_several_rows_and_columns(rt: HostRuntime) -> Result<(), NoMemory> {
    let reply = Reply::Reduce(mixed(rt.alloc())?);
    let out = lines(rt.alloc(), Query::Reduce, reply)?;
    let text = b"1 v0 reduce 0 4 3\nlive 1 2\nlive 2 1\nlive 4 1\nlive 5 2\n\
        block 2 1 1 2\nblock 5 1 0 0 3 4\nblock 5 4 0 1\n";
    assert!(rt; out.as_slice() == text.as_slice());
    Ok(())
}
