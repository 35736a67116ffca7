ghost use Rattle.std.specs.Prelude.{◌≡◌, ◌≤◌, IfOk, OnOk};
ghost use Rattle.sheaf_bench.specs.Merges.{MayJoin};

use crate::reduction::start;
use crate::report::{Failure, Outcome, Span, checksum, timed};
use crate::texts::{add_cells, add_face, sheaf_of};
use block_sparse::Blocks;
use dense_blocks::{Block, minus};
use field_table::Field;
use reduce_step::Footprint;
use std::alloc::{AllocError as NoMemory, Global};
use std::rt::Clock;
use std::time::Instant;

/// How many blocks are put in all, or a few less.
const PUT: u32 = 65_536;

/// Adds the text of a sheaf whose blocks have one entry, each 1, between `2n + 1` cells of degree 2 and as
/// many of degree 3.
///
/// From each of the first to each of the second goes a block, with two exceptions: from the first cell blocks go to the
/// first and to every second of the others alone, and to the first cell of degree 3 they go from the first and from
/// every second of the others alone. So the pair of the two first cells has `n` cells on the left and `n` below, and
/// all rows and columns of these hold `n + 1` other blocks.
fn add_crossed(alloc: Global, text: &mut String, n: u8) -> Result<(), NoMemory> {
    let count = 2 * u32::from(n) + 1;
    text.push_str("field 31\n")?;
    add_cells(text, count, "cell 2 1\n")?;
    add_cells(text, count, "cell 3 1\n")?;
    for pair in 0..count * count {
        let (i, j) = (pair % count, pair / count);
        if has_block(i, j) {
            add_face(alloc, text, (i, count + j), '+')?;
        }
    }
    text.push_str("done\n")
}

/// Whether a block goes from the cell at `i` of degree 2 to that at `j` of degree 3.
fn has_block(i: u32, j: u32) -> bool {
    (i != 0 || j == 0 || j % 2 == 1) && (j != 0 || i == 0 || i % 2 == 1)
}

/// The block complex of that sheaf.
fn crossed(alloc: Global, n: u8) -> Result<Blocks, Failure> {
    let mut text = String::new(alloc);
    add_crossed(alloc, &mut text, n)?;
    let sheaf = sheaf_of(alloc, text.as_bytes())?;
    Ok(start(alloc, &sheaf)?)
}

pub fn time_merge<R: Clock>(rt: &R, alloc: Global, n: u8) -> Outcome
    requires { 1 ≤ n }
{
    let mut blocks = crossed(alloc, n)?;
    let y = 2 * u32::from(n) + 1;
    let grid = u32::from(n) * u32::from(n);
    let rounds = PUT / grid;
    let span = time_rounds(rt, alloc, &mut blocks, y, rounds)?;
    let put = footprint(alloc, &blocks, y)?;
    let sum = checksum(0, put.corners.entries.as_slice());
    timed(alloc, span, rounds.saturating_mul(grid), "blocks", sum)
}

/// Puts the corners of the pair of the cells 0 and `y`, so many times in all.
fn time_rounds<R: Clock>(
    rt: &R,
    alloc: Global,
    blocks: &mut Blocks,
    y: u32,
    rounds: u32,
) -> Result<Span, Failure> {
    let foot = footprint(alloc, blocks, y)?;
    let negative = negative(alloc, &foot)?;
    let start = Instant::now(rt).ok();
    merge(blocks, &foot, &negative, rounds)?;
    Ok((start, Instant::now(rt).ok()))
}

/// The footprint of the pair of the cells 0 and `y`.
fn footprint(alloc: Global, blocks: &Blocks, y: u32) -> Result<Footprint, Failure>
    ensures { IfOk result (λ foot. MayJoin blocks.now.live foot.left foot.below) }
{
    let Some(_) = blocks.get(0, y) else {
        return Err(Failure::Made);
    };
    if blocks.size(y) != blocks.size(0) {
        return Err(Failure::Made);
    }
    // This call is made for its clauses alone.
    let _live = blocks.live();
    let foot = Footprint::copy(alloc, blocks, 0, y)?;
    Ok(foot)
}

/// The negative of the corners.
fn negative(alloc: Global, foot: &Footprint) -> Result<Block, Failure>
    ensures rows { IfOk result (λ b. b.rows ≡ foot.now.corners.rows) }
    ensures cols { IfOk result (λ b. b.cols ≡ foot.now.corners.cols) }
{
    let field = Field::ThirtyOne;
    if !foot.is_over(&field) {
        return Err(Failure::Made);
    }
    Ok(minus(alloc, &field, &foot.corners)?)
}

/// Puts this joined matrix and the corners in turn, so many times in all.
fn merge(blocks: &mut Blocks, foot: &Footprint, first: &Block, rounds: u32) -> Result<(), NoMemory>
    requires joined { MayJoin blocks.old.live foot.now.left foot.now.below }
    requires rows { first.now.rows ≡ foot.now.corners.rows }
    requires cols { first.now.cols ≡ foot.now.corners.cols }
{
    for round in 0..rounds {
        if round % 2 == 0 {
            put_grid(blocks, foot, first)?;
        } else {
            put_grid(blocks, foot, &foot.corners)?;
        }
    }
    Ok(())
}

/// Puts a joined matrix in place of the corners.
fn put_grid(blocks: &mut Blocks, foot: &Footprint, joined: &Block) -> Result<(), NoMemory>
    requires joined { MayJoin blocks.old.live foot.now.left foot.now.below }
    requires rows { joined.now.rows ≡ foot.now.corners.rows }
    requires cols { joined.now.cols ≡ foot.now.corners.cols }
    ensures { OnOk result (blocks.new.live ≡ blocks.old.live) }
{
    blocks.set_grid(foot.left.as_slice(), foot.below.as_slice(), joined)
}
