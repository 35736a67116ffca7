ghost use Rattle.std.specs.Prelude.{◌≡◌, ◌==◌, ◌+◌, ℕ, List, [], ◌++◌, map, take, drop, length, IfOk, OnOk};
ghost use Rattle.std.specs.Fmt.{decimal};
ghost use Rattle.std.specs.List.{list_all, flat_map};
ghost use Rattle.reply_text.specs.JoinedMatrices.{entries_between, nonzero_line, block_line, block_lines};
ghost use Rattle.reply_text.specs.Parts.{spaced_words, lines_text, joined_value, row_between, entries_words};

use crate::coordinates::{Coordinates, all_coordinates};
use crate::joined::Joined;
use crate::sources::sources;
use crate::words::{put_entries, put_named, put_next};
use dense_blocks::Block;
use std::alloc::{AllocError as NoMemory, Global};

// ---- one block: s is the cell that it goes from, and t the one that it goes to

/// The entries from `first` on, so many of them, or as many as there are.
fn part(entries: &[u8], first: u32, size: u8) -> &[u8]
    ensures { result.now ≡ take size (drop first entries.now) }
{
    let start = (first as usize).min(entries.len());
    let end = (start + size as usize).min(entries.len());
    &entries[start..end]
}

/// The entries of its row `i`; none where the matrix does not reach so far.
fn row_between(block: &Block, s: Coordinates, t: Coordinates, i: u32) -> &[u8]
    ensures { result.now ≡ row_between block.now s t i }
{
    let rows = block.rows.saturating_sub(t.first);
    if i >= rows {
        return &[];
    }
    part(block.row(t.first + i), s.first, s.size)
}

pub(crate) fn are_zero(entries: &[u8]) -> bool
    ensures { result ≡ list_all (λ e. e == 0) entries.now }
{
    entries.iter().all(|e| *e == 0)
}

/// Whether all its entries are zero.
fn is_zero_between(block: &Block, s: Coordinates, t: Coordinates) -> bool
    ensures { result ≡ list_all (λ e. e == 0) (entries_between block.now s t) }
{
    for i in 0..u32::from(t.size) {
        if !are_zero(row_between(block, s, t, i)) {
            return false;
        }
    }
    true
}

/// Appends all its entries, row after row.
fn put_between(
    out: &mut Vec<u8>,
    block: &Block,
    s: Coordinates,
    t: Coordinates,
) -> Result<(), NoMemory>
    ensures { OnOk result (out.new.items ≡ out.old.items ++ entries_words (entries_between block.now s t)) }
{
    for i in 0..u32::from(t.size) {
        put_entries(out, row_between(block, s, t, i))?;
    }
    Ok(())
}

/// Appends its line, unless it is zero.
fn put_nonzero(
    out: &mut Vec<u8>,
    word: &[u8],
    block: &Block,
    s: Coordinates,
    t: Coordinates,
) -> Result<(), NoMemory>
    ensures { OnOk result (out.new.items ≡ out.old.items
        ++ lines_text (nonzero_line word.now s t (entries_between block.now s t))) }
{
    if is_zero_between(block, s, t) {
        return Ok(());
    }
    put_named(out, word, s.cell)?;
    put_next(out, t.cell)?;
    put_between(out, block, s, t)?;
    out.push(b'\n')?;
    Ok(())
}

/// How many lines it has: one, or none if it is zero.
fn nonzero_count(block: &Block, s: Coordinates, t: Coordinates) -> usize
    ensures { (word : List ℕ) → result ≡ length (nonzero_line word s t (entries_between block.now s t)) }
{
    usize::from(!is_zero_between(block, s, t))
}

// ---- the blocks of joined matrices

/// Appends the line of the block from s to t, if there is one and it is not zero.
fn put_block(
    out: &mut Vec<u8>,
    word: &[u8],
    m: Joined<'_>,
    s: Coordinates,
    t: Coordinates,
) -> Result<(), NoMemory>
    ensures { OnOk result (out.new.items ≡ out.old.items
        ++ lines_text (block_line word.now (joined_value m.entry) s t)) }
{
    match m.matrix_between(s, t) {
        Some(block) => put_nonzero(out, word, block, s, t),
        None => Ok(()),
    }
}

fn block_count(m: Joined<'_>, s: Coordinates, t: Coordinates) -> usize
    ensures { (word : List ℕ) → result ≡ length (block_line word (joined_value m.entry) s t) }
{
    match m.matrix_between(s, t) {
        Some(block) => nonzero_count(block, s, t),
        None => 0,
    }
}

/// Appends the lines of the blocks from s.
fn put_blocks_from(
    out: &mut Vec<u8>,
    word: &[u8],
    m: Joined<'_>,
    s: Coordinates,
    to: &[Coordinates],
) -> Result<(), NoMemory>
    ensures { OnOk result (out.new.items ≡ out.old.items
        ++ lines_text (flat_map (λ t. block_line word.now (joined_value m.entry) s t) to.now)) }
{
    for t in to {
        put_block(out, word, m, s, *t)?;
    }
    Ok(())
}

/// The sum. A sum that is no number counts more lines than fit in any memory.
fn sum(a: usize, b: usize) -> Result<usize, NoMemory>
    ensures { IfOk result (λ n. n ≡ a + b) }
{
    a.checked_add(b).ok_or(NoMemory)
}

/// How many lines those are.
fn count_from(m: Joined<'_>, s: Coordinates, to: &[Coordinates]) -> Result<usize, NoMemory>
    ensures { (word : List ℕ) → IfOk result (λ n. n ≡ length
        (flat_map (λ t. block_line word (joined_value m.entry) s t) to.now)) }
{
    let mut count = 0usize;
    for t in to {
        count = sum(count, block_count(m, s, *t))?;
    }
    Ok(count)
}

/// Appends the lines of all blocks from these to those.
fn put_blocks_between(
    out: &mut Vec<u8>,
    word: &[u8],
    m: Joined<'_>,
    from: &[Coordinates],
    to: &[Coordinates],
) -> Result<(), NoMemory>
    ensures { OnOk result (out.new.items ≡ out.old.items
        ++ lines_text (flat_map (λ s. flat_map (λ t. block_line word.now (joined_value m.entry) s t) to.now)
        from.now)) }
{
    for s in from {
        put_blocks_from(out, word, m, *s, to)?;
    }
    Ok(())
}

/// How many lines those are.
fn count_between(m: Joined<'_>, from: &[Coordinates], to: &[Coordinates]) -> Result<usize, NoMemory>
    ensures { (word : List ℕ) → IfOk result (λ n. n ≡ length
        (flat_map (λ s. flat_map (λ t. block_line word (joined_value m.entry) s t) to.now) from.now)) }
{
    let mut count = 0usize;
    for s in from {
        count = sum(count, count_from(m, *s, to)?)?;
    }
    Ok(count)
}

/// Appends the lines of the nonzero blocks, in order of the cell that each goes from, and then of the cell that it goes
/// to.
pub(crate) fn put_blocks(
    alloc: Global,
    out: &mut Vec<u8>,
    word: &[u8],
    m: Joined<'_>,
) -> Result<(), NoMemory>
    ensures { OnOk result (out.new.items ≡ out.old.items ++ lines_text (block_lines word.now (joined_value m.entry))) }
{
    let all = all_coordinates(alloc, m.from)?;
    let from = sources(alloc, m, all.as_slice())?;
    let to = all_coordinates(alloc, m.to)?;
    put_blocks_between(out, word, m, from.as_slice(), to.as_slice())
}

/// How many lines those are.
pub(crate) fn count_blocks(alloc: Global, m: Joined<'_>) -> Result<usize, NoMemory>
    ensures { (word : List ℕ) → IfOk result (λ n. n ≡ length (block_lines word (joined_value m.entry))) }
{
    let all = all_coordinates(alloc, m.from)?;
    let from = sources(alloc, m, all.as_slice())?;
    let to = all_coordinates(alloc, m.to)?;
    count_between(m, from.as_slice(), to.as_slice())
}
