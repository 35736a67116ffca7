//! Block complexes made block by block, and their blocks compared with entries.
use block_sparse::Blocks;
use dense_blocks::Block;
use std::alloc::{AllocError as NoMemory, Global};
use std::process::Abort;

/// A block of one entry: the cells that it goes from and to, and the entry.
pub(crate) type Entry = (u32, u32, u8);

/// Puts a block of n rows and columns.
pub(crate) fn put(
    rt: &impl Abort,
    alloc: Global,
    b: &mut Blocks,
    pair: (u32, u32),
    n: u32,
    entries: &[u8],
) -> Result<(), NoMemory> {
    assert!(rt; Block::fits(n, n, entries.len()));
    let block = Block::of(alloc, n, n, entries)?;
    assert!(rt; b.fits(pair.0, pair.1, &block));
    match b.set(pair.0, pair.1, block) {
        Ok(()) => Ok(()),
        Err((_, fault)) => Err(fault),
    }
}

/// The block complex of these cells, without blocks.
pub(crate) fn cells(
    rt: &impl Abort,
    alloc: Global,
    live: &[(u32, u8, u8)],
) -> Result<Blocks, NoMemory> {
    assert!(rt; Blocks::may_live(live));
    Blocks::of_cells(alloc, live)
}

/// Puts these blocks.
pub(crate) fn put_all(
    rt: &impl Abort,
    alloc: Global,
    b: &mut Blocks,
    entries: &[Entry],
) -> Result<(), NoMemory> {
    for (s, t, entry) in entries {
        put(rt, alloc, b, (*s, *t), 1, &[*entry])?;
    }
    Ok(())
}

/// Whether a block with these entries stands at the pair.
pub(crate) fn has_block(b: &Blocks, s: u32, t: u32, entries: &[u8]) -> bool {
    match b.get(s, t) {
        Some(block) => block.entries.as_slice() == entries,
        None => false,
    }
}

/// Whether these blocks stand.
pub(crate) fn has_all(b: &Blocks, entries: &[Entry]) -> bool {
    for (s, t, entry) in entries {
        if !has_block(b, *s, *t, &[*entry]) {
            return false;
        }
    }
    true
}
