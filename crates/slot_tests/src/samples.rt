//! Block complexes made block by block, and their slots.
use block_sparse::Blocks;
use dense_blocks::Block;
use field_table::Field;
use pair_commit::Slot;
use std::alloc::{AllocError as NoMemory, Global};
use std::process::Abort;

/// A block of one entry: the cells that it goes from and to, and the entry.
pub(crate) type Entry = (u32, u32, u8);

/// The circle: the vertices 0, 1 and 2, and the edges 3, 4 and 5.
const CIRCLE: [(u32, u8, u8); 6] = [
    (0, 0, 1),
    (1, 0, 1),
    (2, 0, 1),
    (3, 1, 1),
    (4, 1, 1),
    (5, 1, 1),
];

/// Puts a square block of `n` rows.
fn put(
    rt: &impl Abort,
    alloc: Global,
    b: &mut Blocks,
    pair: (u32, u32),
    n: u32,
    entries: &[u8],
) -> Result<(), NoMemory> {
    assert!(rt; Block::fits(n, n, entries.len()));
    let block = Block::of(alloc, n, n, entries)?;
    assert!(rt; b.fits(pair.0, pair.1, &block));
    match b.set(pair.0, pair.1, block) {
        Ok(()) => Ok(()),
        Err((_, fault)) => Err(fault),
    }
}

/// Puts these blocks.
pub(crate) fn put_all(
    rt: &impl Abort,
    alloc: Global,
    b: &mut Blocks,
    entries: &[Entry],
) -> Result<(), NoMemory> {
    for (s, t, entry) in entries {
        put(rt, alloc, b, (*s, *t), 1, &[*entry])?;
    }
    Ok(())
}

/// The slot of a block complex over the field, to which nothing is carried.
pub(crate) fn start(
    rt: &impl Abort,
    alloc: Global,
    f: Field,
    b: Blocks,
) -> Result<Slot<Field>, NoMemory> {
    assert!(rt; b.is_over(&f) && b.has_no_flags());
    Slot::start(alloc, f, b, Vec::new(alloc))
}

/// The slot of the circle with these blocks.
pub(crate) fn circle(
    rt: &impl Abort,
    alloc: Global,
    f: Field,
    entries: &[Entry],
) -> Result<Slot<Field>, NoMemory> {
    assert!(rt; Blocks::may_live(&CIRCLE));
    let mut b = Blocks::of_cells(alloc, &CIRCLE)?;
    put_all(rt, alloc, &mut b, entries)?;
    start(rt, alloc, f, b)
}

/// Two cells of two coordinates, with this block from 0 to 1.
pub(crate) fn arrow(rt: &impl Abort, alloc: Global, entries: &[u8]) -> Result<Blocks, NoMemory> {
    let cells = [(0, 0, 2), (1, 1, 2)];
    assert!(rt; Blocks::may_live(&cells));
    let mut b = Blocks::of_cells(alloc, &cells)?;
    put(rt, alloc, &mut b, (0, 1), 2, entries)?;
    Ok(b)
}
