ghost use Rattle.std.specs.Prelude.{◌≡◌, ℕ, ◌∷◌, ◌++◌, [], map, length, codes, OnOk};
ghost use Rattle.std.specs.Fmt.{decimal};
ghost use Rattle.reply_text.specs.Parts.{spaced_words, lines_text, joined_value};
ghost use Rattle.reply_text.specs.Reductions.{reduced_coboundary, projection, inclusion, homotopy};
ghost use Rattle.reply_text.specs.Reductions.{pair_lines, live_lines, coboundary_lines};
ghost use Rattle.reply_text.specs.Reductions.{reduced_counts, map_counts, reduced_lines, map_lines};

use crate::blocks::{count_blocks, put_blocks};
use crate::coordinates::Cell;
use crate::joined::{Direction, Joined};
use crate::words::{put_count, put_named, put_next};
use sheaf_words::{Maps, Reduced};
use std::alloc::{AllocError as NoMemory, Global};

// ---- the matrices

fn reduced_coboundary(r: &Reduced) -> Joined<'_>
    ensures { joined_value result ≡ reduced_coboundary r.now }
{
    Joined {
        matrices: r.d.as_slice(),
        from: r.live.as_slice(),
        to: r.live.as_slice(),
        direction: Direction::Up,
    }
}

fn projection<'a>(r: &'a Reduced, m: &'a Maps) -> Joined<'a>
    ensures { joined_value result ≡ projection r.now m.now }
{
    Joined {
        matrices: m.pi.as_slice(),
        from: m.base.as_slice(),
        to: r.live.as_slice(),
        direction: Direction::Level,
    }
}

fn inclusion<'a>(r: &'a Reduced, m: &'a Maps) -> Joined<'a>
    ensures { joined_value result ≡ inclusion r.now m.now }
{
    Joined {
        matrices: m.iota.as_slice(),
        from: r.live.as_slice(),
        to: m.base.as_slice(),
        direction: Direction::Level,
    }
}

fn homotopy(m: &Maps) -> Joined<'_>
    ensures { joined_value result ≡ homotopy m.now }
{
    Joined {
        matrices: m.h.as_slice(),
        from: m.base.as_slice(),
        to: m.base.as_slice(),
        direction: Direction::Down,
    }
}

// ---- lines

fn put_pair(out: &mut Vec<u8>, x: u32, y: u32) -> Result<(), NoMemory>
    ensures { OnOk result (out.new.items ≡ out.old.items
        ++ lines_text ((codes "pair" ∷ decimal x ∷ decimal y ∷ []) ∷ [])) }
{
    put_named(out, b"pair", x)?;
    put_next(out, y)?;
    out.push(b'\n')?;
    Ok(())
}

fn put_pairs(out: &mut Vec<u8>, pairs: &[(u32, u32)]) -> Result<(), NoMemory>
    ensures { OnOk result (out.new.items ≡ out.old.items ++ lines_text (pair_lines pairs.now)) }
{
    for pair in pairs {
        put_pair(out, pair.0, pair.1)?;
    }
    Ok(())
}

fn put_live(out: &mut Vec<u8>, cell: u32, size: u8) -> Result<(), NoMemory>
    ensures { OnOk result (out.new.items ≡ out.old.items
        ++ lines_text ((codes "live" ∷ decimal cell ∷ decimal size ∷ []) ∷ [])) }
{
    put_named(out, b"live", cell)?;
    put_next(out, u32::from(size))?;
    out.push(b'\n')?;
    Ok(())
}

fn put_all_live(out: &mut Vec<u8>, live: &[Cell]) -> Result<(), NoMemory>
    ensures { OnOk result (out.new.items ≡ out.old.items ++ lines_text (live_lines live.now)) }
{
    for cell in live {
        put_live(out, cell.0, cell.2)?;
    }
    Ok(())
}

// ---- what is written of a reply

/// Appends how many pairs, cells that are left and blocks there are.
pub(crate) fn put_reduced_counts(
    alloc: Global,
    out: &mut Vec<u8>,
    r: &Reduced,
) -> Result<(), NoMemory>
    ensures { OnOk result (out.new.items ≡ out.old.items ++ spaced_words (map decimal (reduced_counts r.now))) }
{
    let blocks = count_blocks(alloc, reduced_coboundary(r))?;
    put_count(out, r.pairs.as_slice().len())?;
    put_count(out, r.live.as_slice().len())?;
    put_count(out, blocks)
}

/// Appends how many blocks each of the three maps has.
pub(crate) fn put_map_counts(
    alloc: Global,
    out: &mut Vec<u8>,
    r: &Reduced,
    m: &Maps,
) -> Result<(), NoMemory>
    ensures { OnOk result (out.new.items ≡ out.old.items ++ spaced_words (map decimal (map_counts r.now m.now))) }
{
    let projections = count_blocks(alloc, projection(r, m))?;
    let inclusions = count_blocks(alloc, inclusion(r, m))?;
    let homotopies = count_blocks(alloc, homotopy(m))?;
    put_count(out, projections)?;
    put_count(out, inclusions)?;
    put_count(out, homotopies)
}

/// Appends the lines of the pairs, of the cells that are left and of the blocks.
pub(crate) fn put_reduced(alloc: Global, out: &mut Vec<u8>, r: &Reduced) -> Result<(), NoMemory>
    ensures { OnOk result (out.new.items ≡ out.old.items ++ lines_text (reduced_lines r.now)) }
{
    put_pairs(out, r.pairs.as_slice())?;
    put_all_live(out, r.live.as_slice())?;
    put_blocks(alloc, out, b"block", reduced_coboundary(r))
}

/// Appends the lines of the blocks of the three maps.
pub(crate) fn put_maps(
    alloc: Global,
    out: &mut Vec<u8>,
    r: &Reduced,
    m: &Maps,
) -> Result<(), NoMemory>
    ensures { OnOk result (out.new.items ≡ out.old.items ++ lines_text (map_lines r.now m.now)) }
{
    put_blocks(alloc, out, b"pi", projection(r, m))?;
    put_blocks(alloc, out, b"iota", inclusion(r, m))?;
    put_blocks(alloc, out, b"h", homotopy(m))
}
