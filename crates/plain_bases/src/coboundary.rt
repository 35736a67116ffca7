ghost use Rattle.std.specs.Prelude.{◌≡◌, ◌==◌, ℕ, ◌<◌, ◌≤◌, List, [], length, map, if◌then◌else◌};
ghost use Rattle.std.specs.Prelude.{All, Any, IfOk, OnOk, IfSome, IfNone};
ghost use Rattle.dense_blocks.specs.Vectors.{AllScalars, IsVector, plus};
ghost use Rattle.dense_blocks.specs.Matrices.{image_of};
ghost use Rattle.dense_blocks.specs.Blocks.{matrix_of};
ghost use Rattle.cochain_vec.specs.Complexes.{total_size, value_at};
ghost use Rattle.plain_bases.specs.View.{arrow_of, FitsCells};
ghost use Rattle.plain_bases.specs.Parts.{part_at, image};

use crate::complex::Arrow;
use cochain_vec::Cell;
use dense_blocks::{Scalars, add_scaled, apply, zeros};
use std::alloc::{AllocError as NoMemory, Global};

/// The coordinates at the cell `s`, if it is one of these.
fn value_of<'a>(cells: &[Cell], z: &'a [u8], s: u32) -> Option<&'a [u8]>
    requires { length z.now ≡ total_size cells.now }
    ensures found { IfSome result (λ v. v.now ≡ value_at cells.now z.now s) }
    ensures size { IfSome result (λ v. Any (λ c. (s ≡ c.cell) × (length v.now ≡ c.size)) cells.now) }
    ensures absent { IfNone result (value_at cells.now z.now s ≡ []) }
{
    let mut rest = z;
    for cell in cells {
        let size = cell.size as usize;
        if cell.cell == s {
            return Some(&rest[..size]);
        }
        rest = &rest[size..];
    }
    None
}

/// What the arrow makes of the value of `z` at the cell that it comes from.
fn arriving<F: Scalars>(
    alloc: Global,
    f: &F,
    source: &[Cell],
    z: &[u8],
    arrow: &Arrow,
) -> Result<Vec<u8>, NoMemory>
    requires size { length z.now ≡ total_size source.now }
    requires z_scalars { AllScalars (F.ops f.now) z.now }
    requires fits { FitsCells (F.ops f.now) source.now arrow.now }
    ensures image { IfOk result (λ w. w.items
        ≡ image_of (F.ops f.now) (matrix_of arrow.now.block) (value_at source.now z.now arrow.now.from)) }
    ensures vector { IfOk result (λ w. IsVector (F.ops f.now) arrow.now.block.rows w.items) }
{
    match value_of(source, z, arrow.from) {
        Some(value) => Ok(apply(alloc, f, &arrow.block, value)?),
        None => Ok(zeros(alloc, arrow.block.rows as usize)?),
    }
}

/// Adds what the arrow brings to the cell `t`, if it goes there.
fn add_arrow<F: Scalars>(
    alloc: Global,
    f: &F,
    source: &[Cell],
    z: &[u8],
    arrow: &Arrow,
    t: Cell,
    sum: &mut [u8],
) -> Result<(), NoMemory>
    requires size { length z.now ≡ total_size source.now }
    requires z_scalars { AllScalars (F.ops f.now) z.now }
    requires fits { FitsCells (F.ops f.now) source.now arrow.now }
    requires rows { arrow.now.to ≡ t.cell → arrow.now.block.rows ≡ t.size }
    requires sum { IsVector (F.ops f.now) t.size sum.old }
    ensures sum { OnOk result (sum.new ≡ (if arrow.now.to == t.cell
        then plus (F.ops f.now) sum.old
        (image_of (F.ops f.now) (matrix_of arrow.now.block) (value_at source.now z.now arrow.now.from))
        else sum.old)) }
    ensures vector { OnOk result (IsVector (F.ops f.now) t.size sum.new) }
{
    if arrow.to == t.cell {
        let image = arriving(alloc, f, source, z, arrow)?;
        add_scaled(f, sum, 1, &image);
    }
    Ok(())
}

/// The part at the cell `t` of the coboundary of `z`.
fn part_at<F: Scalars>(
    alloc: Global,
    f: &F,
    arrows: &[Arrow],
    source: &[Cell],
    z: &[u8],
    t: Cell,
) -> Result<Vec<u8>, NoMemory>
    requires size { length z.now ≡ total_size source.now }
    requires z_scalars { AllScalars (F.ops f.now) z.now }
    requires fits { All (FitsCells (F.ops f.now) source.now) arrows.now }
    requires rows { All (λ a. a.to ≡ t.cell → a.block.rows ≡ t.size) arrows.now }
    ensures part { IfOk result (λ part. part.items ≡ part_at (F.ops f.now) arrows.now source.now z.now t) }
    ensures vector { IfOk result (λ part. IsVector (F.ops f.now) t.size part.items) }
{
    let mut sum = zeros(alloc, t.size as usize)?;
    for arrow in arrows {
        add_arrow(alloc, f, source, z, arrow, t, &mut sum)?;
    }
    Ok(sum)
}

/// The coboundary of `z`, which has the coordinates of the source cells, at the target cells.
pub fn coboundary<F: Scalars>(
    alloc: Global,
    f: &F,
    arrows: &[Arrow],
    source: &[Cell],
    target: &[Cell],
    z: &[u8],
) -> Result<Vec<u8>, NoMemory>
    requires size { length z.now ≡ total_size source.now }
    requires z_scalars { AllScalars (F.ops f.now) z.now }
    requires source_fits { All (FitsCells (F.ops f.now) source.now) arrows.now }
    requires target_fits { All (FitsCells (F.ops f.now) target.now) arrows.now }
    ensures image { IfOk result (λ w. w.items ≡ image (F.ops f.now) arrows.now source.now target.now z.now) }
    ensures vector { IfOk result (λ w. IsVector (F.ops f.now) (total_size target.now) w.items) }
{
    let mut all = Vec::new(alloc);
    for t in target {
        let part = part_at(alloc, f, arrows, source, z, *t)?;
        all.extend_from_slice(&part)?;
    }
    Ok(all)
}
