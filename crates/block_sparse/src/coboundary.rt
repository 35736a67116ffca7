ghost use Rattle.std.specs.Prelude.{◌≡◌, ◌↔◌, ◌+◌, ◌≤◌, ◌∷◌, ◌++◌, ℕ, true, [], length, take, drop, All, IfOk, OnOk};
ghost use Rattle.std.specs.Prelude.{IsTrue};
ghost use Rattle.std.specs.List.{flat_map};
ghost use Rattle.dense_blocks.specs.Vectors.{AllScalars, IsVector, plus};
ghost use Rattle.dense_blocks.specs.Matrices.{image_of};
ghost use Rattle.rising_lists.specs.Rising.{has};
ghost use Rattle.cochain_vec.specs.Complexes.{IsCochain, cells_of, coboundary, coordinates, sum_into, total_size};
ghost use Rattle.cochain_vec.specs.Complexes.{value_at};
ghost use Rattle.block_complexes.specs.BlockComplexes.{cells, degree_of, size_of, IsBlockComplex};
ghost use Rattle.block_sparse.specs.StoredBlocks.{complex_in, matrix, AreLive};
ghost use Rattle.block_complexes.specs.Cochains.{complex_of, of_degree};
ghost use Rattle.block_sparse.specs.Cochains.{AreStarts};

use crate::blocks::Blocks;
use crate::live_cells::find;
use dense_blocks::{Scalars, add_scaled, all_scalars, apply, zeros};
use std::alloc::{AllocError as NoMemory, Global};

/// Where the coordinates of each live cell begin in a cochain of one degree.
#[derive(Debug, Drop)]
struct Starts {
    /// The degree of the cochain.
    degree: u8,
    /// For each live cell, in order, how many coordinates the cells of that degree before it have.
    places: Vec<u32>,
}

impl Blocks {
    /// How many coordinates a cochain of degree `k` has: the sizes of the live cells of that degree, summed.
    pub fn coordinates(&self, k: u8) -> usize
        ensures { result ≡ coordinates (complex_of (complex_in self.now)) k }
    {
        total_of(k, self.live()) as usize
    }

    /// Whether the entries of all blocks are scalars of the field.
    pub fn is_over<F: Scalars>(&self, f: &F) -> bool
        ensures { IsTrue result ↔ IsBlockComplex (F.ops f.now) (complex_in self.now) }
    {
        self.rows_are_over(f, self.live())
    }

    /// The coboundary of a cochain of degree `k`: its coordinates at the live cells of degree `k + 1`, in order.
    ///
    /// At each cell it is the sum, over the nonzero blocks that go there, of the block times the value at the cell that
    /// it comes from. The blocks have scalars of the field. Takes one step for each live cell, and for each nonzero
    /// block a look-up and its product. Fails only where memory does.
    pub fn apply<F: Scalars>(
        &self,
        alloc: Global,
        f: &F,
        k: u8,
        z: &[u8],
    ) -> Result<Vec<u8>, NoMemory>
        requires scalars { IsBlockComplex (F.ops f.now) (complex_in self.now) }
        requires cochain { IsCochain (F.ops f.now) (complex_of (complex_in self.now)) k z.now }
        ensures coboundary { IfOk result
            (λ w. w.items ≡ coboundary (F.ops f.now) (complex_of (complex_in self.now)) k z.now) }
        ensures cochain { IfOk result
            (λ w. IsCochain (F.ops f.now) (complex_of (complex_in self.now)) (k + 1) w.items) }
    {
        let live = self.live();
        let starts = starts_of(alloc, live, k)?;
        let mut all = Vec::new(alloc);
        for cell in live {
            self.add_part(alloc, f, &starts, z, *cell, &mut all)?;
        }
        Ok(all)
    }

    /// Adds the part of the coboundary at a live cell at the end, if the cell is one degree above the cochain.
    fn add_part<F: Scalars>(
        &self,
        alloc: Global,
        f: &F,
        starts: &Starts,
        z: &[u8],
        cell: (u32, u8, u8),
        all: &mut Vec<u8>,
    ) -> Result<(), NoMemory>
        requires scalars { IsBlockComplex (F.ops f.now) (complex_in self.now) }
        requires cochain { IsCochain (F.ops f.now) (complex_of (complex_in self.now)) starts.now.degree z.now }
        requires starts { AreStarts starts.now.degree self.now.live starts.now.places.items }
        requires live { has cell.0 (cells self.now.live) ≡ true }
        requires degree { degree_of self.now.live cell.0 ≡ cell.1 }
        requires size { size_of self.now.live cell.0 ≡ cell.2 }
        ensures { OnOk result (all.new.items ≡ all.old.items ++ flat_map
            (λ t. sum_into (F.ops f.now) (complex_of (complex_in self.now)).arrows
            (value_at (cells_of (complex_of (complex_in self.now)) starts.now.degree) z.now) t.size t.cell)
            (of_degree (starts.now.degree + 1) (cell ∷ []))) }
    {
        if u32::from(cell.1) == u32::from(starts.degree) + 1 {
            let part = self.part_at(alloc, f, starts, z, cell.0)?;
            all.extend_from_slice(&part)?;
        }
        Ok(())
    }

    /// The part of the coboundary at the live cell `t`, which is one degree above the cochain.
    fn part_at<F: Scalars>(
        &self,
        alloc: Global,
        f: &F,
        starts: &Starts,
        z: &[u8],
        t: u32,
    ) -> Result<Vec<u8>, NoMemory>
        requires scalars { IsBlockComplex (F.ops f.now) (complex_in self.now) }
        requires cochain { IsCochain (F.ops f.now) (complex_of (complex_in self.now)) starts.now.degree z.now }
        requires starts { AreStarts starts.now.degree self.now.live starts.now.places.items }
        requires live { has t (cells self.now.live) ≡ true }
        requires degree { degree_of self.now.live t ≡ starts.now.degree + 1 }
        ensures { IfOk result (λ part. part.items ≡ sum_into (F.ops f.now) (complex_of (complex_in self.now)).arrows
            (value_at (cells_of (complex_of (complex_in self.now)) starts.now.degree) z.now)
            (size_of self.now.live t) t) }
    {
        // Its clauses say what the row has.
        let _live = self.live();
        let size = self.cell_and_size(t).1;
        let mut sum = zeros(alloc, size as usize)?;
        for s in self.row(t) {
            self.add_image(alloc, f, starts, z, *s, t, &mut sum)?;
        }
        Ok(sum)
    }

    /// Adds what the block from `s` to `t` makes of the value at `s`; adds nothing where no block stands.
    fn add_image<F: Scalars>(
        &self,
        alloc: Global,
        f: &F,
        starts: &Starts,
        z: &[u8],
        s: u32,
        t: u32,
        sum: &mut Vec<u8>,
    ) -> Result<(), NoMemory>
        requires scalars { IsBlockComplex (F.ops f.now) (complex_in self.now) }
        requires cochain { IsCochain (F.ops f.now) (complex_of (complex_in self.now)) starts.now.degree z.now }
        requires starts { AreStarts starts.now.degree self.now.live starts.now.places.items }
        requires degree { degree_of self.now.live t ≡ starts.now.degree + 1 }
        requires sum { IsVector (F.ops f.now) (size_of self.now.live t) sum.old.items }
        ensures sum { OnOk result (sum.new.items ≡ plus (F.ops f.now) sum.old.items
            (image_of (F.ops f.now) (matrix self.now s t)
            (value_at (cells_of (complex_of (complex_in self.now)) starts.now.degree) z.now s))) }
        ensures vector { OnOk result (IsVector (F.ops f.now) (size_of self.now.live t) sum.new.items) }
    {
        if let Some(block) = self.get(s, t) {
            let image = apply(alloc, f, block, value_of(self.live(), starts, z, s))?;
            add_scaled(f, sum, 1, &image);
        }
        Ok(())
    }

    /// Whether the blocks that go to these cells have scalars of the field.
    fn rows_are_over<F: Scalars>(&self, f: &F, to: &[(u32, u8, u8)]) -> bool
        ensures { IsTrue result ↔ All (λ l. (s : ℕ) → All (AllScalars (F.ops f.now)) (matrix self.now s l.0)) to.now }
    {
        to.iter().all(|l| self.row_is_over(f, l.0))
    }

    /// Whether the blocks that go to `t` have scalars of the field.
    fn row_is_over<F: Scalars>(&self, f: &F, t: u32) -> bool
        ensures { IsTrue result ↔ ((s : ℕ) → All (AllScalars (F.ops f.now)) (matrix self.now s t)) }
    {
        self.blocks_are_over(f, self.row(t), t)
    }

    /// Whether the blocks from these cells to `t` have scalars of the field.
    fn blocks_are_over<F: Scalars>(&self, f: &F, from: &[u32], t: u32) -> bool
        ensures { IsTrue result ↔ All (λ s. All (AllScalars (F.ops f.now)) (matrix self.now s t)) from.now }
    {
        from.iter().all(|s| self.block_is_over(f, *s, t))
    }

    /// Whether the block from `s` to `t`, if one stands, has scalars of the field.
    fn block_is_over<F: Scalars>(&self, f: &F, s: u32, t: u32) -> bool
        ensures { IsTrue result ↔ All (AllScalars (F.ops f.now)) (matrix self.now s t) }
    {
        match self.get(s, t) {
            Some(block) => all_scalars(f, block.entries.as_slice()),
            None => true,
        }
    }
}

/// Where the coordinates of the live cells begin in a cochain of this degree.
fn starts_of(alloc: Global, live: &[(u32, u8, u8)], degree: u8) -> Result<Starts, NoMemory>
    requires { AreLive live.now }
    ensures degree { IfOk result (λ s. s.degree ≡ degree) }
    ensures starts { IfOk result (λ s. AreStarts degree live.now s.places.items) }
{
    let mut places = Vec::with_capacity(alloc, live.len())?;
    let mut start = 0;
    for cell in live {
        places.push(start)?;
        start += size_at(degree, *cell);
    }
    Ok(Starts { degree, places })
}

/// How many coordinates a cochain of this degree has.
fn total_of(degree: u8, live: &[(u32, u8, u8)]) -> u32
    requires { AreLive live.now }
    ensures { result ≡ total_size (of_degree degree live.now) }
{
    let mut total = 0;
    for cell in live {
        total += size_at(degree, *cell);
    }
    total
}

/// How many coordinates a cochain of this degree has at the cell.
fn size_at(degree: u8, cell: (u32, u8, u8)) -> u32
    ensures { result ≡ total_size (of_degree degree (cell ∷ [])) }
{
    if cell.1 == degree {
        u32::from(cell.2)
    } else {
        0
    }
}

/// The value of a cochain at a live cell of its degree.
fn value_of<'a>(live: &[(u32, u8, u8)], starts: &Starts, z: &'a [u8], s: u32) -> &'a [u8]
    requires live_cells { AreLive live.now }
    requires starts { AreStarts starts.now.degree live.now starts.now.places.items }
    requires size { length z.now ≡ total_size (of_degree starts.now.degree live.now) }
    requires live { has s (cells live.now) ≡ true }
    requires degree { degree_of live.now s ≡ starts.now.degree }
    ensures value { result.now ≡ value_at (of_degree starts.now.degree live.now) z.now s }
    ensures size { length result.now ≡ size_of live.now s }
{
    let at = find(live, s).unwrap();
    part(z, starts.places[at], live[at].2)
}

/// So many coordinates from a place on.
fn part(z: &[u8], start: u32, size: u8) -> &[u8]
    requires { start + size ≤ length z.now }
    ensures part { result.now ≡ take size (drop start z.now) }
    ensures size { length result.now ≡ size }
{
    let start = start as usize;
    &z[start..start + size as usize]
}
