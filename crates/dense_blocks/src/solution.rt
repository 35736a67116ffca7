ghost use Rattle.std.specs.Prelude.{◌≡◌, ◌≢◌, ◌+◌, ◌<◌, length, All, IfOk, OnOk, slice_index};
ghost use Rattle.dense_blocks.specs.Vectors.{AllScalars, IsVector, combination};
ghost use Rattle.dense_blocks.specs.MatrixFacts.{IsMatrix};
ghost use Rattle.dense_blocks.specs.Solutions.{Combines, IsLeading, Solves, lists};
ghost use Rattle.dense_blocks.specs.Elimination.{Eliminates, IsPivot, PullsBack, parts, remainder, rows};

use crate::rows::{first_nonzero, zeros};
use crate::scalars::Scalars;
use std::alloc::{AllocError as NoMemory, Global};

/// A combination of columns, or a functional that tells a vector apart from all of them.
#[derive(Debug, Drop)]
pub enum Solution {
    /// The coefficients of the columns.
    Combination(Vec<u8>),
    /// The coefficients of the coordinates.
    Apart(Vec<u8>),
}

/// What pivots leave of a vector.
#[derive(Drop)]
struct Remainder {
    /// What is left of it.
    row: Vec<u8>,
    /// What was taken off, as coefficients of the rows of the pivots.
    parts: Vec<u8>,
}

/// A column, reduced by the pivots before it to a row that is not zero.
#[derive(Drop)]
struct Pivot {
    /// The index of the column.
    source: usize,
    /// The first place where the row is not 0.
    place: usize,
    /// The inverse of the entry there.
    inverse: u8,
    row: Vec<u8>,
    parts: Vec<u8>,
}

impl Pivot {
    /// The pivot that the column at `source` gives.
    fn of<F: Scalars>(f: &F, source: usize, place: usize, remainder: Remainder) -> Pivot
        requires place { place < length remainder.row.items }
        requires not_zero { slice_index remainder.row.items place ≢ 0 }
        requires scalars { AllScalars (F.ops f.now) remainder.row.items }
        ensures source { result.source ≡ source }
        ensures place { result.place ≡ place }
        ensures inverse { result.inverse ≡ (F.ops f.now).inv (slice_index remainder.row.items place) }
        ensures row { result.row.items ≡ remainder.row.items }
        ensures parts { result.parts.items ≡ remainder.parts.items }
    {
        let Remainder { row, parts } = remainder;
        let inverse = f.inv(row[place]);
        Pivot {
            source,
            place,
            inverse,
            row,
            parts,
        }
    }
}

/// The pivots of columns that have `size` coordinates each.
#[derive(Drop)]
struct Elimination {
    size: usize,
    pivots: Vec<Pivot>,
}

impl Elimination {
    /// The pivots of all columns.
    fn of<F: Scalars>(
        alloc: Global,
        f: &F,
        size: usize,
        columns: &[Vec<u8>],
    ) -> Result<Elimination, NoMemory>
        requires { IsMatrix (F.ops f.now) (length columns.now) size (lists columns.now) }
        ensures size { IfOk result (λ e. e.size ≡ size) }
        ensures eliminates { IfOk result (λ e.
            Eliminates (F.ops f.now) size (lists columns.now) (length columns.now) e.pivots.items) }
    {
        let mut elimination = Elimination {
            size,
            pivots: Vec::new(alloc),
        };
        for source in 0..columns.len() {
            elimination.add_column(alloc, f, columns, source)?;
        }
        Ok(elimination)
    }

    /// Makes a column a pivot, unless the pivots reduce it to zero.
    fn add_column<F: Scalars>(
        &mut self,
        alloc: Global,
        f: &F,
        columns: &[Vec<u8>],
        source: usize,
    ) -> Result<(), NoMemory>
        requires columns { IsMatrix (F.ops f.now) (length columns.now) self.old.size (lists columns.now) }
        requires source { source < length columns.now }
        requires before { Eliminates (F.ops f.now) self.old.size (lists columns.now) source self.old.pivots.items }
        ensures size { self.new.size ≡ self.old.size }
        ensures after { OnOk result
            (Eliminates (F.ops f.now) self.old.size (lists columns.now) (source + 1) self.new.pivots.items) }
    {
        let remainder = self.reduce(alloc, f, columns[source].as_slice())?;
        if let Some(place) = first_nonzero(remainder.row.as_slice()) {
            let pivot = Pivot::of(f, source, place, remainder);
            self.pivots.push(pivot)?;
        }
        Ok(())
    }

    /// The vector, reduced by each pivot in turn.
    fn reduce<F: Scalars>(&self, alloc: Global, f: &F, vector: &[u8]) -> Result<Remainder, NoMemory>
        requires fit { All (IsPivot (F.ops f.now) self.now.size) self.now.pivots.items }
        requires vector { IsVector (F.ops f.now) self.now.size vector.now }
        ensures vector { IfOk result (λ r. IsVector (F.ops f.now) self.now.size r.row.items) }
        ensures row { IfOk result (λ r. r.row.items ≡ remainder (F.ops f.now) self.now.pivots.items vector.now) }
        ensures parts { IfOk result (λ r. r.parts.items ≡ parts (F.ops f.now) self.now.pivots.items vector.now) }
    {
        let mut row = Vec::from_slice(alloc, vector)?;
        let mut parts = Vec::with_capacity(alloc, self.pivots.len())?;
        for pivot in &self.pivots {
            let part = f.mul(row[pivot.place], pivot.inverse);
            f.add_scaled(row.as_mut_slice(), f.neg(part), pivot.row.as_slice());
            parts.push(part)?;
        }
        Ok(Remainder { row, parts })
    }

    /// The coefficients of the columns in what the parts are of the rows.
    fn combination<F: Scalars>(
        &self,
        alloc: Global,
        f: &F,
        columns: &[Vec<u8>],
        mut parts: Vec<u8>,
    ) -> Result<Vec<u8>, NoMemory>
        requires columns { IsMatrix (F.ops f.now) (length columns.now) self.now.size (lists columns.now) }
        requires pivots { Eliminates (F.ops f.now) self.now.size (lists columns.now)
            (length columns.now) self.now.pivots.items }
        requires parts { IsVector (F.ops f.now) (length self.now.pivots.items) parts.items }
        ensures scalars { IfOk result (λ c. IsVector (F.ops f.now) (length columns.now) c.items) }
        ensures same { IfOk result (λ c. combination (F.ops f.now) self.now.size c.items (lists columns.now)
            ≡ combination (F.ops f.now) self.now.size parts.items (rows self.now.pivots.items)) }
        ensures leading { IfOk result (λ c. IsLeading (F.ops f.now) self.now.size (lists columns.now) c.items) }
    {
        let mut coefficients = zeros(alloc, columns.len())?;
        while let Some(last) = parts.pop() {
            let pivot = &self.pivots[parts.len()];
            f.add_scaled(parts.as_mut_slice(), f.neg(last), pivot.parts.as_slice());
            coefficients[pivot.source] = f.add(coefficients[pivot.source], last);
        }
        Ok(coefficients)
    }

    /// The functional that gives `k` times one coordinate of each vector once that is reduced.
    fn functional<F: Scalars>(
        &self,
        alloc: Global,
        f: &F,
        place: usize,
        k: u8,
    ) -> Result<Vec<u8>, NoMemory>
        requires fit { All (IsPivot (F.ops f.now) self.now.size) self.now.pivots.items }
        requires place { place < self.now.size }
        requires scalar { k < (F.ops f.now).order }
        ensures { IfOk result (λ p. PullsBack (F.ops f.now) self.now.size self.now.pivots.items place k p.items) }
    {
        let mut functional = zeros(alloc, self.size)?;
        functional[place] = k;
        for i in (0..self.pivots.len()).rev() {
            let pivot = &self.pivots[i];
            let on_row = f.dot(functional.as_slice(), pivot.row.as_slice());
            let less = f.neg(f.mul(on_row, pivot.inverse));
            functional[pivot.place] = f.add(functional[pivot.place], less);
        }
        Ok(functional)
    }
}

/// Writes `v` as a combination of the columns, or gives a functional that is 0 on each of them and 1 on `v`.
///
/// Each column has as many coordinates as `v`. The combination has the coefficient 0 at each column that is a
/// combination of earlier ones, and the functional at each coordinate that, in the columns and `v`, is one combination
/// of earlier ones. The only error is want of memory.
pub fn solve<F: Scalars>(
    alloc: Global,
    f: &F,
    columns: &[Vec<u8>],
    v: &[u8],
) -> Result<Solution, NoMemory>
    requires sizes { All (λ c. length c.items ≡ length v.now) columns.now }
    requires column_scalars { All (λ c. AllScalars (F.ops f.now) c.items) columns.now }
    requires v_scalars { AllScalars (F.ops f.now) v.now }
    ensures { IfOk result (Solves (F.ops f.now) (lists columns.now) v.now) }
{
    let elimination = Elimination::of(alloc, f, v.len(), columns)?;
    let Remainder { row, parts } = elimination.reduce(alloc, f, v)?;
    match first_nonzero(row.as_slice()) {
        None => Ok(Solution::Combination(elimination.combination(alloc, f, columns, parts)?)),
        Some(place) => Ok(Solution::Apart(elimination.functional(
            alloc,
            f,
            place,
            f.inv(row[place]),
        )?)),
    }
}
