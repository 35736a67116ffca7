ghost use Rattle.std.specs.Prelude.{◌≡◌, ◌<◌, ◌≤◌, length, All, IfOk};
ghost use Rattle.dense_blocks.specs.Vectors.{AllScalars};
ghost use Rattle.dense_blocks.specs.Two.{two};

use crate::report::{Failure, Outcome, Span, checksum, timed};
use dense_blocks::{Block, Inverse, Scalars, Solution, Two, invert, product, solve};
use std::alloc::{AllocError as NoMemory, Global};
use std::cmp::Ordering;
use std::rt::Clock;
use std::time::Instant;

/// The side of the diagonal where a triangle has scalars of the sequence; none for a block that is no triangle.
type Side = Option<Ordering>;

/// Scalars of the field of two elements that look like chance, and are the same in every run.
#[derive(Drop)]
struct Sequence {
    state: u64,
}

impl Sequence {
    /// The next scalar: a high bit of a linear congruential sequence, since the low ones soon repeat.
    fn scalar(&mut self) -> u8
        ensures { result < two.order }
    {
        let product = self.state.wrapping_mul(6_364_136_223_846_793_005);
        self.state = product.wrapping_add(1_442_695_040_888_963_407);
        (self.state >> 63) as u8
    }

    /// The entry in row `i` and column `j` of a block. On the diagonal of a triangle are ones, and beyond it zeros.
    fn entry(&mut self, side: Side, i: usize, j: usize) -> u8
        ensures { result < two.order }
    {
        match side {
            Some(side) if j.cmp(&i) != side => u8::from(i == j),
            _ => self.scalar(),
        }
    }

    /// A block of m rows and n columns.
    fn block(&mut self, alloc: Global, m: u32, n: u32, side: Side) -> Result<Block, NoMemory>
        requires rows { m ≤ 1024 }
        requires cols { n ≤ 1024 }
        ensures rows { IfOk result (λ b. b.rows ≡ m) }
        ensures cols { IfOk result (λ b. b.cols ≡ n) }
        ensures scalars { IfOk result (λ b. AllScalars two b.entries) }
    {
        // Without columns there is no entry, and nothing is divided by 0.
        let width = n.max(1) as usize;
        let mut entries = Vec::new(alloc);
        for place in 0..m as usize * n as usize {
            entries.push(self.entry(side, place / width, place % width))?;
        }
        Block::of(alloc, m, n, &entries)
    }
}

pub fn time_product<R: Clock>(rt: &R, alloc: Global, n: u32) -> Outcome
    requires { n ≤ 1024 }
{
    let mut sequence = Sequence { state: 1 };
    let a = sequence.block(alloc, n, n, None)?;
    let b = sequence.block(alloc, n, n, None)?;
    let start = Instant::now(rt).ok();
    let c = product(alloc, &Two, &a, &b)?;
    let end = Instant::now(rt).ok();
    report(alloc, (start, end), 2 * n * n * n, c.entries.as_slice())
}

pub fn time_solve<R: Clock>(rt: &R, alloc: Global, n: u32) -> Outcome
    requires { n ≤ 1024 }
{
    let columns = columns(alloc, n)?;
    let sum = sum_of(alloc, n as usize, &columns)?;
    let start = Instant::now(rt).ok();
    let solution = solve(alloc, &Two, &columns, &sum)?;
    let end = Instant::now(rt).ok();
    match solution {
        Solution::Combination(c) => report(alloc, (start, end), n * n * (n + 1), &c),
        Solution::Apart(_) => Err(Failure::Made),
    }
}

pub fn time_invert<R: Clock>(rt: &R, alloc: Global, n: u32) -> Outcome
    requires { n ≤ 1024 }
{
    let a = invertible(alloc, n)?;
    let start = Instant::now(rt).ok();
    let inverse = invert(alloc, &Two, &a)?;
    let end = Instant::now(rt).ok();
    match inverse {
        Inverse::Both(b) => report(alloc, (start, end), 2 * n * n * n, b.entries.as_slice()),
        Inverse::Singular(_) => Err(Failure::Made),
    }
}

/// The report of a call whose result has these scalars.
fn report(alloc: Global, span: Span, count: u32, scalars: &[u8]) -> Outcome {
    timed(alloc, span, count, "field operations", checksum(0, scalars))
}

/// A block that has an inverse: a product of two triangles.
fn invertible(alloc: Global, n: u32) -> Result<Block, NoMemory>
    requires { n ≤ 1024 }
    ensures square { IfOk result (λ b. b.rows ≡ b.cols) }
    ensures scalars { IfOk result (λ b. AllScalars two b.entries) }
{
    let mut sequence = Sequence { state: 1 };
    let lower = sequence.block(alloc, n, n, Some(Ordering::Less))?;
    let upper = sequence.block(alloc, n, n, Some(Ordering::Greater))?;
    product(alloc, &Two, &lower, &upper)
}

fn columns(alloc: Global, n: u32) -> Result<Vec<Vec<u8>>, NoMemory>
    requires { n ≤ 1024 }
    ensures sizes { IfOk result (λ cs. All (λ c. length c.items ≡ n) cs.items) }
    ensures scalars { IfOk result (λ cs. All (λ c. AllScalars two c.items) cs.items) }
{
    let mut sequence = Sequence { state: 1 };
    let mut columns = Vec::new(alloc);
    for _column in 0..n {
        let column = sequence.block(alloc, 1, n, None)?;
        columns.push(Vec::from_slice(alloc, column.entries.as_slice())?)?;
    }
    Ok(columns)
}

fn sum_of(alloc: Global, size: usize, columns: &[Vec<u8>]) -> Result<Vec<u8>, NoMemory>
    requires sizes { All (λ c. length c.items ≡ size) columns.now }
    requires scalars { All (λ c. AllScalars two c.items) columns.now }
    ensures size { IfOk result (λ v. length v.items ≡ size) }
    ensures scalars { IfOk result (λ v. AllScalars two v.items) }
{
    let mut sum = vec![in alloc; 0; size]?;
    for column in columns {
        Two.add_scaled(sum.as_mut_slice(), 1, column.as_slice());
    }
    Ok(sum)
}
