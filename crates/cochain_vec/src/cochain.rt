ghost use Rattle.std.specs.Prelude.{◌≡◌, ◌↔◌, ◌<◌, vec_len, All, IsTrue, IfOk};
ghost use Rattle.dense_blocks.specs.Vectors.{AllScalars, plus, multiple};

use dense_blocks::{Scalars, add_scaled};
use std::alloc::{AllocError as NoMemory, Global};

/// A cochain of one degree: a value for each cell of that degree.
#[derive(Debug, Drop)]
pub struct Cochain {
    /// The degree of the cells that it has values at.
    pub degree: u8,
    /// The coordinates of its values, in order of cells.
    pub values: Vec<u8>,
}

impl Cochain {
    /// Whether each coordinate is 0. Takes no memory.
    pub fn is_zero(&self) -> bool
        ensures { IsTrue result ↔ All (λ a. a ≡ 0) self.now.values.items }
    {
        self.values.iter().all(|a| *a == 0)
    }
}

/// The sum of two cochains of one degree, coordinate by coordinate: a cochain of that degree.
///
/// They have values at the same cells, and so as many coordinates. Fails only where memory does.
pub fn add<F: Scalars>(alloc: Global, f: &F, a: &Cochain, b: &Cochain) -> Result<Cochain, NoMemory>
    requires degrees { a.now.degree ≡ b.now.degree }
    requires lengths { vec_len a.now.values ≡ vec_len b.now.values }
    requires a_scalars { AllScalars (F.ops f.now) a.now.values.items }
    requires b_scalars { AllScalars (F.ops f.now) b.now.values.items }
    ensures degree { IfOk result (λ c. c.degree ≡ a.now.degree) }
    ensures sum { IfOk result (λ c. c.values.items ≡ plus (F.ops f.now) a.now.values.items b.now.values.items) }
    ensures scalars { IfOk result (λ c. AllScalars (F.ops f.now) c.values.items) }
{
    let mut values = Vec::from_slice(alloc, &a.values)?;
    add_scaled(f, &mut values, 1, &b.values);
    Ok(Cochain {
        degree: a.degree,
        values,
    })
}

/// The product of a scalar and a cochain, coordinate by coordinate: a cochain of the same degree and cells.
///
/// Fails only where memory does.
pub fn scale<F: Scalars>(alloc: Global, f: &F, k: u8, a: &Cochain) -> Result<Cochain, NoMemory>
    requires scalar { k < (F.ops f.now).order }
    requires a_scalars { AllScalars (F.ops f.now) a.now.values.items }
    ensures degree { IfOk result (λ c. c.degree ≡ a.now.degree) }
    ensures product { IfOk result (λ c. c.values.items ≡ multiple (F.ops f.now) k a.now.values.items) }
    ensures scalars { IfOk result (λ c. AllScalars (F.ops f.now) c.values.items) }
{
    let mut values = Vec::from_slice(alloc, &a.values)?;
    dense_blocks::scale(f, &mut values, k);
    Ok(Cochain {
        degree: a.degree,
        values,
    })
}
