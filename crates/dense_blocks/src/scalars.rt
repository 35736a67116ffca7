ghost use Rattle.std.specs.Prelude.{◌≡◌, ◌≢◌, ◌*◌, ◌<◌, ◌↔◌, IsTrue, length};
ghost use Rattle.dense_blocks.specs.Field.{Ops};
ghost use Rattle.dense_blocks.specs.FieldLaws.{IsField};
ghost use Rattle.dense_blocks.specs.Vectors.{AllScalars, plus, multiple, dot, combination};
ghost use Rattle.dense_blocks.specs.Matrices.{cut};

/// A finite field, whose scalars are the numbers below its order; 0 and 1 are neutral.
///
/// The order is at least 2 and at most 256. None of the calls takes memory. A call on slices takes a sum and a product
/// of scalars for each entry, unless the field has a quicker way.
pub trait Scalars: Copy {
    /// The operations of the field, read on all numbers.
    ghost ops: { Self → Ops };

    /// The number of scalars.
    fn order(&self) -> u32
        ensures { result ≡ (ops self.now).order };

    /// The sum of two scalars.
    fn add(&self, a: u8, b: u8) -> u8
        requires a_scalar { a < (ops self.now).order }
        requires b_scalar { b < (ops self.now).order }
        ensures { result ≡ (ops self.now).add a b };

    /// The negative of a scalar.
    fn neg(&self, a: u8) -> u8
        requires { a < (ops self.now).order }
        ensures { result ≡ (ops self.now).neg a };

    /// The product of two scalars.
    fn mul(&self, a: u8, b: u8) -> u8
        requires a_scalar { a < (ops self.now).order }
        requires b_scalar { b < (ops self.now).order }
        ensures { result ≡ (ops self.now).mul a b };

    /// The inverse of a scalar that is not 0.
    fn inv(&self, a: u8) -> u8
        requires scalar { a < (ops self.now).order }
        requires not_zero { a ≢ 0 }
        ensures { result ≡ (ops self.now).inv a };

    /// Adds `k` times the row to the target, which is as long.
    fn add_scaled(&self, target: &mut [u8], k: u8, row: &[u8])
        requires sizes { length row.now ≡ length target.old }
        requires scalar { k < (ops self.now).order }
        requires target_scalars { AllScalars (ops self.now) target.old }
        requires row_scalars { AllScalars (ops self.now) row.now }
        ensures sum { target.new ≡ plus (ops self.now) target.old (multiple (ops self.now) k row.now) }
        ensures scalars { AllScalars (ops self.now) target.new }
    {
        if k == 0 {
            return;
        }
        for i in 0..target.len() {
            target[i] = self.add(target[i], self.mul(k, row[i]));
        }
    }

    /// Multiplies each entry of the target by `k`.
    fn scale(&self, target: &mut [u8], k: u8)
        requires scalar { k < (ops self.now).order }
        requires target_scalars { AllScalars (ops self.now) target.old }
        ensures product { target.new ≡ multiple (ops self.now) k target.old }
        ensures scalars { AllScalars (ops self.now) target.new }
    {
        for entry in target.iter_mut() {
            *entry = self.mul(k, *entry);
        }
    }

    /// The sum of the products of coordinates, of vectors of one size.
    fn dot(&self, u: &[u8], v: &[u8]) -> u8
        requires sizes { length u.now ≡ length v.now }
        requires u_scalars { AllScalars (ops self.now) u.now }
        requires v_scalars { AllScalars (ops self.now) v.now }
        ensures value { result ≡ dot (ops self.now) u.now v.now }
        ensures scalar { result < (ops self.now).order }
    {
        let mut total = 0;
        for i in 0..u.len() {
            total = self.add(total, self.mul(u[i], v[i]));
        }
        total
    }

    /// Adds to the target the linear combination, by the coefficients, of rows as long as the target that are given one
    /// after another.
    fn add_combination(&self, target: &mut [u8], coefficients: &[u8], rows: &[u8])
        requires full { length rows.now ≡ length coefficients.now * length target.old }
        requires target_scalars { AllScalars (ops self.now) target.old }
        requires coefficient_scalars { AllScalars (ops self.now) coefficients.now }
        requires row_scalars { AllScalars (ops self.now) rows.now }
        ensures sum { target.new ≡ plus (ops self.now) target.old
            (combination (ops self.now) (length target.old) coefficients.now
            (cut (length coefficients.now) (length target.old) rows.now)) }
        ensures scalars { AllScalars (ops self.now) target.new }
    {
        let columns = target.len();
        let mut rest = rows;
        for k in coefficients {
            let (row, later) = rest.split_at(columns);
            self.add_scaled(target, *k, row);
            rest = later;
        }
    }

    /// The operations are those of a field.
    ghost is_field: { (f : Self) → IsField (ops f) };
}

/// Whether each entry is a scalar of the field.
pub fn all_scalars<F: Scalars>(f: &F, entries: &[u8]) -> bool
    ensures { IsTrue result ↔ AllScalars (F.ops f.now) entries.now }
{
    let order = f.order();
    entries.iter().all(|entry| u32::from(*entry) < order)
}
