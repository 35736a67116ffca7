ghost use Rattle.std.specs.Prelude.{◌≡◌, ◌*◌, ◌≤◌, length};
ghost use Rattle.dense_blocks.specs.Vectors.{AllScalars, plus, multiple};
ghost use Rattle.field_table.specs.Modular.{modulo};
ghost use Rattle.field_table.specs.ModularFacts.{whole_dot, plus_rows};

/// The sum of so many products of bytes is below 2^32.
pub(crate) const MOST_PRODUCTS: usize = 65_536;

/// So many products of scalars below 128 are added up before a remainder is taken: the sum fits 16 bits.
const ROWS: usize = 4;

/// Adds `k` times the row to the target, modulo `Q`: with a remainder by a constant the loop takes several entries at
/// once.
pub(crate) fn add_scaled<const Q: u16>(target: &mut [u8], k: u8, row: &[u8])
    requires sizes { length row.now ≡ length target.old }
    requires low { 2 ≤ Q }
    requires high { Q ≤ 256 }
    ensures sum { target.new ≡ plus (modulo Q) target.old (multiple (modulo Q) k row.now) }
    ensures scalars { AllScalars (modulo Q) target.new }
{
    let factor = u16::from(k);
    for i in 0..target.len() {
        target[i] = ((u16::from(target[i]) + factor * u16::from(row[i])) % Q) as u8;
    }
}

/// Multiplies each entry of the target by `k`, modulo `Q`, in the same way.
pub(crate) fn scale<const Q: u16>(target: &mut [u8], k: u8)
    requires low { 2 ≤ Q }
    requires high { Q ≤ 256 }
    ensures product { target.new ≡ multiple (modulo Q) k target.old }
    ensures scalars { AllScalars (modulo Q) target.new }
{
    let factor = u16::from(k);
    for entry in target.iter_mut() {
        *entry = (factor * u16::from(*entry) % Q) as u8;
    }
}

/// The sum of the products of coordinates, without a remainder.
pub(crate) fn sum_of_products(u: &[u8], v: &[u8]) -> u32
    requires sizes { length u.now ≡ length v.now }
    requires short { length u.now ≤ 65536 }
    ensures { result ≡ whole_dot u.now v.now }
{
    let mut total = 0;
    for i in 0..u.len() {
        total += u32::from(u[i]) * u32::from(v[i]);
    }
    total
}

/// Adds to the target the combination, by the coefficients, of rows as long as the target that are given one after
/// another, modulo `Q`: as many rows at a time as one remainder serves.
pub(crate) fn add_combination<const Q: u16>(target: &mut [u8], coefficients: &[u8], rows: &[u8])
    requires full { length rows.now ≡ length coefficients.now * length target.old }
    requires low { 2 ≤ Q }
    requires high { Q ≤ 128 }
    requires target_scalars { AllScalars (modulo Q) target.old }
    requires coefficient_scalars { AllScalars (modulo Q) coefficients.now }
    requires row_scalars { AllScalars (modulo Q) rows.now }
    ensures sum { target.new ≡ plus_rows (modulo Q) (length target.old) target.old coefficients.now rows.now }
    ensures scalars { AllScalars (modulo Q) target.new }
{
    let mut ks = coefficients;
    let mut rest = rows;
    while ks.len() >= ROWS {
        let (some, later_ks) = ks.split_at(ROWS);
        let (some_rows, later_rows) = rest.split_at(ROWS * target.len());
        add_four::<Q>(target, some, some_rows);
        ks = later_ks;
        rest = later_rows;
    }
    add_each::<Q>(target, ks, rest);
}

/// Adds to the target the combination of four rows, with one remainder for each entry.
fn add_four<const Q: u16>(target: &mut [u8], coefficients: &[u8], rows: &[u8])
    requires four { length coefficients.now ≡ 4 }
    requires full { length rows.now ≡ 4 * length target.old }
    requires low { 2 ≤ Q }
    requires high { Q ≤ 128 }
    requires target_scalars { AllScalars (modulo Q) target.old }
    requires coefficient_scalars { AllScalars (modulo Q) coefficients.now }
    requires row_scalars { AllScalars (modulo Q) rows.now }
    ensures sum { target.new ≡ plus_rows (modulo Q) (length target.old) target.old coefficients.now rows.now }
    ensures scalars { AllScalars (modulo Q) target.new }
{
    if coefficients == [0; ROWS].as_slice() {
        return;
    }
    let columns = target.len();
    let k0 = u16::from(coefficients[0]);
    let k1 = u16::from(coefficients[1]);
    let k2 = u16::from(coefficients[2]);
    let k3 = u16::from(coefficients[3]);
    let (row0, rest) = rows.split_at(columns);
    let (row1, rest) = rest.split_at(columns);
    let (row2, row3) = rest.split_at(columns);
    for i in 0..columns {
        let sum = u16::from(target[i])
            + k0 * u16::from(row0[i])
            + k1 * u16::from(row1[i])
            + k2 * u16::from(row2[i])
            + k3 * u16::from(row3[i]);
        target[i] = (sum % Q) as u8;
    }
}

/// Adds to the target the combination of rows, one at a time.
fn add_each<const Q: u16>(target: &mut [u8], coefficients: &[u8], rows: &[u8])
    requires full { length rows.now ≡ length coefficients.now * length target.old }
    requires low { 2 ≤ Q }
    requires high { Q ≤ 128 }
    requires target_scalars { AllScalars (modulo Q) target.old }
    ensures sum { target.new ≡ plus_rows (modulo Q) (length target.old) target.old coefficients.now rows.now }
    ensures scalars { AllScalars (modulo Q) target.new }
{
    let columns = target.len();
    let mut rest = rows;
    for k in coefficients {
        let (row, later) = rest.split_at(columns);
        add_scaled::<Q>(target, *k, row);
        rest = later;
    }
}
