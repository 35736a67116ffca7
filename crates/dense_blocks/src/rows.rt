ghost use Rattle.std.specs.Prelude.{◌≡◌, ◌≢◌, ◌<◌, length, take, IfOk, IfSome, IfNone, slice_index, vec_len};
ghost use Rattle.dense_blocks.specs.Vectors.{AllScalars, zeros, plus, multiple};

use crate::scalars::Scalars;
use std::alloc::{AllocError as NoMemory, Global};

/// The zero vector of `n` coordinates.
pub fn zeros(alloc: Global, n: usize) -> Result<Vec<u8>, NoMemory>
    ensures items { IfOk result (λ v. v.items ≡ zeros n) }
    ensures len { IfOk result (λ v. vec_len v ≡ n) }
{
    vec![in alloc; 0; n]
}

/// Adds `k` times the row to the target.
pub fn add_scaled<F: Scalars>(f: &F, target: &mut [u8], k: u8, row: &[u8])
    requires sizes { length row.now ≡ length target.old }
    requires scalar { k < (F.ops f.now).order }
    requires target_scalars { AllScalars (F.ops f.now) target.old }
    requires row_scalars { AllScalars (F.ops f.now) row.now }
    ensures sum { target.new ≡ plus (F.ops f.now) target.old (multiple (F.ops f.now) k row.now) }
    ensures scalars { AllScalars (F.ops f.now) target.new }
{
    f.add_scaled(target, k, row);
}

/// Multiplies each entry of the target by `k`.
pub fn scale<F: Scalars>(f: &F, target: &mut [u8], k: u8)
    requires scalar { k < (F.ops f.now).order }
    requires target_scalars { AllScalars (F.ops f.now) target.old }
    ensures product { target.new ≡ multiple (F.ops f.now) k target.old }
    ensures scalars { AllScalars (F.ops f.now) target.new }
{
    f.scale(target, k);
}

/// The first place whose entry is not 0.
pub(crate) fn first_nonzero(v: &[u8]) -> Option<usize>
    ensures inside { IfSome result (λ i. i < length v.now) }
    ensures not_zero { IfSome result (λ i. slice_index v.now i ≢ 0) }
    ensures first { IfSome result (λ i. take i v.now ≡ zeros i) }
    ensures none { IfNone result (v.now ≡ zeros (length v.now)) }
{
    for (i, entry) in v.iter().enumerate() {
        if *entry != 0 {
            return Some(i);
        }
    }
    None
}
