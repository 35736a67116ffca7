ghost use Rattle.std.specs.Prelude.{◌≡◌, IfOk};

use dense_blocks::{Block, Listed};
use std::alloc::{AllocError as NoMemory, Global};

/// The coordinates of a vector, or the entries of a row.
pub type Row = Listed<u8>;

/// Entries as they are asked for: numbers that may be no scalars.
pub type Numbers = Listed<u32>;

/// A value that is copied where there is memory.
pub(crate) trait TryCopy: Drop {
    /// An equal value.
    fn try_copy(&self, alloc: Global) -> Result<Self, NoMemory>
        ensures { IfOk result (λ copy. copy ≡ self.now) };
}

impl TryCopy for Block {
    fn try_copy(&self, alloc: Global) -> Result<Self, NoMemory> {
        self.copy(alloc)
    }
}

impl TryCopy for Listed<u8> {
    fn try_copy(&self, alloc: Global) -> Result<Self, NoMemory> {
        copy_values(alloc, self)
    }
}

/// An equal list of members that are `Copy`.
pub fn copy_values<T: Copy>(alloc: Global, list: &Listed<T>) -> Result<Listed<T>, NoMemory>
    ensures { IfOk result (λ copy. copy ≡ list.now) }
{
    Ok(Listed::of(Vec::from_slice(alloc, list.as_slice())?))
}

/// An equal list, copied member by member.
pub(crate) fn copy_list<T: TryCopy>(alloc: Global, list: &Listed<T>) -> Result<Listed<T>, NoMemory>
    ensures { IfOk result (λ copy. copy ≡ list.now) }
{
    let members = list.as_slice();
    let mut copies = Vec::with_capacity(alloc, members.len())?;
    for member in members {
        copies.push(member.try_copy(alloc)?)?;
    }
    Ok(Listed::of(copies))
}
