ghost use Rattle.std.specs.Prelude.{◌≡◌, IfOk};

use dense_blocks::Block;
use std::alloc::{AllocError as NoMemory, Global};

/// A value of which an equal one can be made, where there is memory.
pub trait Duplicate: Drop {
    /// An equal value.
    fn duplicate(&self, alloc: Global) -> Result<Self, NoMemory>
        ensures { IfOk result (λ c. c ≡ self.now) };
}

impl Duplicate for Block {
    fn duplicate(&self, alloc: Global) -> Result<Block, NoMemory> {
        self.copy(alloc)
    }
}

impl Duplicate for u8 {
    fn duplicate(&self, _alloc: Global) -> Result<u8, NoMemory> {
        Ok(*self)
    }
}
