use rising_lists::Duplicate;
use std::alloc::{AllocError as NoMemory, Global};

/// What a column notes of a block.
#[derive(Clone, Copy, Debug)]
pub struct Mark {
    /// Whether the block has its flag set.
    pub flagged: bool,
    /// Whether the block has as many rows as columns.
    pub square: bool,
}

impl Duplicate for Mark {
    fn duplicate(&self, _alloc: Global) -> Result<Mark, NoMemory> {
        Ok(*self)
    }
}

/// What is known of a column: the cell of its first block that is square and has no flag.
#[derive(Clone, Copy, Debug)]
pub(crate) struct First {
    pub cell: Option<u32>,
}

impl Duplicate for First {
    fn duplicate(&self, _alloc: Global) -> Result<First, NoMemory> {
        Ok(*self)
    }
}
