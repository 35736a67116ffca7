ghost use Rattle.std.specs.Prelude.{◌≡◌, IfOk};

use crate::copies::{Numbers, TryCopy, copy_list, copy_values};
use dense_blocks::Listed;
use std::alloc::{AllocError as NoMemory, Global};

/// One change of a sheaf.
#[derive(Debug, Drop)]
pub enum Set {
    /// The stalk of the cell `s` gets the dimension `n`, and each restriction from or to it becomes zero.
    Stalk { s: u32, n: u32 },
    /// The restriction from `s` to `t` gets these entries, row after row.
    Restrict { s: u32, t: u32, entries: Numbers },
}

impl Set {
    /// An equal value.
    pub fn copy(&self, alloc: Global) -> Result<Self, NoMemory>
        ensures { IfOk result (λ copy. copy ≡ self.now) }
    {
        match self {
            Set::Stalk { s, n } => Ok(Set::Stalk { s: *s, n: *n }),
            Set::Restrict { s, t, entries } => Ok(Set::Restrict {
                s: *s,
                t: *t,
                entries: copy_values(alloc, entries)?,
            }),
        }
    }
}

impl TryCopy for Set {
    fn try_copy(&self, alloc: Global) -> Result<Self, NoMemory> {
        self.copy(alloc)
    }
}

/// Changes of a sheaf that are made together, or not at all.
#[derive(Debug, Drop)]
pub struct Edit {
    /// The changes, in the order in which they are made.
    pub sets: Listed<Set>,
}

impl Edit {
    /// An equal value.
    pub fn copy(&self, alloc: Global) -> Result<Self, NoMemory>
        ensures { IfOk result (λ copy. copy ≡ self.now) }
    {
        Ok(Edit {
            sets: copy_list(alloc, &self.sets)?,
        })
    }
}

/// Why an edit is refused. The number `i` is the place of the change, from 0 on, that is at fault.
#[derive(Clone, Copy, Debug, PartialEq, Eq)]
pub enum Cause {
    /// The change sets the stalk of no cell.
    NoCell { i: u32 },
    /// The change sets the restriction of no face.
    NoFace { i: u32 },
    /// The change sets a stalk to a dimension above 16.
    StalkLimit { i: u32 },
    /// The entries are not as many as the two stalks ask for.
    Shape { i: u32 },
    /// An entry is no scalar of the field.
    Entry { i: u32 },
    /// The dimensions of the stalks would add up to more than 4,096.
    TotalLimit,
    /// The restrictions from `s` to `u`, two dimensions up, would not commute.
    Square { s: u32, u: u32 },
}

impl Cause {
    /// An equal value; takes no memory.
    pub fn copy(&self, _alloc: Global) -> Result<Self, NoMemory>
        ensures { result ≡ Ok self.now }
    {
        Ok(*self)
    }
}

/// Whether an edit was made.
#[derive(Clone, Copy, Debug, PartialEq, Eq)]
pub enum Verdict {
    /// All its changes were made.
    Accepted,
    /// None of its changes was made, for this cause.
    Refused(Cause),
}

impl Verdict {
    /// An equal value; takes no memory.
    pub fn copy(&self, _alloc: Global) -> Result<Self, NoMemory>
        ensures { result ≡ Ok self.now }
    {
        Ok(*self)
    }
}
