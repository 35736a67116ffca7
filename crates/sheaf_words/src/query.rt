ghost use Rattle.std.specs.Prelude.{◌≡◌, IfOk};

use crate::copies::{Numbers, copy_values};
use crate::edit::Edit;
use std::alloc::{AllocError as NoMemory, Global};

/// What is asked of one version of a sheaf.
#[derive(Debug, Drop)]
pub enum Query {
    /// The dimensions of the cohomology.
    Betti,
    /// The reduced complex.
    Reduce,
    /// The reduced complex, with the maps between it and the whole one.
    Equiv,
    /// A basis of the cohomology of degree `k`.
    Basis { k: u8 },
    /// The class of the cocycle `z` of degree `k`.
    Class { k: u8, z: Numbers },
    /// A basis of the global sections.
    Sections,
    /// A global section with the value `v` at the cell `s`.
    Extend { s: u32, v: Numbers },
}

impl Query {
    /// An equal value.
    pub fn copy(&self, alloc: Global) -> Result<Self, NoMemory>
        ensures { IfOk result (λ copy. copy ≡ self.now) }
    {
        match self {
            Query::Betti => Ok(Query::Betti),
            Query::Reduce => Ok(Query::Reduce),
            Query::Equiv => Ok(Query::Equiv),
            Query::Basis { k } => Ok(Query::Basis { k: *k }),
            Query::Class { k, z } => Ok(Query::Class {
                k: *k,
                z: copy_values(alloc, z)?,
            }),
            Query::Sections => Ok(Query::Sections),
            Query::Extend { s, v } => Ok(Query::Extend {
                s: *s,
                v: copy_values(alloc, v)?,
            }),
        }
    }
}

/// What a client sends.
#[derive(Debug, Drop)]
pub enum Command {
    /// Changes of the sheaf.
    Change(Edit),
    /// A question on the sheaf.
    Ask(Query),
}

impl Command {
    /// An equal value.
    pub fn copy(&self, alloc: Global) -> Result<Self, NoMemory>
        ensures { IfOk result (λ copy. copy ≡ self.now) }
    {
        match self {
            Command::Change(edit) => Ok(Command::Change(edit.copy(alloc)?)),
            Command::Ask(query) => Ok(Command::Ask(query.copy(alloc)?)),
        }
    }
}
