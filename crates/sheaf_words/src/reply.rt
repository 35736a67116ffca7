ghost use Rattle.std.specs.Prelude.{◌≡◌, IfOk};

use crate::copies::{Numbers, Row, copy_list, copy_values};
use dense_blocks::{Block, Listed};
use std::alloc::{AllocError as NoMemory, Global};

/// A complex that the whole one is reduced to.
///
/// Its matrices are joined per degree: there is one for each degree from 0 to the largest dimension of a cell,
/// and none where there are no cells; the cells of a degree come in rising order.
#[derive(Debug, Drop)]
pub struct Reduced {
    /// The pairs of cells that were removed, in the order of their removal.
    pub pairs: Listed<(u32, u32)>,
    /// The cells that are left, rising: each with its degree and the dimension of its stalk.
    pub live: Listed<(u32, u8, u8)>,
    /// At `k` the coboundary from degree `k` to degree `k + 1` of the cells that are left.
    pub d: Listed<Block>,
}

impl Reduced {
    /// An equal value.
    pub fn copy(&self, alloc: Global) -> Result<Self, NoMemory>
        ensures { IfOk result (λ copy. copy ≡ self.now) }
    {
        Ok(Reduced {
            pairs: copy_values(alloc, &self.pairs)?,
            live: copy_values(alloc, &self.live)?,
            d: copy_list(alloc, &self.d)?,
        })
    }
}

/// The maps between the whole complex and the one that it is reduced to, joined per degree as those of `Reduced`.
#[derive(Debug, Drop)]
pub struct Maps {
    /// The live cells of the whole complex, rising: each with its degree and the dimension of its stalk.
    pub base: Listed<(u32, u8, u8)>,
    /// At `k` the map from the whole complex to the reduced one in degree `k`.
    pub pi: Listed<Block>,
    /// At `k` the map from the reduced complex to the whole one in degree `k`.
    pub iota: Listed<Block>,
    /// At `k` the homotopy from degree `k + 1` to degree `k` of the whole complex.
    pub h: Listed<Block>,
}

impl Maps {
    /// An equal value.
    pub fn copy(&self, alloc: Global) -> Result<Self, NoMemory>
        ensures { IfOk result (λ copy. copy ≡ self.now) }
    {
        Ok(Maps {
            base: copy_values(alloc, &self.base)?,
            pi: copy_list(alloc, &self.pi)?,
            iota: copy_list(alloc, &self.iota)?,
            h: copy_list(alloc, &self.h)?,
        })
    }
}

/// What a question is answered with.
#[derive(Debug, Drop)]
pub enum Reply {
    /// The dimension of the cohomology of each degree, from 0 to the largest dimension of a cell.
    Betti(Numbers),
    /// The reduced complex.
    Reduce(Reduced),
    /// The reduced complex, and the maps between it and the whole one.
    Equiv(Reduced, Maps),
    /// A basis of the cohomology of degree `k`: cocycles of the whole complex.
    Basis {
        k: u8,
        vectors: Listed<Row>,
    },
    /// The cochain of degree `k` is no cocycle: its coboundary is not zero at the cell `t`.
    NotCocycle {
        k: u8,
        t: u32,
    },
    /// The cocycle of degree `k` is the combination of the vectors, a basis of the cohomology, by these coordinates,
    /// plus the coboundary of `primitive`.
    Class {
        k: u8,
        coords: Row,
        vectors: Listed<Row>,
        primitive: Row,
    },
    /// A basis of the global sections.
    Sections(Listed<Row>),
    /// A global section with the value that was asked for at the cell `s`.
    Section {
        s: u32,
        z: Row,
    },
    /// No global section has the value that was asked for at the cell `s`: this functional of the stalk is 0 on all
    /// values of sections, and not on that one.
    NoSection {
        s: u32,
        functional: Row,
    },
    /// The numbers that were sent are too many or too few.
    BadLength,
    /// A number that was sent is no scalar of the field.
    BadEntry,
}

impl Reply {
    /// An equal value.
    pub fn copy(&self, alloc: Global) -> Result<Self, NoMemory>
        ensures { IfOk result (λ copy. copy ≡ self.now) }
    {
        match self {
            Reply::Betti(numbers) => Ok(Reply::Betti(copy_values(alloc, numbers)?)),
            Reply::Reduce(reduced) => Ok(Reply::Reduce(reduced.copy(alloc)?)),
            Reply::Equiv(reduced, maps) => equivalence(alloc, reduced, maps),
            Reply::Basis { k, vectors } => Ok(Reply::Basis {
                k: *k,
                vectors: copy_list(alloc, vectors)?,
            }),
            Reply::NotCocycle { k, t } => Ok(Reply::NotCocycle { k: *k, t: *t }),
            Reply::Class {
                k,
                coords,
                vectors,
                primitive,
            } => class(alloc, *k, coords, vectors, primitive),
            Reply::Sections(vectors) => Ok(Reply::Sections(copy_list(alloc, vectors)?)),
            Reply::Section { s, z } => Ok(Reply::Section {
                s: *s,
                z: copy_values(alloc, z)?,
            }),
            Reply::NoSection { s, functional } => Ok(Reply::NoSection {
                s: *s,
                functional: copy_values(alloc, functional)?,
            }),
            Reply::BadLength => Ok(Reply::BadLength),
            Reply::BadEntry => Ok(Reply::BadEntry),
        }
    }
}

/// The reply with copies of these.
fn equivalence(alloc: Global, reduced: &Reduced, maps: &Maps) -> Result<Reply, NoMemory>
    ensures { IfOk result (λ copy. copy ≡ Reply.Equiv reduced.now maps.now) }
{
    Ok(Reply::Equiv(reduced.copy(alloc)?, maps.copy(alloc)?))
}

/// The reply with copies of these.
fn class(
    alloc: Global,
    k: u8,
    coords: &Row,
    vectors: &Listed<Row>,
    primitive: &Row,
) -> Result<Reply, NoMemory>
    ensures { IfOk result (λ copy. copy ≡ Reply.Class k coords.now vectors.now primitive.now) }
{
    Ok(Reply::Class {
        k,
        coords: copy_values(alloc, coords)?,
        vectors: copy_list(alloc, vectors)?,
        primitive: copy_values(alloc, primitive)?,
    })
}
