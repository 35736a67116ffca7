ghost use Rattle.std.specs.Prelude.{◌≡◌};
ghost use Rattle.cell_complex.specs.declared.fault.AddFault.TheVariants.{NoMemory as add_no_memory};
ghost use Rattle.cell_complex.specs.declared.fault.BuildFault.TheVariants.{NoMemory as build_no_memory};

use std::alloc::AllocError as NoMemory;
use thiserror::Error;

/// Why a face does not fit a complex.
#[derive(Clone, Copy, Debug, PartialEq, Eq, Error)]
pub enum FaceFault {
    /// The complex has no cell of this number.
    #[error("there is no cell {id}")]
    UnknownCell { id: u32 },
    /// The cell `t` is not one dimension above the cell `s`.
    #[error("cell {t} is not one dimension above cell {s}")]
    WrongDims { s: u32, t: u32 },
    /// The complex has this face already.
    #[error("cell {s} is a face of cell {t} already")]
    TwiceFace { s: u32, t: u32 },
}

/// Why a face was not added.
#[derive(Clone, Copy, Debug, PartialEq, Eq, Error)]
pub enum AddFault {
    /// The face does not fit.
    #[error(transparent)]
    Face(FaceFault),
    /// Memory ran out.
    #[error("out of memory")]
    NoMemory,
}

impl From<NoMemory> for AddFault {
    ghost from_gives = { λ _ e. e ≡ add_no_memory };

    fn from(_: NoMemory) -> Self {
        AddFault::NoMemory
    }
}

/// Why a complex was not built.
#[derive(Clone, Copy, Debug, PartialEq, Eq, Error)]
pub enum BuildFault {
    /// The face at this place, from 0 on, does not fit the cells and the faces before it.
    #[error("face {face}: {fault}")]
    At { face: u32, fault: FaceFault },
    /// Memory ran out.
    #[error("out of memory")]
    NoMemory,
}

impl From<NoMemory> for BuildFault {
    ghost from_gives = { λ _ e. e ≡ build_no_memory };

    fn from(_: NoMemory) -> Self {
        BuildFault::NoMemory
    }
}
