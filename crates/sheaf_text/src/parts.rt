ghost use Rattle.std.specs.Prelude.{◌≡◌, ◌+◌, ◌<◌, ◌≤◌, None, [], length, sum, slice_index, Contains, IfOk, OnOk};
ghost use Rattle.cell_complex.specs.Invariants.{with_face};
ghost use Rattle.cell_complex.specs.Verdicts.{face_fault};
ghost use Rattle.field_table.specs.Table.{orders};
ghost use Rattle.sheaf_text.specs.Lines.{face_in};
ghost use Rattle.sheaf_text.specs.Parts.{AreDraftParts, IsOpen, IsClosed, AreNew, IsOrdered, AddsCell, IsShut};
ghost use Rattle.sheaf_text.specs.Parts.{TakesFace, AddsFace, IsDraftOf};

use crate::heads::LineWords;
use crate::line::face_of;
use crate::words::scalars;
use cell_complex::{AddFault, Complex, Face};
use dense_blocks::{Block, Listed, Scalars};
use field_table::Field;
use sheaf_data::Draft;
use std::alloc::{AllocError as NoMemory, Global};

/// What the lines so far say of the sheaf.
///
/// The complex has its cells once a line comes that is none of a cell.
#[derive(Drop)]
pub(crate) struct Parts {
    pub field: Field,
    pub dims: Vec<u8>,
    pub stalks: Vec<u8>,
    pub total: u32,
    pub complex: Complex,
    pub blocks: Vec<Block>,
}

/// The number of coordinates of a cell's stalk; 0 where there is no such cell.
pub(crate) fn stalk_of(stalks: &[u8], cell: u32) -> u32
    ensures value { result ≡ slice_index stalks.now cell }
    ensures small { result < 256 }
{
    match stalks.get(cell as usize) {
        Some(stalk) => u32::from(*stalk),
        None => 0,
    }
}

/// Adds a face that has no fault.
fn add_face(complex: &mut Complex, face: Face) -> Result<(), NoMemory>
    requires { face_fault complex.old face ≡ None }
    ensures { OnOk result (complex.new ≡ with_face complex.old face) }
{
    match complex.add_face(face) {
        Ok(()) => Ok(()),
        Err(AddFault::NoMemory) => Err(NoMemory),
        Err(AddFault::Face(_)) => unreachable!(),
    }
}

impl Parts {
    /// Before any line; the field counts for nothing yet.
    pub fn new(alloc: Global) -> Result<Parts, NoMemory>
        ensures { IfOk result AreNew }
    {
        Ok(Parts {
            field: Field::Two,
            dims: Vec::new(alloc),
            stalks: Vec::new(alloc),
            total: 0,
            complex: Complex::of_cells(alloc, &[])?,
            blocks: Vec::new(alloc),
        })
    }

    /// Takes the order of the field.
    pub fn set_field(&mut self, order: u32)
        requires parts { AreDraftParts self.old }
        requires open { IsOpen self.old }
        requires known { Contains orders order }
        ensures { IsOrdered self.old self.new order }
    {
        if let Some(field) = Field::of(order) {
            self.field = field;
        }
    }

    /// Adds a cell, as the last.
    pub fn add_cell(&mut self, dim: u32, stalk: u32) -> Result<(), NoMemory>
        requires parts { AreDraftParts self.old }
        requires open { IsOpen self.old }
        requires dim { dim ≤ 15 }
        requires stalk { stalk ≤ 16 }
        requires few { length self.old.dims.items < 4096 }
        requires total { sum self.old.stalks.items + stalk ≤ 4096 }
        ensures { OnOk result (AddsCell self.old self.new dim stalk) }
    {
        self.dims.push(dim as u8)?;
        self.stalks.push(stalk as u8)?;
        self.total += stalk;
        Ok(())
    }

    /// Gives the complex its cells.
    pub fn close(&mut self, alloc: Global) -> Result<(), NoMemory>
        requires parts { AreDraftParts self.old }
        requires open { IsOpen self.old }
        ensures { OnOk result (IsShut self.old self.new) }
    {
        self.complex = Complex::of_cells(alloc, &self.dims)?;
        Ok(())
    }

    /// Adds the face of a line, as the last.
    pub fn add_face(&mut self, alloc: Global, line: &LineWords<'_>) -> Result<(), NoMemory>
        requires parts { AreDraftParts self.old }
        requires closed { IsClosed self.old }
        requires fits { TakesFace self.old line.now }
        ensures { OnOk result (AddsFace self.old self.new line.now) }
    {
        let face = face_of(line);
        let rows = stalk_of(&self.stalks, face.t);
        let cols = stalk_of(&self.stalks, face.s);
        let words = line.entries();
        let entries = scalars(alloc, words.text(), words.count(), self.field.order())?;
        let block = Block {
            rows,
            cols,
            entries,
        };
        add_face(&mut self.complex, face)?;
        self.blocks.push(block)?;
        Ok(())
    }

    /// What the lines said.
    pub fn into_draft(self) -> Draft<Field>
        requires parts { AreDraftParts self }
        requires closed { IsClosed self }
        ensures { IsDraftOf self result }
    {
        Draft {
            complex: self.complex,
            field: self.field,
            stalks: Listed::of(self.stalks),
            blocks: Listed::of(self.blocks),
        }
    }
}
