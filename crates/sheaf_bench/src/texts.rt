use crate::report::Failure;
use field_table::Field;
use sheaf_data::{Draft, Sheaf};
use sheaf_text::read;
use std::alloc::{AllocError as NoMemory, Global};

/// Adds so many lines of a cell.
pub fn add_cells(text: &mut String, count: u32, line: &str) -> Result<(), NoMemory> {
    for _cell in 0..count {
        text.push_str(line)?;
    }
    Ok(())
}

/// Adds the line of a face with the restriction 1.
pub fn add_face(
    alloc: Global,
    text: &mut String,
    face: (u32, u32),
    sign: char,
) -> Result<(), NoMemory> {
    let line = format!(in alloc; "face {} {} {sign} 1\n", face.0, face.1)?;
    text.push_str(line.as_str())
}

/// The sheaf of a text, not yet sealed.
pub fn draft_of(alloc: Global, text: &[u8]) -> Result<Draft<Field>, Failure> {
    Ok(read(alloc, text).map_err(|_| Failure::Input)?.draft)
}

pub fn sealed(draft: Draft<Field>) -> Result<Sheaf<Field>, Failure> {
    draft.seal().map_err(|_| Failure::Input)
}

pub fn sheaf_of(alloc: Global, text: &[u8]) -> Result<Sheaf<Field>, Failure> {
    sealed(draft_of(alloc, text)?)
}
