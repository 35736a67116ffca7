use std::alloc::{AllocError as NoMemory, Global};

/// Where the faces of each cell should stand among all faces, if they were added one after another and rising.
///
/// No clause says that a guess is right: who takes one looks there.
#[derive(Debug, Drop)]
pub(crate) struct Guesses {
    firsts: Vec<u32>,
}

impl Guesses {
    /// No faces, for so many cells.
    pub fn of_cells(alloc: Global, count: usize) -> Result<Self, NoMemory> {
        let mut firsts = Vec::with_capacity(alloc, count)?;
        for _added in 0..count {
            firsts.push(0)?;
        }
        Ok(Guesses { firsts })
    }

    /// Keeps the place of a face of `t`, after so many others, if it is the first.
    pub fn keep(&mut self, t: u32, others: usize, place: u32) {
        if others == 0 && (t as usize) < self.firsts.len() {
            self.firsts[t as usize] = place;
        }
    }

    /// Where the faces of `t` should end, of which there are so many.
    pub fn end(&self, t: u32, count: usize) -> usize {
        match self.firsts.get(t as usize) {
            Some(first) => (*first as usize).saturating_add(count),
            None => 0,
        }
    }
}
