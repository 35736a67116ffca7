use crate::line::Line;
use std::alloc::Global;

/// Lines that are done with, kept for their room: no more than were taken from here.
#[derive(Debug, Drop)]
pub struct Spares<T> {
    lines: Vec<Line<T>>,
    /// How many were taken for which none was kept yet.
    taken: usize,
}

impl<T: Drop> Spares<T> {
    /// None yet; takes no memory.
    pub fn new(alloc: Global) -> Spares<T> {
        Spares {
            lines: Vec::new(alloc),
            taken: 0,
        }
    }

    /// A line with the room that one of them has; a new one where there is none.
    pub fn take(&mut self, alloc: Global) -> Line<T> {
        self.taken = self.taken.saturating_add(1);
        match self.lines.pop() {
            Some(line) => line,
            None => Line::new(alloc),
        }
    }

    /// Keeps a line in place of one that was taken, where there is memory to note it.
    pub fn keep(&mut self, line: Line<T>) {
        if self.taken > 0 {
            self.taken -= 1;
            let _kept = self.lines.push(line);
        }
    }
}
