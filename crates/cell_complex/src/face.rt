/// The sign of an incidence.
#[derive(Clone, Copy, Debug, PartialEq, Eq)]
pub enum Sign {
    Plus,
    Minus,
}

/// The cell `s` is a face of the cell `t`, one dimension up, with this sign.
#[derive(Clone, Copy, Debug, PartialEq, Eq)]
pub struct Face {
    pub s: u32,
    pub t: u32,
    pub sign: Sign,
}
