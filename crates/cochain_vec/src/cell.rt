/// A cell with coordinates: for a sheaf its number, its dimension and the dimension of its stalk.
#[derive(Clone, Copy, Debug, PartialEq, Eq)]
pub struct Cell {
    /// The number of the cell.
    pub cell: u32,
    /// The degree of the cochains that have a value there.
    pub degree: u32,
    /// How many coordinates such a value has.
    pub size: u32,
}
