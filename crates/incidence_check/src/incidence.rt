use thiserror::Error;

/// Why the incidences of a complex are not regular.
#[derive(Clone, Copy, Debug, PartialEq, Eq, Error)]
pub enum Incidence {
    /// The edge `t` has not exactly two faces, of opposite sign.
    #[error("edge {t} has not exactly two ends, of opposite sign")]
    EdgeEnds { t: u32 },
    /// Between the cells `s` and `u` are neither no cells nor two, but `count`.
    #[error("between cells {s} and {u} are {count} cells")]
    Middles { s: u32, u: u32, count: u32 },
    /// Between the cells `s` and `u` are two cells, with equal products of signs.
    #[error("the signs between cells {s} and {u} do not cancel")]
    Signs { s: u32, u: u32 },
}
