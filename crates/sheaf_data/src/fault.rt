use incidence_check::Incidence;
use thiserror::Error;

/// Why a draft is not a sheaf.
#[derive(Clone, Copy, Debug, PartialEq, Eq, Error)]
pub enum SealFault {
    /// The incidences of the complex are not regular.
    #[error(transparent)]
    Complex(Incidence),
    /// Two ways from the cell `s` to the cell `u` have different products.
    #[error("restrictions from cell {s} to cell {u} do not commute")]
    Noncommuting { s: u32, u: u32 },
}
