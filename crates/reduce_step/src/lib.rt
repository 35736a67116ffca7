//! One step of a reduction of a block complex: what a pair of cells touches, and what its removal would make of that.
#![tactic(auto)]

mod differences;
mod finish;
mod footprint;
mod laws;
mod record;
mod removal;

pub use differences::Differs;
pub use finish::Finish;
pub use footprint::Footprint;
pub use laws::{steps_are_one_more, steps_are_removals, steps_keep_same};
pub use record::{Record, Step};
