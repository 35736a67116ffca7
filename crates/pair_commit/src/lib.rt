//! Slots: a reduction of a block complex that several work on at once, each on a copy of what it touches; a step is
//! committed where nothing of that has changed.
#![tactic(auto)]

mod blocks;
mod carried;
mod kept;
mod log;
mod next;
mod slot;
mod work;

pub use kept::Kept;
pub use slot::Slot;
pub use work::{CommitFault, Work};
