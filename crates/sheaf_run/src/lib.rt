//! The top call: words and bytes in, one line or a transcript out.
#![tactic(auto)]

mod answers;
mod input;
mod job;
mod output;
mod reduction;
mod refusals;
mod session;
mod status;
mod top;

pub use job::Job;
pub use status::Status;
pub use top::{run, run_solo};
