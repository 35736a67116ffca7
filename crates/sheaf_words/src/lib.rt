//! Commands, replies and events, as plain values that contracts compare.
#![tactic(auto)]

mod copies;
mod edit;
mod event;
mod query;
mod reply;

pub use copies::{Numbers, Row, copy_values};
pub use edit::{Cause, Edit, Set, Verdict};
pub use event::Event;
pub use query::{Command, Query};
pub use reply::{Maps, Reduced, Reply};
