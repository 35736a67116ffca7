//! The text of a transcript: replies and events, as lines of words.
#![tactic(auto)]

mod blocks;
mod classes;
mod coordinates;
mod counts;
mod events;
mod joined;
mod order;
mod reductions;
mod replies;
mod sources;
mod transcripts;
mod words;

pub use events::event_line;
pub use replies::reply_lines;
pub use transcripts::transcript;
