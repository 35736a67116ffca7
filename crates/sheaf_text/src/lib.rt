//! The text of an input: its grammar, and its exact reader.
//!
//! An input is lines of words. One line `field Q` comes first, then a line `cell DIM STALK` for each cell, a line
//! `face S T SIGN E1 E2 ..` for each face with the entries of its restriction row by row, for each client a line
//! `client` and its commands, and at last a line `done`. The commands are the questions `betti`, `reduce`, `equiv`,
//! `basis K`, `class K E1 E2 ..`, `sections` and `extend S E1 E2 ..`, and an edit: `edit`, lines `stalk S N` and
//! `restrict S T E1 E2 ..`, and `commit`. Blank lines, and comments, which begin with `#`, count as lines and say
//! nothing. `docs/FORMATS.md` has the rules.
//!
//! [`read`] answers what the grammar says of any bytes: the input; or the first line that is refused and its first
//! cause ([`LineCause`]); or the limit that is passed ([`Which`]).
#![tactic(auto)]

mod cut;
mod fault;
mod heads;
mod input;
mod judgements;
mod line;
mod numerals;
mod parts;
mod reader;
mod room;
mod scripts;
mod state;
mod words;

pub use fault::{LineCause, Refusal, TextFault, Which};
pub use input::Input;
pub use reader::{MOST_BYTES, read};
