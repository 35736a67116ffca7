//! The machine of versions, lanes and events: which orders of events are legal, and which of them are whole.
//!
//! For now these are its definitions, and laws: on what a transcript of legal events says, on the versions of a legal
//! state and on right replies, and on the one order in which the clients are served one after the other.
#![tactic(auto)]

mod laws;

pub use laws::{
    betti_replies_agree, events_are_answers, right_for_start_is_right, solo_orders_are_equal,
    solo_orders_are_legal, transcripts_count, versions_are_sheaves,
};
