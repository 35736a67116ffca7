//! Tests of the top call: what it does where a read, a write or a flush fails in mid-stream.
#![tactic(auto)]

#[cfg(test)]
mod faults;
