//! Tests of slots: records that are stale, pivots carried over to another block complex, and blocks without an inverse.
//! Each expected value was found by hand.
#![tactic(auto)]

#[cfg(test)]
mod carried_tests;
#[cfg(test)]
mod commit_tests;
#[cfg(test)]
mod mark_tests;
#[cfg(test)]
mod samples;
#[cfg(test)]
mod steps;
