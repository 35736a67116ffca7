//! Tests of start complexes, and of the steps of their reduction.
#![tactic(auto)]

#[cfg(test)]
mod samples;
#[cfg(test)]
mod start_tests;
#[cfg(test)]
mod step_tests;
