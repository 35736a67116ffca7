//! Tests of the crates that store block complexes: blocks by pair, row and column, joined matrices, and the next
//! candidate. Each expected value was found by hand.
#![tactic(auto)]

#[cfg(test)]
mod candidates;
#[cfg(test)]
mod coboundaries;
#[cfg(test)]
mod grids;
#[cfg(test)]
mod samples;
#[cfg(test)]
mod storage;
