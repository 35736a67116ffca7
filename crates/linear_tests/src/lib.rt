//! Tests of `dense_blocks`, `field_table` and `cochain_vec`, on values worked by hand.
#![tactic(auto)]

#[cfg(test)]
mod blocks;
mod by_entries;
#[cfg(test)]
mod cochains;
#[cfg(test)]
mod fields;
#[cfg(test)]
mod kernels;
#[cfg(test)]
mod solutions;
