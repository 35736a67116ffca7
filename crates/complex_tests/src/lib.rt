//! Tests of the crates from `io_edge` to `square_check`.
#![tactic(auto)]

#[cfg(test)]
mod complexes;
#[cfg(test)]
mod edge;
#[cfg(test)]
mod incidences;
#[cfg(test)]
mod squares;
