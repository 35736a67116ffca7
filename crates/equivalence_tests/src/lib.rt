//! Tests of the maps of reductions, and of their composites.
#![tactic(auto)]

#[cfg(test)]
mod composite_tests;
#[cfg(test)]
mod equation_tests;
#[cfg(test)]
mod map_tests;
#[cfg(test)]
mod samples;
#[cfg(test)]
mod steps;
