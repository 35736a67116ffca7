//! Tests of sheaves, of words, and of the texts of inputs and events: of what no row runs.
#![tactic(auto)]

#[cfg(test)]
mod events;
#[cfg(test)]
mod inputs;
#[cfg(test)]
mod replies;
#[cfg(test)]
mod sheaves;
#[cfg(test)]
mod words;
