//! The finite fields of the table: arithmetic modulo the primes up to 31.
#![tactic(auto)]

mod field;
mod kernels;

pub use field::Field;
