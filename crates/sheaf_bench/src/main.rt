//! The benchmark: `sheaf_bench WORKLOAD SIZE` runs one workload of a crate below the top call, and times the call
//! alone. `run` has the table of the workloads with their sizes.
//!
//! Standard output is one line: the workload, the size and the result. Standard error has the nanoseconds in all and
//! for each that is counted (none of `reduce`), or why the words were refused (status 2) or the workload failed (1).
#![tactic(auto)]

mod maps;
mod matrices;
mod merges;
mod reduction;
mod report;
mod texts;
mod torus;

use crate::maps::time_equiv;
use crate::matrices::{time_invert, time_product, time_solve};
use crate::merges::time_merge;
use crate::reduction::reduce_input;
use crate::report::{Failure, Outcome, Report};
use crate::torus::{time_put, time_read, time_seal};
use std::process::ExitCode;
use std::rt::{Clock, Env};
use std::{env, io};

/// The table of the workloads: of each its name, its sizes, and what runs it.
fn run<R: Clock + Input + AllocGlobal>(rt: &R, name: &str, size: u32) -> Outcome {
    let alloc = rt.alloc();
    match (name, size) {
        ("product", 1..=1024) => time_product(rt, alloc, size),
        ("solve", 1..=1024) => time_solve(rt, alloc, size),
        ("invert", 1..=1024) => time_invert(rt, alloc, size),
        ("merge", 1..=64) => time_merge(rt, alloc, size as u8),
        ("seal", 2..=32) => time_seal(rt, alloc, size as u8),
        ("put", 2..=32) => time_put(rt, alloc, size as u8),
        ("read-torus", 2..=32) => time_read(rt, alloc, size as u8),
        ("reduce", 0) => reduce_input(rt, alloc),
        ("equiv", 0) => time_equiv(rt, alloc),
        _ => Err(Failure::Words),
    }
}

/// The words after the program's name.
fn words<R: Env + AllocGlobal>(rt: &R) -> io::Result<Vec<String>> {
    let mut words = Vec::new(rt.alloc());
    for word in env::args(rt)?.skip(1) {
        words.push(word)?;
    }
    Ok(words)
}

/// Runs what the words ask for, and prints what came of it.
fn bench<R>(rt: &R) -> Result<(), Failure>
where
    R: Clock + Env + Input + Print + Eprint + AllocGlobal,
{
    let words = words(rt)?;
    let [name, size] = words.as_slice() else {
        return Err(Failure::Words);
    };
    let size = size.parse::<u32>().map_err(|_| Failure::Words)?;
    let Report { result, time } = run(rt, name.as_str(), size)?;
    println!(rt; "{name} {size}: {result}")?;
    if let Some((time, count)) = time {
        let each = time.as_secs_f64() * 1e9 / f64::from(count);
        eprintln!(rt; "{} ns, {each:.4} ns each", time.as_nanos())?;
    }
    Ok(())
}

fn main(rt: HostRuntime) -> ExitCode {
    match bench(&rt) {
        Ok(()) => ExitCode::SUCCESS,
        Err(failure) => {
            // Where standard error fails too, the status tells enough.
            let _told = eprintln!(&rt; "sheaf_bench: {failure}");
            ExitCode::from(if let Failure::Words = failure { 2 } else { 1 })
        }
    }
}
