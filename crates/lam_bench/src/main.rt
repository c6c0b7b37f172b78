//! Benchmarks of the lower libraries, which `bench/session.py` cannot time alone: `lam_bench MEASURE SIZE` builds its input, takes
//! the time with the runtime's clock, and writes it to standard error. With fewer than two arguments it runs each measure once at
//! a small size and writes nothing.
#![tactic(auto)]

mod fault;
mod frames;
mod measure;
mod texts;
mod types;
mod watch;

use fault::BenchFault;
use measure::{MEASURES, measure_named};
use std::env;
use std::rt::Clock;

fn main(rt: HostRuntime) -> Result<(), BenchFault> {
    let words: Vec<String> = env::args(&rt)?.collect(rt.alloc())?;
    if words.len() < 3 {
        take_all(&rt)
    } else {
        take(&rt, words[1].as_str(), words[2].as_str())
    }
}

fn take_all<R: AllocGlobal + Clock>(rt: &R) -> Result<(), BenchFault> {
    for (_, measure) in MEASURES.as_slice() {
        measure.take(rt.alloc(), rt, 100)?;
    }
    Ok(())
}

fn take<R: AllocGlobal + Clock + Eprint>(rt: &R, name: &str, size: &str) -> Result<(), BenchFault> {
    let Some(measure) = measure_named(name) else {
        return Err(BenchFault::Words);
    };
    let Ok(size) = size.parse::<usize>() else {
        return Err(BenchFault::Words);
    };
    let micros = measure.take(rt.alloc(), rt, size)?.as_micros();
    Ok(eprintln!(rt; "{name} {size}: {micros} microseconds")?)
}
