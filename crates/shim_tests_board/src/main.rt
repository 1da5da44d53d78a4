//! Tests of the board, whose calls are made one by one, and of threads. The program lets workers on threads claim,
//! give and collect pieces over a board, or push, pop and steal them through lanes; each piece has to come through
//! once. It takes `board`, `lanes` or `both`, the number of workers and the number of pieces, and tells what came of
//! them.
#![tactic(auto)]

#[cfg(test)]
mod calls;
mod lanes;
mod taken;
mod tally;
mod workers;

use std::alloc::Global;
use std::sync::Wait;
use std::thread::Threads;
use std::{env, io};

// The number in a word, or 0.
fn number(word: Option<String>) -> u64 {
    let Some(word) = word else {
        return 0;
    };
    word.as_str().parse::<u64>().unwrap_or(0)
}

fn asks_for(asked: &Option<String>, way: &str) -> bool {
    match asked {
        Some(asked) => asked.as_str() == way || asked.as_str() == "both",
        None => false,
    }
}

fn tell_board<R: Print + Threads + Sync>(
    rt: &R,
    alloc: Global,
    workers: u64,
    pieces: u64,
) -> io::Result<()> {
    match workers::run(rt, alloc, workers.clamp(1, 16), pieces) {
        Ok(true) => println!(rt; "{pieces} pieces, each claimed and collected once"),
        Ok(false) => println!(rt; "not all of {pieces} pieces were claimed and collected once"),
        Err(_) => println!(rt; "no memory"),
    }
}

fn tell_lanes<R: Print + Threads + Wait + Sync>(
    rt: &R,
    alloc: Global,
    workers: u64,
    pieces: u64,
) -> io::Result<()> {
    match lanes::run(rt, alloc, workers.clamp(1, 16), pieces) {
        Ok(true) => println!(rt; "{pieces} pieces, each taken once and in order"),
        Ok(false) => println!(rt; "not all of {pieces} pieces were taken once and in order"),
        Err(_) => println!(rt; "no memory"),
    }
}

fn main(rt: HostRuntime) -> io::Result<()> {
    let mut words = env::args(&rt)?;
    let _name = words.next();
    let way = words.next();
    let workers = number(words.next());
    let pieces = number(words.next()).min(10_000_000);
    if asks_for(&way, "board") {
        tell_board(&rt, rt.alloc(), workers, pieces)?;
    }
    if asks_for(&way, "lanes") {
        tell_lanes(&rt, rt.alloc(), workers, pieces)?;
    }
    Ok(())
}
