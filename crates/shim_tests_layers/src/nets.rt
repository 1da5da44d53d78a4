// What words ask of nets of small processes, and of lanes.
use crate::steps::{calls_of, steps_of};
use crate::words::{line_of, word};
use shim_base::{List, NoMemory, push_decimal};
use shim_tests_net::{answers_of, records_after};
use shim_tests_small::Step;
use shim_tests_workers::{
    Hold, NetAsked, NetRun, Runner, WatchingGate, batch_text, one_lane_text, run_text,
};
use std::alloc::Global;
use std::sync::Wait;
use std::thread::Threads;

// The words from this place on.
fn words_from(words: &[String], at: usize) -> &[String] {
    words.split_at(at.min(words.len())).1
}

fn budget_of(words: &[String], at: usize) -> Option<u16> {
    word(words, at).parse::<u16>().ok()
}

fn number_of(words: &[String], at: usize) -> Option<u64> {
    word(words, at).parse::<u64>().ok()
}

/// `net STEPS BUDGET CALL..`: what each call of a net answers, and what is seen of it then.
pub fn net_text(alloc: Global, words: &[String]) -> Result<Option<List<u8>>, NoMemory> {
    let Some(budget) = budget_of(words, 3) else {
        return Ok(None);
    };
    let Some(steps) = steps_of(alloc, word(words, 2))? else {
        return Ok(None);
    };
    match calls_of(alloc, words_from(words, 4))? {
        Some(calls) => Ok(Some(answers_of(alloc, steps.as_slice(), budget, calls.as_slice())?)),
        None => Ok(None),
    }
}

/// `records STEPS BUDGET`: how many records a net has at its end.
pub fn records_text(alloc: Global, words: &[String]) -> Result<Option<List<u8>>, NoMemory> {
    let Some(budget) = budget_of(words, 3) else {
        return Ok(None);
    };
    let Some(steps) = steps_of(alloc, word(words, 2))? else {
        return Ok(None);
    };
    let records = records_after(alloc, steps.as_slice(), budget)?;
    let mut reply = List::new(alloc);
    push_decimal(&mut reply, records)?;
    line_of(Some(reply))
}

fn runner_of(word: &str) -> Option<Runner> {
    match word {
        "rounds" => Some(Runner::Rounds),
        "drive" => Some(Runner::Drive),
        "steal" => Some(Runner::DriveSteal),
        _ => None,
    }
}

fn watched_of(word: &str) -> Option<bool> {
    match word {
        "watched" => Some(true),
        "free" => Some(false),
        _ => None,
    }
}

// How a net of a root with these steps to do is run.
fn run_of<'a>(words: &[String], left: &'a [Step]) -> Option<NetRun<'a>> {
    Some(NetRun {
        left,
        budget: budget_of(words, 3)?,
        runner: runner_of(word(words, 4))?,
        workers: budget_of(words, 5)? as u32,
        quantum: number_of(words, 6)?,
        is_watched: watched_of(word(words, 7))?,
        lost: number_of(words, 8).unwrap_or(0),
    })
}

// What is told, or that there was no memory.
fn told_or_short(
    alloc: Global,
    reply: Result<List<u8>, NoMemory>,
) -> Result<Option<List<u8>>, NoMemory> {
    match reply {
        Ok(reply) => Ok(Some(reply)),
        Err(NoMemory) => Ok(Some(List::from_slice(alloc, b"no memory\n")?)),
    }
}

/// `workers STEPS BUDGET {rounds|drive|steal} WORKERS QUANTUM {watched|free} [LOST]`: the end of a net that workers
/// run. Unless LOST is 0 or absent, a piece of at most LOST steps is given out and lost before.
pub fn workers_text<R: Threads + Wait + Sync>(
    rt: &R,
    alloc: Global,
    words: &[String],
) -> Result<Option<List<u8>>, NoMemory> {
    let Some(steps) = steps_of(alloc, word(words, 2))? else {
        return Ok(None);
    };
    match run_of(words, steps.as_slice()) {
        Some(run) => told_or_short(alloc, run_text(rt, alloc, &run)),
        None => Ok(None),
    }
}

// `STEPS/BUDGET`.
fn net_asked(alloc: Global, word: &str) -> Result<Option<NetAsked>, NoMemory> {
    let Some((steps, budget)) = word.split_once('/') else {
        return Ok(None);
    };
    let Ok(budget) = budget.parse::<u16>() else {
        return Ok(None);
    };
    match steps_of(alloc, steps)? {
        Some(left) => Ok(Some(NetAsked { left, budget })),
        None => Ok(None),
    }
}

fn nets_asked(alloc: Global, words: &[String]) -> Result<Option<Vec<NetAsked>>, NoMemory> {
    let mut nets = Vec::new(alloc);
    for word in words {
        let Some(net) = net_asked(alloc, word.as_str())? else {
            return Ok(None);
        };
        nets.push(net)?;
    }
    Ok(Some(nets))
}

/// The gate that a word names by the entry which it holds: `none`, `child`, `child-soon`, `siblings` (until five other
/// entries), `run` or `run-soon`. With `soon` the gate holds it for 10,000 looks at most.
pub fn gate_of(word: &str) -> Option<WatchingGate> {
    match word {
        "none" => Some(WatchingGate::new(Hold::Nobody, false)),
        "child" => Some(WatchingGate::new(Hold::UntilChild, false)),
        "child-soon" => Some(WatchingGate::new(Hold::UntilChild, true)),
        "siblings" => Some(WatchingGate::new(Hold::UntilSiblings(5), false)),
        "run" => Some(WatchingGate::new(Hold::UntilRun, false)),
        "run-soon" => Some(WatchingGate::new(Hold::UntilRun, true)),
        _ => None,
    }
}

/// `batch HOLD WORKERS QUANTUM STEPS/BUDGET..`: the ends of nets that run beside each other, with no gate where HOLD
/// is `free`.
pub fn batch_of_nets<R: Threads + Sync>(
    rt: &R,
    alloc: Global,
    words: &[String],
) -> Result<Option<List<u8>>, NoMemory> {
    let (Some(workers), Some(quantum)) = (budget_of(words, 3), number_of(words, 4)) else {
        return Ok(None);
    };
    let gate = gate_of(word(words, 2));
    if gate.is_none() && word(words, 2) != "free" {
        return Ok(None);
    }
    let Some(nets) = nets_asked(alloc, words_from(words, 5))? else {
        return Ok(None);
    };
    let reply = batch_text(
        rt,
        alloc,
        nets.as_slice(),
        workers as u32,
        quantum,
        gate.as_ref(),
    );
    told_or_short(alloc, reply)
}

/// `lanes COUNT`: whether a lane alone gives so many values, 100,000 at most, in their order.
pub fn lanes_text(alloc: Global, words: &[String]) -> Result<Option<List<u8>>, NoMemory> {
    match number_of(words, 2) {
        Some(values) => one_lane_text(alloc, values.min(100_000)),
        None => Ok(None),
    }
}
