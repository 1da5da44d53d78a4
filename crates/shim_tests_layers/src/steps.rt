// Small processes and their nets, as words have them.
use shim_base::NoMemory;
use shim_tests_net::{Call, Change};
use shim_tests_small::{Branch, Step};
use std::alloc::Global;

// Two numbers with this sign between them.
fn pair_of(word: &str, sign: char) -> Option<(u32, u32)> {
    let (first, second) = word.split_once(sign)?;
    Some((first.parse::<u32>().ok()?, second.parse::<u32>().ok()?))
}

// `next`, `quiet`, `nothing`, `throw-LABEL-NUMBER` or `outer-LABEL-NUMBER`.
fn branch_of(word: &str) -> Option<Branch> {
    let (name, rest) = word.split_once('-').unwrap_or((word, ""));
    match name {
        "next" => Some(Branch::Next),
        "quiet" => Some(Branch::Quiet),
        "nothing" => Some(Branch::Nothing),
        "throw" => {
            let (label, number) = pair_of(rest, '-')?;
            Some(Branch::Throw(label, number))
        }
        "outer" => {
            let (label, number) = pair_of(rest, '-')?;
            Some(Branch::Outer(label, number))
        }
        _ => None,
    }
}

// Three branches with colons between them.
fn three_of(word: &str) -> Option<Step> {
    let (first, rest) = word.split_once(':')?;
    let (second, third) = rest.split_once(':')?;
    Some(Step::Three(branch_of(first)?, branch_of(second)?, branch_of(third)?))
}

// `quiet`, `next`, `put`, `fork`, `trap`, `try:NAME:LINE`, `throw:LABEL:NUMBER`, `throw-trap:LABEL` or
// `three:BRANCH:BRANCH:BRANCH`.
fn step_of(word: &str) -> Option<Step> {
    let (name, rest) = word.split_once(':').unwrap_or((word, ""));
    match name {
        "quiet" => Some(Step::Quiet),
        "next" => Some(Step::Next),
        "put" => Some(Step::Put),
        "fork" => Some(Step::Fork),
        "trap" => Some(Step::Trap),
        "try" => {
            let (name, line) = pair_of(rest, ':')?;
            Some(Step::Try(name, line))
        }
        "throw" => {
            let (label, number) = pair_of(rest, ':')?;
            Some(Step::Throw(label, number))
        }
        "throw-trap" => Some(Step::ThrowTrap(rest.parse::<u32>().ok()?)),
        "three" => three_of(rest),
        _ => None,
    }
}

// A step, and how often it is to be done.
fn steps_at(word: &str) -> Option<(Step, u8)> {
    let (step, times) = word.split_once('*').unwrap_or((word, "1"));
    Some((step_of(step)?, times.parse::<u8>().ok()?))
}

fn push_times(steps: &mut Vec<Step>, step: Step, times: u8) -> Result<(), NoMemory> {
    for _ in 0..times {
        steps.push(step)?;
    }
    Ok(())
}

/// The steps of a small process, with commas between them; `STEP*N` is the step N times. Nothing where one isn't
/// known.
pub fn steps_of(alloc: Global, word: &str) -> Result<Option<Vec<Step>>, NoMemory> {
    let mut steps = Vec::new(alloc);
    for part in word.split(',').filter(|_| !word.is_empty()) {
        let Some((step, times)) = steps_at(part) else {
            return Ok(None);
        };
        push_times(&mut steps, step, times)?;
    }
    Ok(Some(steps))
}

fn change_of(word: &str) -> Option<Change> {
    match word {
        "slot" => Some(Change::Slot),
        "round" => Some(Change::Round),
        "pid" => Some(Change::Pid),
        "grant" => Some(Change::Grant),
        "start" => Some(Change::Start),
        _ => None,
    }
}

// A call of a net: `grant:MOST:SLOT`, `absorb`, `absorb:CHANGE`, `absorb-other:MOST:SLOT`, `lose`, `redo`,
// `redo-all`, `settle` or `finish`.
fn call_of(word: &str) -> Option<Call> {
    let (name, rest) = word.split_once(':').unwrap_or((word, ""));
    match name {
        "grant" => {
            let (most, slot) = pair_of(rest, ':')?;
            Some(Call::Grant(most as u64, slot as u64))
        }
        "absorb" if rest.is_empty() => Some(Call::Absorb),
        "absorb" => Some(Call::AbsorbChanged(change_of(rest)?)),
        "absorb-other" => {
            let (most, slot) = pair_of(rest, ':')?;
            Some(Call::AbsorbOfAnother(most as u64, slot as u64))
        }
        "lose" => Some(Call::Lose),
        "redo" => Some(Call::Redo),
        "redo-all" => Some(Call::RedoAll),
        "settle" => Some(Call::Settle),
        "finish" => Some(Call::Finish),
        _ => None,
    }
}

/// The calls of a net. Nothing where one isn't known.
pub fn calls_of(alloc: Global, words: &[String]) -> Result<Option<Vec<Call>>, NoMemory> {
    let mut calls = Vec::new(alloc);
    for word in words {
        let Some(call) = call_of(word.as_str()) else {
            return Ok(None);
        };
        calls.push(call)?;
    }
    Ok(Some(calls))
}
