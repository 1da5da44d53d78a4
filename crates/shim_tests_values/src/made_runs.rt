// Reports of runs that no program has: with the greatest numbers, and with names that the program hasn't.
use shim_base::{List, Name, NoMemory, Trap};
use shim_front_end::SourceFault;
use shim_local::{Ended, History, Log, LogWhat, Outcome, OwnSteps, WaitAt};
use shim_parser::ParseFault;
use shim_report::{fault_text, text};
use shim_scopes::ScopeFault;
use shim_sharing::ShareFault;
use shim_tests_ground::made::{Pairs, chan, path};
use std::alloc::Global;

/// A run that was made by hand. What isn't said is as in the first one.
#[derive(Clone, Copy, PartialEq, Eq)]
pub enum MadeRun {
    /// It is done, and put nothing; its root did 4 of 7 steps, and there were 3 events.
    Done,
    /// With an output, histories and logs, uncaught, and as many steps as there can be.
    Full,
    /// Uncaught is an exception that has no name.
    Nameless,
    Trapped,
    /// It put one byte, and two processes wait.
    Blocked,
    /// With the steps of two processes.
    Spent,
    /// Spent at once, without a step.
    SpentAtOnce,
}

impl MadeRun {
    pub fn named(word: &str) -> Option<MadeRun> {
        match word {
            "done" => Some(MadeRun::Done),
            "full" => Some(MadeRun::Full),
            "nameless" => Some(MadeRun::Nameless),
            "trapped" => Some(MadeRun::Trapped),
            "blocked" => Some(MadeRun::Blocked),
            "spent" => Some(MadeRun::Spent),
            "spent-at-once" => Some(MadeRun::SpentAtOnce),
            _ => None,
        }
    }

    fn output(self) -> &'static [u8] {
        match self {
            MadeRun::Full => b"\x00\x0f\xf0\x9a\xff".as_slice(),
            MadeRun::Blocked => b"\x09".as_slice(),
            _ => b"".as_slice(),
        }
    }

    fn events(self) -> u64 {
        match self {
            MadeRun::SpentAtOnce => 0,
            _ => 3,
        }
    }

    fn steps(self) -> u64 {
        match self {
            MadeRun::Full => 18446744073709551615,
            MadeRun::SpentAtOnce => 0,
            _ => 7,
        }
    }

    fn outcome(self) -> Outcome {
        match self {
            MadeRun::Done => Outcome::Done,
            MadeRun::Full => Outcome::Uncaught(2),
            MadeRun::Nameless => Outcome::Uncaught(3),
            MadeRun::Trapped => Outcome::Trapped,
            MadeRun::Blocked => Outcome::Blocked,
            MadeRun::Spent | MadeRun::SpentAtOnce => Outcome::Spent,
        }
    }
}

fn history(
    alloc: Global,
    home: Pairs,
    serial: u32,
    name: u32,
    values: &[i64],
) -> Result<History, NoMemory> {
    let values = List::from_slice(alloc, values)?;
    Ok(History {
        chan: chan(alloc, home, serial, name)?,
        values,
    })
}

fn histories(alloc: Global, run: MadeRun) -> Result<List<History>, NoMemory> {
    let mut histories = List::new(alloc);
    if run == MadeRun::Full {
        let numbers = [-9223372036854775808, -1, 0, 1, 9223372036854775807];
        histories.push(history(alloc, &[], 0, 1, &numbers)?)?;
        histories.push(history(alloc, &[], 12, 3, &[5])?)?;
        let home = [(0, 1), (23, 4294967295)];
        histories.push(history(alloc, &home, 4294967295, 0, &[])?)?;
    }
    Ok(histories)
}

fn log(alloc: Global, pairs: Pairs, what: LogWhat) -> Result<Log, NoMemory> {
    Ok(Log {
        path: path(alloc, pairs)?,
        what,
    })
}

fn logs(alloc: Global, run: MadeRun) -> Result<List<Log>, NoMemory> {
    let mut logs = List::new(alloc);
    if run == MadeRun::Full {
        logs.push(log(alloc, &[], LogWhat::Caught(2, 1048576))?)?;
        logs.push(log(alloc, &[], LogWhat::Caught(4294967295, 1))?)?;
        logs.push(log(alloc, &[(0, 0)], LogWhat::Trap(Trap::Overflow, 2))?)?;
        logs.push(log(alloc, &[(0, 1)], LogWhat::Trap(Trap::Zero, 3))?)?;
        logs.push(log(alloc, &[(0, 1), (7, 0)], LogWhat::Trap(Trap::Shift, 4))?)?;
        logs.push(log(alloc, &[(1, 0)], LogWhat::Trap(Trap::Depth, 5))?)?;
    }
    Ok(logs)
}

fn wait(alloc: Global, pairs: Pairs, home: Pairs, serial: u32) -> Result<WaitAt, NoMemory> {
    let path = path(alloc, pairs)?;
    Ok(WaitAt {
        path,
        chan: chan(alloc, home, serial, 0)?,
    })
}

fn waits(alloc: Global, run: MadeRun) -> Result<List<WaitAt>, NoMemory> {
    let mut waits = List::new(alloc);
    if run == MadeRun::Blocked {
        waits.push(wait(alloc, &[], &[], 1)?)?;
        waits.push(wait(alloc, &[(2, 1)], &[(0, 3)], 4)?)?;
    }
    Ok(waits)
}

fn own_steps(alloc: Global, pairs: Pairs, count: u64) -> Result<OwnSteps, NoMemory> {
    Ok(OwnSteps {
        path: path(alloc, pairs)?,
        count,
    })
}

fn own(alloc: Global, run: MadeRun) -> Result<List<OwnSteps>, NoMemory> {
    let mut own = List::new(alloc);
    if run != MadeRun::SpentAtOnce {
        own.push(own_steps(alloc, &[], 4)?)?;
    }
    if run == MadeRun::Spent {
        own.push(own_steps(alloc, &[(10, 2)], 18446744073709551615)?)?;
    }
    Ok(own)
}

fn ended(alloc: Global, run: MadeRun) -> Result<Ended, NoMemory> {
    Ok(Ended {
        output: List::from_slice(alloc, run.output())?,
        histories: histories(alloc, run)?,
        logs: logs(alloc, run)?,
        waits: waits(alloc, run)?,
        own: own(alloc, run)?,
        events: run.events(),
        steps: run.steps(),
        outcome: run.outcome(),
    })
}

// The names of the program.
fn names(alloc: Global) -> Result<List<Name>, NoMemory> {
    let mut names = List::new(alloc);
    names.push(Name::new(alloc, b"main")?)?;
    names.push(Name::new(alloc, b"level")?)?;
    names.push(Name::new(alloc, b"Stop_2")?)?;
    Ok(names)
}

/// The report of a run that was made by hand.
pub fn report_of_made(alloc: Global, run: MadeRun) -> Result<List<u8>, NoMemory> {
    let names = names(alloc)?;
    let ended = ended(alloc, run)?;
    text(alloc, &ended, names.as_slice())
}

// Out of memory in the part of this name.
fn memory_fault(part: &str) -> Option<SourceFault> {
    match part {
        "parse" => Some(SourceFault::Parse(ParseFault::NoMemory)),
        "scope" => Some(SourceFault::Scope(ScopeFault::NoMemory)),
        "share" => Some(SourceFault::Share(ShareFault::NoMemory)),
        _ => None,
    }
}

/// Whether out of memory in the part of this name has a line; nothing where there is no such part.
pub fn has_memory_line(alloc: Global, part: &str) -> Option<bool> {
    match memory_fault(part) {
        None => None,
        Some(fault) => Some(fault_text(alloc, &fault).is_ok()),
    }
}
