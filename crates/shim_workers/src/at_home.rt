// What becomes of processes at home, in the hands of who has the turn of a run.
ghost use Rattle.std.specs.Prelude.{◌≡◌, ◌≤◌, ◌<◌};
ghost use Rattle.shim_workers.specs.Workers.{SameName};

use crate::in_place::step_next;
use crate::lengths::{LONGEST, longer};
use crate::shared_state::SharedState;
use shim_base::NoMemory;
use shim_local::Local;
use shim_net::{Gate, Net};

// How many processes run in place in a turn, before others may bring back what they did.
const RUNS_IN_A_TURN: u64 = 256;

/// How many times pieces are handed out in a turn.
pub(crate) const HAND_OUTS_IN_A_TURN: u64 = 256;

// What a process did in place, and whether it is next again: else it came to another stop, or the budget is spent.
#[derive(Clone, Copy)]
struct RunInPlace {
    steps: u64,
    goes_on: bool,
}

// The number of the process that is next at home, if there is one.
fn next_pid<L: Local>(net: &mut Net<L>) -> Option<u64>
    ensures { SameName net.old net.new }
{
    net.next_home()
}

// The process that is next at home does pieces in place, of which each is up to twice as long as the one before,
// until it comes to another stop or has done so many steps.
fn run_next<L: Local, G: Gate>(
    net: &mut Net<L>,
    first: u64,
    limit: u64,
    gate: &G,
) -> Result<RunInPlace, NoMemory>
    requires first { 1 ≤ first }
    ensures net { SameName net.old net.new }
{
    let pid = next_pid(net);
    let mut most = first;
    let mut done = 0u64;
    while done < limit {
        let asked = most.min(limit - done);
        let Some(taken) = step_next(net, asked, gate)? else {
            return Ok(RunInPlace {
                steps: done,
                goes_on: false,
            });
        };
        done = done.saturating_add(taken);
        // one that used its piece up may be at another stop, too
        if taken < asked || next_pid(net) != pid {
            return Ok(RunInPlace {
                steps: done,
                goes_on: false,
            });
        }
        most = longer(asked);
    }
    Ok(RunInPlace {
        steps: done,
        goes_on: true,
    })
}

/// Pieces that are to be handed out: of at most so many processes that are at home, of so many steps each.
#[derive(Drop)]
pub(crate) struct HandOut {
    pub(crate) pieces: u64,
    pub(crate) steps: u64,
    /// How many of them this worker will do itself.
    pub(crate) own: u64,
    ghost step: { 1 ≤ steps },
}

/// How far who has the turn has come with the processes at home.
#[derive(Drop)]
pub(crate) struct AtHome {
    runs: u64,
    steps: u64,
    // whether the turn is to be left, however few ran
    is_over: bool,
}

impl AtHome {
    /// At the beginning of a turn.
    pub(crate) fn new() -> AtHome {
        AtHome {
            runs: 0,
            steps: 0,
            is_over: false,
        }
    }

    /// Whether a process did steps in place.
    pub(crate) fn has_run(&self) -> bool {
        self.steps > 0
    }

    // The process that is next at home runs in place: all its steps where no other can go on beside it, and else at
    // most as many as handing it over would cost, or 64 if that is more. If the process did all these, the answer is
    // what is to be handed out of it.
    fn run_one<L: Local, G: Gate>(
        &mut self,
        net: &mut Net<L>,
        gate: &G,
        shared_state: &SharedState,
    ) -> Result<Option<HandOut>, NoMemory>
        ensures net { SameName net.old net.new }
    {
        let lengths = shared_state.lengths();
        let is_alone = net.runnable() <= 1;
        let limit = if is_alone {
            u64::MAX
        } else {
            lengths.in_place()
        };
        let run = run_next(net, lengths.first(), limit, gate)?;
        self.is_over = run.steps == 0;
        self.runs = self.runs.saturating_add(1);
        self.steps = self.steps.saturating_add(run.steps);
        if is_alone || !run.goes_on {
            return Ok(None);
        }
        Ok(Some(HandOut {
            pieces: 1,
            steps: lengths.after_those(),
            own: 0,
        }))
    }

    /// Lets processes at home go on in place, and settles the net after each, until pieces are to be handed out.
    /// `None` where the turn is to be left.
    pub(crate) fn run<L: Local, G: Gate>(
        &mut self,
        net: &mut Net<L>,
        gate: &G,
        shared_state: &SharedState,
    ) -> Result<Option<HandOut>, NoMemory>
        ensures net { SameName net.old net.new }
    {
        net.settle()?;
        for _ in 0..RUNS_IN_A_TURN {
            if self.is_over || self.runs >= RUNS_IN_A_TURN || self.steps >= LONGEST {
                return Ok(None);
            }
            if shared_state.hands_out_untried() && net.runnable() > 1 {
                self.is_over = true; // others do what is at home
                return Ok(Some(HandOut {
                    pieces: u64::MAX,
                    steps: shared_state.lengths().first(),
                    own: 1,
                }));
            }
            if let Some(out) = self.run_one(net, gate, shared_state)? {
                return Ok(Some(out));
            }
            net.settle()?;
        }
        Ok(None)
    }
}
