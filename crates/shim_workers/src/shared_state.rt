// What the workers of a run share beside the board.
ghost use Rattle.std.specs.Prelude.{◌≤◌};

use crate::lengths::Lengths;
use std::sync::Wait;
use std::sync::atomic::{AtomicU64, Ordering};
use std::time::Duration;
use std::{hint, thread};

/// How often an idle worker tries again at once.
const SPINS: u64 = 64;

/// How often it has tried when it begins to sleep in between.
const TRIES_AWAKE: u64 = 96;

/// The first sleep, in microseconds. Each one is longer than the one before by as much.
const SHORTEST_SLEEP: u64 = 50;

/// The longest sleep, in microseconds.
const LONGEST_SLEEP: u64 = 5_000;

/// How many pieces may stop early before all processes are tried in place.
const PATIENCE: u64 = 8;

/// Up to how many steps in place are so few that processes may be handed out without them.
const FEW_IN_PLACE: u64 = 1_000;

const HALF_A_WORD: u64 = 1 << 32;

/// What the run has come to.
const RUNNING: u64 = 0;

const ENDED: u64 = 1;

const WANTED_MEMORY: u64 = 2;

/// What the run has come to, which workers sleep, how long pieces are, and whether they are worth their price.
#[derive(Drop)]
pub(crate) struct SharedState {
    lengths: Lengths,
    begun: AtomicU64,
    // RUNNING, ENDED or WANTED_MEMORY
    state: AtomicU64,
    // goes up with all that may concern an idle worker, and these sleep on it
    epoch: AtomicU64,
    asleep: AtomicU64,
    // how many pieces came back without being used up, and from how many on each process is tried in place first
    early: AtomicU64,
    patience: u64,
}

impl SharedState {
    pub(crate) fn new(lengths: Lengths) -> SharedState {
        let is_cheap = lengths.in_place() <= FEW_IN_PLACE;
        SharedState {
            lengths,
            begun: AtomicU64::new(0),
            state: AtomicU64::new(RUNNING),
            epoch: AtomicU64::new(0),
            asleep: AtomicU64::new(0),
            early: AtomicU64::new(0),
            patience: if is_cheap { PATIENCE } else { 0 },
        }
    }

    /// How long pieces are.
    pub(crate) fn lengths(&self) -> &Lengths {
        &self.lengths
    }

    /// The number of a worker that begins, from 0.
    pub(crate) fn next_index(&self) -> u64 {
        self.begun.fetch_add(1, Ordering::SeqCst)
    }

    // The run has come to this state. All idle workers wake, so that they end, too.
    fn stop(&self, state: u64) {
        self.state.store(state, Ordering::SeqCst);
        let _before = self.epoch.fetch_add(1, Ordering::SeqCst);
        self.epoch.wake_all();
    }

    /// The run has come to its end.
    pub(crate) fn end(&self) {
        self.stop(ENDED);
    }

    /// Memory was wanted, and so the run ends.
    pub(crate) fn want_memory(&self) {
        self.stop(WANTED_MEMORY);
    }

    /// Whether memory was wanted.
    pub(crate) fn wanted_memory(&self) -> bool {
        self.state.load(Ordering::SeqCst) == WANTED_MEMORY
    }

    /// Whether the run goes on.
    pub(crate) fn is_running(&self) -> bool {
        self.state.load(Ordering::SeqCst) == RUNNING
    }

    /// A piece came back that was not used up.
    pub(crate) fn note_early_stop(&self) {
        let _before = self.early.fetch_add(1, Ordering::SeqCst);
    }

    /// Whether processes are handed out that nobody has tried, so that a run that forks into long branches
    /// begins on all workers at the same time. Once some pieces were not used up, each process is tried in
    /// place first, and so it is where handing out is dear.
    pub(crate) fn hands_out_untried(&self) -> bool {
        self.early.load(Ordering::SeqCst) < self.patience
    }

    /// What a worker has to know before it looks for work, so that it doesn't sleep over what comes
    /// meanwhile.
    pub(crate) fn epoch(&self) -> u64 {
        self.epoch.load(Ordering::SeqCst)
    }

    /// There is work for so many more workers: wakes as many of those that sleep.
    pub(crate) fn wake(&self, workers: u64) {
        if workers == 0 {
            return;
        }
        let _before = self.epoch.fetch_add(1, Ordering::SeqCst);
        let asleep = self.asleep.load(Ordering::SeqCst);
        for _ in 0..workers.min(asleep) {
            self.epoch.wake_one();
        }
    }

    // Sleeps until the epoch is another than this one, and at most so long.
    fn sleep<R: Wait>(&self, rt: &R, epoch: u64, micros: u64) {
        let _before = self.asleep.fetch_add(1, Ordering::SeqCst);
        let seen = (epoch % HALF_A_WORD) as u32; // who sleeps looks at that much of a word
        self.epoch
            .park_timeout(rt, seen, Duration::from_micros(micros));
        let _before = self.asleep.fetch_sub(1, Ordering::SeqCst);
    }

    // Lets a worker rest that has found nothing to do so many times: first not at all, so that short work
    // is handed over fast, then until others have had the processor, and then until it is called, or for
    // longer each time.
    fn back_off<R: Wait>(&self, rt: &R, epoch: u64, tries: u64) {
        if tries < SPINS {
            hint::spin_loop();
        } else if tries < TRIES_AWAKE {
            thread::yield_now();
        } else {
            let sleeps = tries - TRIES_AWAKE + 1;
            let micros = sleeps.saturating_mul(SHORTEST_SLEEP);
            self.sleep(rt, epoch, micros.min(LONGEST_SLEEP));
        }
    }

    /// At most so many tries that a worker doesn't sleep after them. A worker asks this if it has something that
    /// must not wait.
    pub(crate) fn capped_tries(tries: u64) -> u64 {
        tries.min(SPINS)
    }

    /// How many times in a row a worker has found nothing to do, after one more look; `tries` is how many they were
    /// before it. Where it found nothing again it rests.
    pub(crate) fn after_look<R: Wait>(&self, rt: &R, epoch: u64, tries: u64, found: bool) -> u64 {
        if found {
            return 0;
        }
        self.back_off(rt, epoch, tries);
        tries.saturating_add(1)
    }
}
