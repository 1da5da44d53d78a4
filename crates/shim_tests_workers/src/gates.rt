// A gate that counts who enters, and holds one of them.
use shim_net::Gate;
use std::sync::atomic::{AtomicU64, Ordering};
use std::thread;

// How often a held worker looks whether it may go on, before that is a failure.
const MOST_LOOKS: u64 = 50_000_000;

// The same where a failure is what is wanted.
const FEW_LOOKS: u64 = 10_000;

/// Which entry a gate holds, and until when.
#[derive(Clone, Copy, PartialEq, Eq)]
pub enum Hold {
    Nobody,
    /// The first process that isn't a root, until any such process has entered once more.
    UntilChild,
    /// The first process that isn't a root, until other processes that are no roots have entered so many times.
    UntilSiblings(u64),
    /// The first entry, until there has been another one. Where one worker does each run, that is of another run.
    UntilRun,
}

impl Hold {
    // Whether a process of this number is held, or counts for the one that is.
    fn regards(self, pid: u64) -> bool {
        match self {
            Hold::Nobody => false,
            Hold::UntilRun => true,
            Hold::UntilChild | Hold::UntilSiblings(_) => pid != 0,
        }
    }

    // How many entries have to come before the held one goes on.
    fn wanted(self) -> u64 {
        match self {
            Hold::UntilSiblings(times) => times,
            Hold::Nobody | Hold::UntilChild | Hold::UntilRun => 1,
        }
    }

    // Whether an entry of the held process lets it go, too.
    fn counts_itself(self) -> bool {
        !matches!(self, Hold::UntilSiblings(_))
    }
}

fn add_one(count: &AtomicU64) -> u64 {
    count.fetch_add(1, Ordering::SeqCst)
}

fn get(count: &AtomicU64) -> u64 {
    count.load(Ordering::SeqCst)
}

/// Counts the entries, and holds the first one of those that it regards. The counts wrap.
#[derive(Drop)]
pub struct WatchingGate {
    hold: Hold,
    most_looks: u64,
    entries: AtomicU64,
    children: AtomicU64,
    not_compiled: AtomicU64,
    // one more than the number of the held process; 0 before one is held
    held: AtomicU64,
    came: AtomicU64,
    holds: AtomicU64,
    failures: AtomicU64,
}

impl WatchingGate {
    /// A gate that holds this entry. With `soon` the held worker looks only `FEW_LOOKS` times before it goes on.
    pub fn new(hold: Hold, soon: bool) -> WatchingGate {
        WatchingGate {
            hold,
            most_looks: if soon { FEW_LOOKS } else { MOST_LOOKS },
            entries: AtomicU64::new(0),
            children: AtomicU64::new(0),
            not_compiled: AtomicU64::new(0),
            held: AtomicU64::new(0),
            came: AtomicU64::new(0),
            holds: AtomicU64::new(0),
            failures: AtomicU64::new(0),
        }
    }

    pub fn entries(&self) -> u64 {
        get(&self.entries)
    }

    /// How many entries weren't of a root.
    pub fn children(&self) -> u64 {
        get(&self.children)
    }

    /// How many entries weren't compiled.
    pub fn not_compiled(&self) -> u64 {
        get(&self.not_compiled)
    }

    /// How many entries were held.
    pub fn holds(&self) -> u64 {
        get(&self.holds)
    }

    /// How many held entries went on by the limit of looks.
    pub fn failures(&self) -> u64 {
        get(&self.failures)
    }

    fn count(&self, pid: u64, compiled: bool) {
        let _before = add_one(&self.entries);
        if pid != 0 {
            let _before = add_one(&self.children);
        }
        if !compiled {
            let _before = add_one(&self.not_compiled);
        }
    }

    // Waits until the others have come.
    fn wait(&self) {
        let _before = add_one(&self.holds);
        for _ in 0..self.most_looks {
            if get(&self.came) >= self.hold.wanted() {
                return;
            }
            thread::yield_now();
        }
        let _before = add_one(&self.failures);
    }

    // Holds the first process that is regarded, and counts the others for it.
    fn regard(&self, pid: u64) {
        let number = pid.saturating_add(1);
        let found = self
            .held
            .compare_exchange(0, number, Ordering::SeqCst, Ordering::SeqCst);
        match found {
            Ok(_) => self.wait(),
            Err(held) => {
                if held != number || self.hold.counts_itself() {
                    let _before = add_one(&self.came);
                }
            }
        }
    }
}

impl Gate for WatchingGate {
    fn enter(&self, pid: u64, compiled: bool) {
        self.count(pid, compiled);
        if self.hold.regards(pid) {
            self.regard(pid);
        }
    }
}
