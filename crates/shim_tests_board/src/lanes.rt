// Workers on threads, each with a lane, of whom the first alone pushes.
ghost use Rattle.std.specs.Prelude.{◌≡◌, ◌≤◌, ◌<◌};
ghost use Rattle.shim_steal.specs.Lanes.{home_of, lanes_of};

use crate::taken::{Taken, is_whole};
use shim_base::NoMemory;
use shim_steal::{Lane, Piece, lanes};
use std::alloc::Global;
use std::sync::Wait;
use std::sync::atomic::{AtomicU64, Ordering};
use std::thread;
use std::thread::Threads;

/// How many pieces may be pushed and not yet taken before the first worker pushes no more.
const MOST_WAITING: u64 = 64;

// The first piece of the own lane, or of the first other one that has any.
fn take_any<R: Wait>(rt: &R, lane: &mut Lane<u64>) -> Option<Piece<u64>>
    ensures { (home_of lane.new ≡ home_of lane.old) × (lanes_of lane.new ≡ lanes_of lane.old) }
{
    if let Some(piece) = lane.pop() {
        return Some(piece);
    }
    for from in 0..lane.count() {
        if from != lane.home() {
            if let Some(piece) = lane.steal(rt, from) {
                return Some(piece);
            }
        }
    }
    None
}

// Pushes the next pieces, each with its number as its value, until `MOST_WAITING` wait, a push is refused or all are
// pushed. Answers how many were pushed so far.
fn push_some(lane: &mut Lane<u64>, pushed: u64, pieces: u64, left: u64, taken: &mut Taken) -> u64 {
    let mut pushed = pushed;
    for _ in 0..MOST_WAITING {
        let waiting = pushed.wrapping_add(left).wrapping_sub(pieces);
        if pushed >= pieces || waiting >= MOST_WAITING {
            return pushed;
        }
        match lane.push(pushed) {
            Ok(number) => {
                if number != pushed {
                    taken.spoil();
                }
                pushed += 1;
            }
            Err(_refused) => return pushed,
        }
    }
    pushed
}

// Takes pieces until none is left. The worker of lane 0 pushes some before it takes each.
fn worker<R: Wait>(
    rt: &R,
    alloc: Global,
    mut lane: Lane<u64>,
    pieces: u64,
    left: &AtomicU64,
) -> Taken {
    let mut taken = Taken::new(alloc);
    let mut pushed = if lane.home() == 0 { 0 } else { pieces };
    for _ in rt.forever() {
        let now_left = left.load(Ordering::SeqCst);
        if now_left == 0 {
            break;
        }
        pushed = push_some(&mut lane, pushed, pieces, now_left, &mut taken);
        match take_any(rt, &mut lane) {
            Some(piece) => {
                taken.note(&piece);
                let _before = left.fetch_sub(1, Ordering::SeqCst);
            }
            None => thread::yield_now(),
        }
    }
    taken
}

/// Lets so many workers, each on a thread, take so many pieces, which the first one pushes into its lane. Tells
/// whether each piece was taken once, and by each worker in the order of the numbers.
pub fn run<R: Threads + Wait + Sync>(
    rt: &R,
    alloc: Global,
    workers: u64,
    pieces: u64,
) -> Result<bool, NoMemory>
    requires { (1 ≤ workers) × (workers ≤ 16) }
{
    let left = AtomicU64::new(pieces);
    let lanes = lanes(alloc, workers)?;
    let all = thread::map_vec(
        rt,
        lanes.into_vec(),
        &|lane: Lane<u64>| -> Taken { worker(rt, alloc, lane, pieces, &left) },
    )?;
    is_whole(alloc, &all, pieces)
}
