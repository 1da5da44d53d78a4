// Each of several jobs in a thread of its own, where one can be made.
ghost use Rattle.std.specs.Prelude.{◌≡◌, length, IfOk};
ghost use denote.Param.Send.{IsSync, IsSend};
ghost use Rattle.std.specs.Fn.{FnReturns};
ghost use Rattle.std.specs.Fork.{AcceptsJobs, GivesJobs};

use shim_base::NoMemory;
use std::thread;
use std::thread::Threads;

/// Calls a function with each job, each call in a thread of its own, or in this one where none can be made, and
/// returns the results in the order of the jobs. This thread starts all others, one after another, and then waits: so
/// no job waits for threads that another one has to start.
///
/// # Errors
///
/// Out of memory for the results.
#[cycle(each)]
pub(crate) fn each_in_a_thread<
    R: Threads + Sync,
    J: Send + Drop,
    X: Send + Drop,
    F: Fn(J) -> X + Sync,
>(rt: &R, mut jobs: Vec<J>, f: &F) -> Result<Vec<X>, NoMemory>
    requires { AcceptsJobs F.Fn f.now jobs.items }
    ensures len { IfOk result (λ v. length v.items ≡ length jobs.items) }
    ensures each { IfOk result (λ v. GivesJobs F.Fn f.now jobs.items v.items) }
{
    let Some(last) = jobs.pop() else {
        return Ok(Vec::new(*jobs.allocator()));
    };
    let one = move || -> X
        requires { IsSync F.row × IsSend J.row × IsSend X.row × F.pre f.now last }
        ensures { FnReturns F.Fn f.entry.now (last, tt) result }
    { f(last) };
    let others = move || -> Result<Vec<X>, NoMemory>
        requires { IsSync R.row × IsSync F.row × IsSend J.row × IsSend X.row × AcceptsJobs F.Fn f.now jobs.items }
        ensures { IfOk result (λ v. (length v.items ≡ length jobs.items) × GivesJobs F.Fn f.entry.now jobs.items v.items) }
    { each_in_a_thread(rt, jobs, f) };
    let (done, before) = thread::join(rt, one, others);
    let mut all = before?;
    all.push(done)?;
    Ok(all)
}
