// The call that does all that the program does.
ghost use Rattle.std.specs.Prelude.{IfOk};
ghost use Rattle.shim_command.specs.Jobs.{job, texts_of};
ghost use Rattle.shim_tool.specs.Moments.{files_at, sink_at, KeepsFiles};
ghost use Rattle.shim_tool.specs.Answer as answers;
ghost use Rattle.shim_tool.specs.Call.{Ran, Writes};
ghost use Rattle.shim_results.specs.RunEnds.{IsDone, IsFailed, IsBlocked};
ghost use Rattle.shim_tool.specs.Rows.{EndRow, SpentRow, CountRow, BeginningRow, BatchRow, WordsRow, RefusedRow, FileRow, SinkRow, MemoryRow, JournalRow, FilesRow, IsComplete};
ghost use Rattle.shim_results.specs.AnswerView.{exit_code};
ghost use Rattle.shim_results.specs.Views.{answer_view};

use crate::prepared::{Prepared, prepare};
use shim_answers::{answer_each, answer_record, answer_run};
use shim_base::NoMemory;
use shim_edge::{Files, Sink, write_all};
use shim_results::{Answer, ExitStatus};
use shim_workers::Gate;
use std::alloc::Global;
use std::sync::Wait;
use std::thread::Threads;

// Answers words: a run that was left to be done is done by workers, for whom the call waits. Runs on several
// inputs are done without a wait.
fn answer<F: Files, G: Gate, R: Threads + Wait + Sync>(
    rt: &R,
    alloc: Global,
    words: &[String],
    files: &mut F,
    gate: &G,
) -> Result<Answer, NoMemory>
    ensures answers { IfOk result (λ a. answers.Answers (job (texts_of words.now)) (files_at F.held F.sound F.failed files.old)
        (files_at F.held F.sound F.failed files.new) (answer_view a)) }
    ensures grew { answers.FailedGrew (job (texts_of words.now)) (files_at F.held F.sound F.failed files.old)
        (files_at F.held F.sound F.failed files.new) }
    ensures kept { KeepsFiles (files_at F.held F.sound F.failed files.old) (files_at F.held F.sound F.failed files.new) }
{
    match prepare(alloc, words, files)? {
        Prepared::Answered(answer) => Ok(answer),
        Prepared::ToRun(run) => answer_run(rt, alloc, run, gate),
        Prepared::ToRecord(run) => answer_record(rt, alloc, run, gate),
        Prepared::ToRunEach(run) => answer_each(rt, alloc, run, gate),
    }
}

// Writes an answer, and gives the status that stands then.
fn written<K: Sink>(out: &mut K, status: ExitStatus, text: &[u8]) -> u8
    ensures { Writes (sink_at K.taken K.faults out.old) (sink_at K.taken K.faults out.new)
        (record { status = exit_code status; text = text.now }) result }
{
    match write_all(out, text) {
        Ok(()) => status.code(),
        Err(_) => ExitStatus::SinkFault.code(),
    }
}

/// Writes the answer for out of memory, for a program that found none to read its words. Status 7
/// comes only where the sink failed in this call, with a part of the line taken.
#[tactic(auto, unfolding(crate::specs::Answer::memory_line))]
pub fn write_no_memory<K: Sink>(out: &mut K) -> u8
    ensures { Writes (sink_at K.taken K.faults out.old) (sink_at K.taken K.faults out.new) answers.no_memory result }
{
    written(out, ExitStatus::NoMemory, b"no memory\n")
}

fn run_tool<F: Files, K: Sink, G: Gate, R: Threads + Wait + Sync>(
    rt: &R,
    alloc: Global,
    words: &[String],
    files: &mut F,
    out: &mut K,
    gate: &G,
) -> u8
    ensures { Ran (job (texts_of words.now)) (files_at F.held F.sound F.failed files.old)
        (files_at F.held F.sound F.failed files.new) (sink_at K.taken K.faults out.old)
        (sink_at K.taken K.faults out.new) result }
{
    match answer(rt, alloc, words, files, gate) {
        Ok(answer) => written(out, answer.status, answer.text.as_slice()),
        Err(NoMemory) => write_no_memory(out),
    }
}

/// Does all that the program does: what `prepare` does, then the run that is left to be done, or the runs
/// on several inputs, and writes the answer. No byte is written before the whole text is there. What needs
/// no thread is in `prepare`, whose type says so; no clause says of this call where it waits, or that it
/// returns.
///
/// The processes of a run do their work piece by piece, each piece behind the gate, on at most as many
/// threads as the arguments ask for. Whatever their number and the order of events, the run ends as its meaning
/// does, with the text of that, where the meaning ends within the budget. Else it is stopped at a tree to
/// which some run of just the budget's events leads, and that is printed. Where the journal of the run is printed
/// in place of the report, it is that of a run to such a tree, and its own report is what a replay of it
/// prints: a journal is replayed exactly where it is a run of the source, within the journal's own budget,
/// that ends quiescent or with the budget spent.
///
/// Of runs on several inputs at most as many are done at a time as the arguments ask for workers, each by one worker;
/// their reports are written in the order of the inputs, each after the line of its input, and the status is the
/// greatest that a meaning has. No clause says that the source is compiled once for all of them.
///
/// Answers the status that the program ends with. A failed write, which is 7, may come in place of any status,
/// out of memory, which is 8, in place of any but 7, and a failed read, which is 6, of any but 2, 7 and 8.
pub fn shim<F: Files, K: Sink, G: Gate, R: Threads + Wait + Sync>(
    rt: &R,
    alloc: Global,
    words: &[String],
    files: &mut F,
    out: &mut K,
    gate: &G,
) -> u8
    // What the call comes to.
    ensures ran { Ran (job (texts_of words.now)) (files_at F.held F.sound F.failed files.old)
        (files_at F.held F.sound F.failed files.new) (sink_at K.taken K.faults out.old)
        (sink_at K.taken K.faults out.new) result }
    // What follows says "exactly where" of known files, within their limits. Of other files each clause says
    // that there is some source, fault or cause that fits. Statuses 0, 1, 3 and 4 are said of words that ask
    // for one run, or for none, up to `batch`, which says them of words that ask for several.
    // 0: exactly where the root of the source ends in its meaning, with the text of the mode, as the report
    // of that meaning; of a source that isn't run, exactly where it is accepted.
    ensures done { EndRow 0 IsDone (job (texts_of words.now)) (files_at F.held F.sound F.failed files.old)
        (files_at F.held F.sound F.failed files.new) (sink_at K.taken K.faults out.old)
        (sink_at K.taken K.faults out.new) result }
    // 1: exactly where the root dies of an exception that nobody caught, or of a trap; with that text.
    ensures failed { EndRow 1 IsFailed (job (texts_of words.now)) (files_at F.held F.sound F.failed files.old)
        (files_at F.held F.sound F.failed files.new) (sink_at K.taken K.faults out.old)
        (sink_at K.taken K.faults out.new) result }
    // 2: exactly where the arguments have no job.
    ensures words { WordsRow (job (texts_of words.now)) (sink_at K.taken K.faults out.old)
        (sink_at K.taken K.faults out.new) result }
    // 3: exactly where nothing can happen any more and the root has neither ended nor died; with that
    // text.
    ensures blocked { EndRow 3 IsBlocked (job (texts_of words.now)) (files_at F.held F.sound F.failed files.old)
        (files_at F.held F.sound F.failed files.new) (sink_at K.taken K.faults out.old)
        (sink_at K.taken K.faults out.new) result }
    // 4: exactly where something can still happen in the meaning after the budget's events. `ref` and `why` print the
    // meaning itself, and `run` and `gen` a tree that some run of just the budget's events reaches; `trace` prints
    // the journal of a run to such a tree, and `replay` the tree to which its journal leads.
    ensures spent { SpentRow (job (texts_of words.now)) (files_at F.held F.sound F.failed files.old)
        (files_at F.held F.sound F.failed files.new) (sink_at K.taken K.faults out.old)
        (sink_at K.taken K.faults out.new) result }
    // Then the own steps and the events that a report prints add up to the budget.
    ensures counts { CountRow (job (texts_of words.now)) (files_at F.held F.sound F.failed files.old)
        (sink_at K.taken K.faults out.old) (sink_at K.taken K.faults out.new) result }
    // In the tree that is printed what was put, and what each channel gave, are prefixes of what the meaning
    // gives in as many rounds as the budget has events.
    ensures beginning { BeginningRow (job (texts_of words.now)) (files_at F.held F.sound F.failed files.old)
        (sink_at K.taken K.faults out.old) (sink_at K.taken K.faults out.new) result }
    // 0, 1, 3 and 4 of runs on several inputs: exactly where the file is a source, with the report of each
    // input's meaning, or of a tree that some run of just the budget's events reaches; the greatest of the
    // statuses of the meanings.
    ensures batch { BatchRow (job (texts_of words.now)) (files_at F.held F.sound F.failed files.old)
        (files_at F.held F.sound F.failed files.new) (sink_at K.taken K.faults out.old)
        (sink_at K.taken K.faults out.new) result }
    // 5: exactly where the file is no source, with the line of the cause.
    ensures refused { RefusedRow (job (texts_of words.now)) (files_at F.held F.sound F.failed files.old)
        (files_at F.held F.sound F.failed files.new) (sink_at K.taken K.faults out.old)
        (sink_at K.taken K.faults out.new) result }
    // 6: only where a read of the file, of an input or of the journal failed, or one of them is too long; exactly
    // where one of them, after known ones within their limits, is known to be too long or not to be there.
    ensures file { FileRow (job (texts_of words.now)) (files_at F.held F.sound F.failed files.old)
        (files_at F.held F.sound F.failed files.new) (sink_at K.taken K.faults out.old)
        (sink_at K.taken K.faults out.new) result }
    // 7: only where the sink failed in this call.
    ensures sink { SinkRow (job (texts_of words.now)) (files_at F.held F.sound F.failed files.old)
        (files_at F.held F.sound F.failed files.new) (sink_at K.taken K.faults out.old)
        (sink_at K.taken K.faults out.new) result }
    // 8: out of memory.
    ensures memory { MemoryRow (sink_at K.taken K.faults out.old) (sink_at K.taken K.faults out.new) result }
    // 9: exactly where the journal of a source that is accepted is refused, with the line of the cause.
    ensures journal { JournalRow (job (texts_of words.now)) (files_at F.held F.sound F.failed files.old)
        (files_at F.held F.sound F.failed files.new) (sink_at K.taken K.faults out.old)
        (sink_at K.taken K.faults out.new) result }
    // The files stay, and no name but one that was asked for is added to the failed ones.
    ensures files { FilesRow (job (texts_of words.now)) (files_at F.held F.sound F.failed files.old)
        (files_at F.held F.sound F.failed files.new) }
    // Where nothing fails, the whole text of a source is written, unless memory is wanted.
    ensures complete { IsComplete (job (texts_of words.now)) (files_at F.held F.sound F.failed files.old)
        (sink_at K.taken K.faults out.old) (sink_at K.taken K.faults out.new) result }
{
    let status = run_tool(rt, alloc, words, files, out, gate);
    status
}
