// What is done without a thread: the words, the files, each refusal, and what is printed of a source that
// workers don't run.
ghost use Rattle.std.specs.Prelude.{◌≡◌, ◌≤◌, IfOk, length};
ghost use Rattle.shim_command.specs.Jobs.{IsWithin, job, texts_of};
ghost use Rattle.shim_tool.specs.Moments.{files_at, KeepsFiles};
ghost use Rattle.shim_command.specs.Modes.{row_of};
ghost use Rattle.shim_command.specs.declared.mode.Origin.TheVariants as origins;
ghost use Rattle.shim_command.specs.declared.mode.Task.TheVariants as tasks;
ghost use Rattle.shim_tool.specs.Modes.{first_content, journal_in, made_text, reads_of, text_from};
ghost use Rattle.shim_tool.specs.Views.{beside_view};
ghost use Rattle.shim_tool.specs.Reads.{GrewByOneOf, all};
ghost use Rattle.shim_tool.specs.Answer.{FailedGrew};
ghost use Rattle.shim_tool.specs.Prepared as prepares;
ghost use Rattle.shim_tool.specs.PreparedView.{prepared_view};

use crate::files::{Beside, Contents, FilesRead, contents_of, read_files};
use crate::lines::{file_failed, file_too_long, usage};
use shim_answers::{PreparedRun, RunOfEach, RunToRecord, answer_description, answer_replay};
use shim_base::{List, NoMemory};
use shim_command::{Course, Job, Kind, Origin, Showing, Task, WordsFault, read_words};
use shim_edge::Files;
use shim_front_end::read_source;
use shim_generator::generate;
use shim_results::{Answer, answer_meaning, answer_reasons, refused};
use std::alloc::Global;

/// What a call comes to before any thread is wanted.
#[derive(Drop)]
pub enum Prepared {
    Answered(Answer),
    ToRun(PreparedRun),
    ToRecord(RunToRecord),
    ToRunEach(RunOfEach),
}

// Keeps the source in a text to be run by workers.
fn leave_to_workers(
    alloc: Global,
    job: Job,
    showing: Showing,
    bytes: &[u8],
    input: List<u8>,
) -> Result<Prepared, NoMemory>
    requires short { length bytes.now ≤ 1048576 }
    ensures { IfOk result (λ p. prepares.LeavesToWorkers job showing input bytes.now (prepared_view p)) }
{
    match read_source(alloc, bytes) {
        Ok(source) => Ok(Prepared::ToRun(PreparedRun {
            job,
            showing,
            source,
            input,
        })),
        Err(fault) => Ok(Prepared::Answered(refused(alloc, fault)?)),
    }
}

// Keeps the source in a text to be run by workers and recorded.
fn leave_to_record(
    alloc: Global,
    job: Job,
    bytes: &[u8],
    input: List<u8>,
) -> Result<Prepared, NoMemory>
    requires short { length bytes.now ≤ 1048576 }
    ensures { IfOk result (λ p. prepares.LeavesToRecord job input bytes.now (prepared_view p)) }
{
    match read_source(alloc, bytes) {
        Ok(source) => Ok(Prepared::ToRecord(RunToRecord { job, source, input })),
        Err(fault) => Ok(Prepared::Answered(refused(alloc, fault)?)),
    }
}

// Keeps the source in a text to be run by workers, once on each of these inputs.
fn leave_to_run_each(
    alloc: Global,
    job: Job,
    bytes: &[u8],
    inputs: List<List<u8>>,
) -> Result<Prepared, NoMemory>
    requires short { length bytes.now ≤ 1048576 }
    ensures { IfOk result (λ p. prepares.LeavesToRunEach job inputs bytes.now (prepared_view p)) }
{
    match read_source(alloc, bytes) {
        Ok(source) => Ok(Prepared::ToRunEach(RunOfEach {
            job,
            source,
            inputs,
        })),
        Err(fault) => Ok(Prepared::Answered(refused(alloc, fault)?)),
    }
}

// Answers what the source in a text means, or leaves its run to workers, as the course asks.
fn prepare_run(
    alloc: Global,
    job: Job,
    course: Course,
    showing: Showing,
    bytes: &[u8],
    input: List<u8>,
) -> Result<Prepared, NoMemory>
    requires short { length bytes.now ≤ 1048576 }
    requires within { IsWithin job }
    requires runs { (row_of job.mode).task ≡ tasks.Runs course showing }
    ensures { IfOk result (λ p. prepares.PreparesRun job input bytes.now (prepared_view p)) }
{
    match course {
        Course::ByFirstEvents => Ok(Prepared::Answered(answer_meaning(
            alloc, &job, showing, bytes, input,
        )?)),
        Course::InSomeOrder => leave_to_workers(alloc, job, showing, bytes, input),
    }
}

// Does what the mode asks for with the source in a text, of at most 1,048,576 bytes.
fn prepare_source(
    alloc: Global,
    job: Job,
    bytes: &[u8],
    beside: Beside,
) -> Result<Prepared, NoMemory>
    requires short { length bytes.now ≤ 1048576 }
    requires few { length beside.journal ≤ 67108864 }
    requires within { IsWithin job }
    ensures { IfOk result (λ p. prepares.PreparesSource job (beside_view beside) bytes.now (prepared_view p)) }
{
    let Beside {
        input,
        journal,
        inputs,
    } = beside;
    match job.mode.row().task {
        Task::Describes(description) => Ok(Prepared::Answered(answer_description(
            alloc,
            description,
            bytes,
        )?)),
        Task::Runs(course, showing) => prepare_run(alloc, job, course, showing, bytes, input),
        Task::Records => leave_to_record(alloc, job, bytes, input),
        Task::Replays => Ok(Prepared::Answered(answer_replay(
            alloc,
            bytes,
            input,
            journal.as_slice(),
        )?)),
        Task::Explains => Ok(Prepared::Answered(answer_reasons(alloc, &job, bytes, input)?)),
        Task::RunsEach => leave_to_run_each(alloc, job, bytes, inputs),
    }
}

// The text that is generated for a job, of the kind that FILE names.
fn generated_text(alloc: Global, job: &Job) -> Result<List<u8>, NoMemory>
    ensures text { IfOk result (λ text. text ≡ made_text job.now) }
    ensures short { IfOk result (λ text. length text ≤ 1048576) }
{
    match Kind::named(job.file.as_slice()) {
        Some(kind) => generate(alloc, kind, job.size),
        None => Ok(List::new(alloc)),
    }
}

// The text of a job's source: that which was read first, or one that is generated.
fn source_of(alloc: Global, job: &Job, first: List<u8>) -> Result<List<u8>, NoMemory>
    requires { (row_of job.now.mode).origin ≡ origins.Stored → length first ≤ 1048576 }
    ensures text { IfOk result (λ text. text ≡ text_from (row_of job.now.mode).origin job.now first) }
    ensures short { IfOk result (λ text. length text ≤ 1048576) }
{
    match job.mode.row().origin {
        Origin::Stored => Ok(first),
        Origin::Generated => generated_text(alloc, job),
    }
}

// Goes on with the contents of all files of a job.
fn prepare_contents(alloc: Global, job: Job, contents: List<List<u8>>) -> Result<Prepared, NoMemory>
    requires within { IsWithin job }
    requires short { (row_of job.mode).origin ≡ origins.Stored → length (first_content contents) ≤ 1048576 }
    requires few { length (journal_in job contents) ≤ 67108864 }
    ensures { IfOk result (λ p. prepares.PreparesRead job (all contents) (prepared_view p)) }
{
    let Contents { source, beside } = contents_of(alloc, &job, contents);
    let text = source_of(alloc, &job, source)?;
    prepare_source(alloc, job, text.as_slice(), beside)
}

// Reads the files of a job, and goes on with them.
fn prepare_job<F: Files>(alloc: Global, job: Job, files: &mut F) -> Result<Prepared, NoMemory>
    requires within { IsWithin job }
    ensures prepared { IfOk result (λ p. prepares.PreparesJob job (files_at F.held F.sound F.failed files.old)
        (files_at F.held F.sound F.failed files.new) (prepared_view p)) }
    ensures grew { GrewByOneOf (reads_of job) (files_at F.held F.sound F.failed files.old)
        (files_at F.held F.sound F.failed files.new) }
    ensures kept { KeepsFiles (files_at F.held F.sound F.failed files.old) (files_at F.held F.sound F.failed files.new) }
{
    match read_files(alloc, &job, files)? {
        FilesRead::All(contents) => prepare_contents(alloc, job, contents),
        FilesRead::Failed(file) => Ok(Prepared::Answered(file_failed(alloc, file.name)?)),
        FilesRead::TooLong(file) => Ok(Prepared::Answered(file_too_long(
            alloc, file.name, file.limit,
        )?)),
    }
}

/// Does what needs no thread: reads the arguments, of which the first is the program's own name, then the
/// files that the mode reads, and then the source; answers what is refused on the way, and what is printed of a
/// source that workers don't run. It starts no thread, waits for nothing, and returns.
///
/// A run is left to be done exactly where the mode has its sources run by workers and the text is a
/// source, which is left with its input; and so is one that is to be recorded, and so are runs on several
/// inputs, of which there are as many as the arguments name. "Exactly where" is said of known files, within
/// their limits; of other files, that there is such a source. A read that failed may come in place of
/// both, and so may out of memory, which is `Err`.
pub fn prepare<F: Files>(
    alloc: Global,
    words: &[String],
    files: &mut F,
) -> Result<Prepared, NoMemory>
    ensures prepared { IfOk result (λ p. prepares.Prepares (job (texts_of words.now)) (files_at F.held F.sound F.failed files.old)
        (files_at F.held F.sound F.failed files.new) (prepared_view p)) }
    ensures run { IfOk result (λ p. prepares.RunRow (job (texts_of words.now)) (files_at F.held F.sound F.failed files.old)
        (files_at F.held F.sound F.failed files.new) (prepared_view p)) }
    ensures recorded { IfOk result (λ p. prepares.RecordRow (job (texts_of words.now)) (files_at F.held F.sound F.failed files.old)
        (files_at F.held F.sound F.failed files.new) (prepared_view p)) }
    ensures each { IfOk result (λ p. prepares.EachRow (job (texts_of words.now)) (files_at F.held F.sound F.failed files.old)
        (files_at F.held F.sound F.failed files.new) (prepared_view p)) }
    ensures within { IfOk result (λ p. prepares.IsPreparedWithin (prepared_view p)) }
    ensures grew { FailedGrew (job (texts_of words.now)) (files_at F.held F.sound F.failed files.old)
        (files_at F.held F.sound F.failed files.new) }
    ensures kept { KeepsFiles (files_at F.held F.sound F.failed files.old) (files_at F.held F.sound F.failed files.new) }
{
    match read_words(alloc, words) {
        Ok(job) => prepare_job(alloc, job, files),
        Err(WordsFault::Refused) => Ok(Prepared::Answered(usage(alloc)?)),
        Err(WordsFault::NoMemory) => Err(NoMemory),
    }
}
