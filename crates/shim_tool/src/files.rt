// The files that a job reads, one after the other.
ghost use Rattle.std.specs.Prelude.{◌≡◌, ◌≤◌, ◌++◌, IfOk, OnErr, OnOk, length, map};
ghost use Rattle.shim_command.specs.Modes.{row_of};
ghost use Rattle.shim_command.specs.declared.mode.Origin.TheVariants as origins;
ghost use Rattle.shim_tool.specs.Moments.{files_at, KeepsFiles};
ghost use Rattle.shim_tool.specs.Modes as modes;
ghost use Rattle.shim_tool.specs.Reads.{ReadsAll, ReadsOne};
ghost use Rattle.shim_tool.specs.Views.{beside_view, found_view, read_view, reading_view, result_of_read};

use shim_base::{List, NoMemory};
use shim_command::{Extra, Job, Origin};
use shim_edge::{FileFault, Files, Got};
use std::alloc::Global;

/// The most bytes that a source has.
const SOURCE_LIMIT: usize = 1_048_576;

/// The most bytes that an input has.
const INPUT_LIMIT: usize = 16_777_216;

/// The most bytes that a journal has.
const JOURNAL_LIMIT: usize = 67_108_864;

/// A file that is read, and the most bytes that it may have.
#[derive(Clone, Copy, Drop)]
pub(crate) struct FileToRead<'a> {
    pub(crate) name: &'a [u8],
    pub(crate) limit: usize,
}

/// What came of reading files up to the first that can't be had.
#[derive(Drop)]
pub(crate) enum FilesRead<'a> {
    /// The contents of all of them.
    All(List<List<u8>>),
    /// This one couldn't be read.
    Failed(FileToRead<'a>),
    /// This one has more bytes than it may have.
    TooLong(FileToRead<'a>),
}

// What the read of a file gave.
#[derive(Drop)]
enum Found {
    Unread,
    Longer,
    Whole(List<u8>),
}

impl From<Got> for Found {
    ghost use Rattle.std.specs.Prelude.{◌≡◌};
    ghost use Rattle.shim_tool.specs.Views.{found_view, result_of_read};

    ghost from_gives = { λ got found. found_view found ≡ result_of_read got };

    fn from(got: Got) -> Found {
        match got {
            Got::Whole(bytes) => Found::Whole(bytes),
            Got::Longer => Found::Longer,
        }
    }
}

// Lists the file of a job's source, if it has one.
fn list_source<'a>(
    files: &mut List<FileToRead<'a>>,
    origin: Origin,
    job: &'a Job,
) -> Result<(), NoMemory>
    ensures { OnOk result (map reading_view files.new ≡ map reading_view files.old ++ modes.source_readings origin job.now) }
{
    match origin {
        Origin::Stored => files.push(FileToRead {
            name: job.file.as_slice(),
            limit: SOURCE_LIMIT,
        }),
        Origin::Generated => Ok(()),
    }
}

// Lists the file of a job's input, if one is named.
fn list_input<'a>(files: &mut List<FileToRead<'a>>, job: &'a Job) -> Result<(), NoMemory>
    ensures { OnOk result (map reading_view files.new ≡ map reading_view files.old ++ modes.input_readings job.now.input) }
{
    match &job.input {
        Some(name) => files.push(FileToRead {
            name: name.as_slice(),
            limit: INPUT_LIMIT,
        }),
        None => Ok(()),
    }
}

// Lists the file of a job's journal, if one is named.
fn list_journal<'a>(files: &mut List<FileToRead<'a>>, job: &'a Job) -> Result<(), NoMemory>
    ensures { OnOk result (map reading_view files.new ≡ map reading_view files.old ++ modes.journal_readings job.now.journal) }
{
    match &job.journal {
        Some(name) => files.push(FileToRead {
            name: name.as_slice(),
            limit: JOURNAL_LIMIT,
        }),
        None => Ok(()),
    }
}

// Lists the files of a job's inputs, in their order.
fn list_inputs<'a>(files: &mut List<FileToRead<'a>>, names: &'a [List<u8>]) -> Result<(), NoMemory>
    ensures { OnOk result (map reading_view files.new ≡ map reading_view files.old ++ modes.inputs_readings names.now) }
{
    for name in names {
        files.push(FileToRead {
            name: name.as_slice(),
            limit: INPUT_LIMIT,
        })?;
    }
    Ok(())
}

// Lists what a job reads beside its source.
fn list_beside<'a>(
    files: &mut List<FileToRead<'a>>,
    beside: Extra,
    job: &'a Job,
) -> Result<(), NoMemory>
    ensures { OnOk result (map reading_view files.new ≡ map reading_view files.old ++ modes.readings_beside beside job.now) }
{
    match beside {
        Extra::Nothing => Ok(()),
        Extra::Input => list_input(files, job),
        Extra::InputAndJournal => {
            list_input(files, job)?;
            list_journal(files, job)
        }
        Extra::Inputs => list_inputs(files, job.inputs.as_slice()),
    }
}

// The files that a job reads, in their order.
fn files_of<'a>(alloc: Global, job: &'a Job) -> Result<List<FileToRead<'a>>, NoMemory>
    ensures { IfOk result (λ files. map reading_view files ≡ modes.reads_of job.now) }
{
    let row = job.mode.row();
    let mut files = List::new(alloc);
    list_source(&mut files, row.origin, job)?;
    list_beside(&mut files, row.beside, job)?;
    Ok(files)
}

// Reads a file, and says what that gave.
fn read_one<F: Files>(alloc: Global, file: FileToRead<'_>, files: &mut F) -> Result<Found, NoMemory>
    ensures found { IfOk result (λ found. ReadsOne (reading_view file.entry) (files_at F.held F.sound F.failed files.old)
        (files_at F.held F.sound F.failed files.new) (found_view found)) }
    ensures same { OnErr result (F.failed files.new ≡ F.failed files.old) }
    ensures kept { KeepsFiles (files_at F.held F.sound F.failed files.old) (files_at F.held F.sound F.failed files.new) }
{
    match files.read(alloc, file.name, file.limit) {
        Ok(got) => Ok(Found::from(got)),
        Err(FileFault::Failed) => Ok(Found::Unread),
        Err(FileFault::NoMemory) => Err(NoMemory),
    }
}

// Reads files in their order, up to the first that can't be had.
fn read_all<'a, F: Files>(
    alloc: Global,
    to_read: &[FileToRead<'a>],
    files: &mut F,
) -> Result<FilesRead<'a>, NoMemory>
    ensures reads { IfOk result (λ read. ReadsAll (map reading_view to_read.now) (files_at F.held F.sound F.failed files.old)
        (files_at F.held F.sound F.failed files.new) (read_view read)) }
    ensures same { OnErr result (F.failed files.new ≡ F.failed files.old) }
    ensures kept { KeepsFiles (files_at F.held F.sound F.failed files.old) (files_at F.held F.sound F.failed files.new) }
{
    let mut contents = List::new(alloc);
    for file in to_read {
        match read_one(alloc, *file, files)? {
            Found::Whole(bytes) => contents.push(bytes)?,
            Found::Unread => return Ok(FilesRead::Failed(*file)),
            Found::Longer => return Ok(FilesRead::TooLong(*file)),
        }
    }
    Ok(FilesRead::All(contents))
}

/// Reads the files of a job in their order, up to the first that can't be had. A read that failed adds its name to
/// the failed ones; after it this call takes no more memory.
pub(crate) fn read_files<'a, F: Files>(
    alloc: Global,
    job: &'a Job,
    files: &mut F,
) -> Result<FilesRead<'a>, NoMemory>
    ensures reads { IfOk result (λ read. ReadsAll (modes.reads_of job.now) (files_at F.held F.sound F.failed files.old)
        (files_at F.held F.sound F.failed files.new) (read_view read)) }
    ensures same { OnErr result (F.failed files.new ≡ F.failed files.old) }
    ensures kept { KeepsFiles (files_at F.held F.sound F.failed files.old) (files_at F.held F.sound F.failed files.new) }
{
    let to_read = files_of(alloc, job)?;
    read_all(alloc, to_read.as_slice(), files)
}

/// What was read beside a source. What wasn't there to be read is empty.
#[derive(Drop)]
pub(crate) struct Beside {
    pub(crate) input: List<u8>,
    pub(crate) journal: List<u8>,
    /// What one run each takes in, in the order of the names.
    pub(crate) inputs: List<List<u8>>,
}

/// What the files of a job had.
#[derive(Drop)]
pub(crate) struct Contents {
    pub(crate) source: List<u8>,
    pub(crate) beside: Beside,
}

// Takes off the first of the contents, which is empty where no file was read.
fn take_first(alloc: Global, contents: &mut Vec<List<u8>>) -> List<u8>
    ensures first { result ≡ modes.first_content contents.old.items }
    ensures rest { contents.new.items ≡ modes.contents_after contents.old.items }
{
    if contents.is_empty() {
        return List::new(alloc);
    }
    contents.remove(0)
}

// Takes off the content of a job's input, where one is named.
fn take_input(alloc: Global, job: &Job, contents: &mut Vec<List<u8>>) -> List<u8>
    ensures first { result ≡ modes.where_named job.now.input contents.old.items }
    ensures rest { contents.new.items ≡ modes.after_named job.now.input contents.old.items }
{
    match job.input {
        Some(_) => take_first(alloc, contents),
        None => List::new(alloc),
    }
}

// What was read beside a source, from the contents of the files after it.
fn beside_of(alloc: Global, beside: Extra, job: &Job, mut contents: Vec<List<u8>>) -> Beside
    ensures { beside_view result ≡ modes.beside_of beside job.now contents.items }
{
    match beside {
        Extra::Nothing => Beside {
            input: List::new(alloc),
            journal: List::new(alloc),
            inputs: List::new(alloc),
        },
        Extra::Input => Beside {
            input: take_input(alloc, job, &mut contents),
            journal: List::new(alloc),
            inputs: List::new(alloc),
        },
        Extra::InputAndJournal => Beside {
            input: take_input(alloc, job, &mut contents),
            journal: take_first(alloc, &mut contents),
            inputs: List::new(alloc),
        },
        Extra::Inputs => Beside {
            input: List::new(alloc),
            journal: List::new(alloc),
            inputs: List::from(contents),
        },
    }
}

// Takes off the content of a job's source, where that was read.
fn take_source(alloc: Global, origin: Origin, contents: &mut Vec<List<u8>>) -> List<u8>
    ensures first { origin ≡ origins.Stored → result ≡ modes.first_content contents.old.items }
    ensures rest { contents.new.items ≡ modes.contents_beside origin contents.old.items }
{
    match origin {
        Origin::Stored => take_first(alloc, contents),
        Origin::Generated => List::new(alloc),
    }
}

/// The contents that were read for a job, by what they are: first its source, if that is read from a file, and
/// then what the mode reads beside it.
pub(crate) fn contents_of(alloc: Global, job: &Job, contents: List<List<u8>>) -> Contents
    ensures source { (row_of job.now.mode).origin ≡ origins.Stored → result.source ≡ modes.first_content contents }
    ensures beside { beside_view result.beside ≡ modes.beside_in job.now contents }
{
    let row = job.mode.row();
    let mut rest = contents.into_vec();
    let source = take_source(alloc, row.origin, &mut rest);
    let beside = beside_of(alloc, row.beside, job, rest);
    Contents { source, beside }
}
