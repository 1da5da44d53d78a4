// Reads the arguments: what `clap` finds in them, and the job that this is.
ghost use Rattle.std.specs.Prelude.{◌≡◌, ℕ, IfOk, Some, codes, map, option_map};
ghost use Rattle.clap.specs.Words.{first_of, found_of, kind_of, matches_of, one_of, rows_of};
ghost use Rattle.shim_command.specs.Command.{shim_app};
ghost use Rattle.shim_command.specs.Jobs.{FitAll, Gives, IsErrorOf, IsNumberText, IsWithin, flag_in, has_extra, has_origin, job, job_in, job_with, option_number, suits, texts_of, word_in, words_in};

use crate::command::command;
use crate::job::{Job, WordsFault};
use crate::mode::{Extra, Mode, Origin};
use clap::error::ErrorKind;
use clap::{ArgMatches, Error};
use shim_base::{List, NoMemory};
use shim_generator::Kind;
use std::alloc::Global;

// The word of an argument that has to be there. Where `clap` finds no fault it has one.
fn word_in<'a>(matches: &ArgMatches<'a>, name: &str) -> &'a str
    ensures { result.now ≡ word_in (rows_of (found_of matches.now)) name.now }
{
    matches.get_str(name).unwrap_or("")
}

// The text of an option, where it was given.
fn text_in<'a>(matches: &ArgMatches<'a>, name: &str) -> Option<&'a str>
    ensures { option_map (λ text. text.now) result ≡ first_of name.now (rows_of (found_of matches.now)) }
{
    let text = matches.get_str(name);
    text
}

// The number that an option was given, or its default.
fn number_in(matches: &ArgMatches<'_>, name: &str, default: u64) -> u64
    requires { (least : ℕ) × (most : ℕ) × IsNumberText least most (one_of name.now (rows_of (found_of matches.now))) }
    ensures { result ≡ option_number (rows_of (found_of matches.now)) name.now default }
{
    matches.get_one::<u64>(name).unwrap_or(default)
}

// Whether a flag was given.
fn flag_in(matches: &ArgMatches<'_>, name: &str) -> bool
    ensures { result ≡ flag_in (rows_of (found_of matches.now)) name.now }
{
    match text_in(matches, name) {
        Some(text) => text == "true",
        None => false,
    }
}

// A copy of the bytes of a text.
fn bytes_of(alloc: Global, text: Option<&str>) -> Result<Option<List<u8>>, NoMemory>
    ensures { IfOk result (λ bytes. bytes ≡ option_map (λ text. text.now) text.entry) }
{
    match text {
        Some(text) => Ok(Some(List::from_slice(alloc, text.as_bytes())?)),
        None => Ok(None),
    }
}

// Copies of the bytes of these texts.
fn copies_of(alloc: Global, texts: &[&str]) -> Result<List<List<u8>>, NoMemory>
    ensures { IfOk result (λ copies. copies ≡ map (λ text. text.now) texts.now) }
{
    let mut copies = List::new(alloc);
    for text in texts {
        copies.push(List::from_slice(alloc, text.as_bytes())?)?;
    }
    Ok(copies)
}

// The texts of an argument that may be given several times.
fn texts_in(alloc: Global, matches: &ArgMatches<'_>, name: &str) -> Result<List<List<u8>>, NoMemory>
    ensures { IfOk result (λ texts. texts ≡ words_in (rows_of (found_of matches.now)) name.now) }
{
    match matches.get_strs(name) {
        Some(texts) => copies_of(alloc, texts),
        None => Ok(List::new(alloc)),
    }
}

// The job of a mode, with what was found for each argument.
fn job_with(alloc: Global, mode: Mode, matches: &ArgMatches<'_>) -> Result<Job, NoMemory>
    requires { FitAll (rows_of (found_of matches.now)) }
    ensures { IfOk result (λ job. job ≡ job_with mode (rows_of (found_of matches.now))) }
{
    Ok(Job {
        mode,
        file: List::from_slice(alloc, word_in(matches, "FILE").as_bytes())?,
        inputs: texts_in(alloc, matches, "INPUT")?,
        input: bytes_of(alloc, text_in(matches, "input"))?,
        workers: number_in(matches, "workers", 4),
        budget: number_in(matches, "budget", 1000000),
        quantum: number_in(matches, "quantum", 64),
        size: number_in(matches, "size", 1000),
        journal: bytes_of(alloc, text_in(matches, "journal"))?,
        steal: flag_in(matches, "steal"),
    })
}

// Whether the job has a source of this origin: one that is generated needs a kind that FILE names.
fn has_origin(job: &Job, origin: Origin) -> bool
    ensures { result ≡ has_origin origin job.now }
{
    match origin {
        Origin::Stored => true,
        Origin::Generated => Kind::named(job.file.as_slice()).is_some(),
    }
}

/// The most inputs on which one call runs a source.
const MOST_INPUTS: usize = 64;

// Whether the job names what is read beside its source: a journal where one is read, and as many inputs as the mode
// takes.
fn has_extra(job: &Job, beside: Extra) -> bool
    ensures { result ≡ has_extra beside job.now }
{
    let many = job.inputs.len();
    match beside {
        Extra::Nothing | Extra::Input => many == 0,
        Extra::InputAndJournal => many == 0 && job.journal.is_some(),
        Extra::Inputs => 1 <= many && many <= MOST_INPUTS,
    }
}

// Whether the mode takes what was found.
fn suits(job: &Job) -> bool
    ensures { result ≡ suits job.now }
{
    let row = job.mode.row();
    has_origin(job, row.origin) && has_extra(job, row.beside)
}

// The job of what `clap` found.
fn job_in(alloc: Global, matches: &ArgMatches<'_>) -> Result<Job, WordsFault>
    requires { FitAll (rows_of (found_of matches.now)) }
    ensures { Gives (job_in (rows_of (found_of matches.now))) result }
{
    let mode = match Mode::named(word_in(matches, "MODE")) {
        Some(mode) => mode,
        None => return Err(WordsFault::Refused),
    };
    let job = job_with(alloc, mode, matches)?;
    if suits(&job) {
        Ok(job)
    } else {
        Err(WordsFault::Refused)
    }
}

// Why `clap` took no words: memory ran out, or it refuses them.
fn fault_of(error: &Error) -> WordsFault
    ensures { IsErrorOf (kind_of error.now) result }
{
    match error.kind() == ErrorKind::OutOfMemory {
        true => WordsFault::NoMemory,
        false => WordsFault::Refused,
    }
}

/// Reads the arguments, the first of which is the program's own name. `Refused` comes exactly where they have no job:
/// `clap` finds a fault in them, or MODE names no mode, or its source is generated and FILE names no kind, or it
/// reads a journal and none is named, or the number of INPUT words is none that the mode takes: 1 to 64 where it
/// runs a source on several inputs, else 0. A job has what `clap` finds for each argument of the command line, with a
/// default for an option that is absent; its numbers are in their ranges, and FILE is one that was found.
/// `NoMemory` may come in place of both.
pub fn read_words(alloc: Global, words: &[String]) -> Result<Job, WordsFault>
    ensures job { Gives (job (texts_of words.now)) result }
    ensures within { IfOk result IsWithin }
    ensures given { IfOk result (λ job. first_of (codes "FILE") (matches_of shim_app (texts_of words.now)) ≡ Some job.file) }
{
    match command(alloc)?.try_get_matches_from(words) {
        Ok(matches) => job_in(alloc, &matches),
        Err(error) => Err(fault_of(&error)),
    }
}
