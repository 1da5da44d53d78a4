// Writes the text of a journal.
ghost use Rattle.std.specs.Prelude.{◌≡◌, ◌≤◌, ◌<◌, ◌++◌, ◌*◌, OnOk, IfOk, length};
ghost use Rattle.std.specs.List.{All};
ghost use Rattle.shim_replay.specs.Entries.{entry_of, entries_of, event_of};
ghost use Rattle.shim_semantics.specs.Trees as trees;
ghost use Rattle.shim_laws_replay.specs.Journals as journals;
ghost use Rattle.shim_base.specs.PathTexts.{path_text, channel_text};
ghost use Rattle.shim_laws_journals.specs.Ranges.{HasStepsInRange, IsInRange, steps_in_all};
ghost use Rattle.shim_replay.specs.JournalTexts.{IsJournalText, entry_lines, entry_words, journal_of, joined_lines, line};

use crate::journal::steps_in;
use crate::ranges::entries_fit;
use shim_base::{Chan, List, NoMemory, Path, push_channel, push_decimal, push_path};
use shim_run_log::{Entry, Event};
use std::alloc::Global;

// A word, and a path after it.
fn push_word(text: &mut List<u8>, word: &[u8], path: &Path) -> Result<(), NoMemory>
    ensures { OnOk result (text.new ≡ text.old ++ (word.now ++ path_text path.now)) }
{
    text.extend_from_slice(word)?;
    push_path(text, path)
}

#[tactic(auto, unfolding(crate::specs::JournalTexts::entry_words))]
fn push_quiet(text: &mut List<u8>, path: &Path, steps: u64) -> Result<(), NoMemory>
    ensures { OnOk result (text.new ≡ text.old ++ entry_words (journals.Quiet path.now steps)) }
{
    push_word(text, b"quiet ", path)?;
    text.extend_from_slice(b" ")?;
    push_decimal(text, steps)
}

#[tactic(auto, unfolding(crate::specs::JournalTexts::entry_words))]
fn push_poison(text: &mut List<u8>, path: &Path, chan: &Chan) -> Result<(), NoMemory>
    ensures { OnOk result (text.new ≡ text.old ++ entry_words (journals.Did (trees.Poison path.now chan.now.channel))) }
{
    push_word(text, b"poison ", path)?;
    text.extend_from_slice(b" ")?;
    push_channel(text, chan)
}

#[tactic(auto, unfolding(crate::specs::JournalTexts::entry_words))]
fn push_event(text: &mut List<u8>, event: &Event) -> Result<(), NoMemory>
    ensures { OnOk result (text.new ≡ text.old ++ entry_words (journals.Did (event_of event.now))) }
{
    match event {
        Event::Own(path) => push_word(text, b"own ", path),
        Event::Meet(chan) => {
            text.extend_from_slice(b"meet ")?;
            push_channel(text, chan)
        }
        Event::Poison(path, chan) => push_poison(text, path, chan),
        Event::Close(path) => push_word(text, b"close ", path),
        Event::End(path) => push_word(text, b"end ", path),
    }
}

fn push_entry(text: &mut List<u8>, entry: &Entry) -> Result<(), NoMemory>
    ensures { OnOk result (text.new ≡ text.old ++ line (entry_words (entry_of entry.now))) }
{
    match entry {
        Entry::Quiet { path, steps } => push_quiet(text, path, *steps)?,
        Entry::Did(event) => push_event(text, event)?,
    }
    text.extend_from_slice(b"\n")
}

fn push_entries(text: &mut List<u8>, entries: &[Entry]) -> Result<(), NoMemory>
    ensures { OnOk result (text.new ≡ text.old ++ joined_lines (entry_lines (entries_of entries.now))) }
{
    for entry in entries {
        push_entry(text, entry)?;
    }
    Ok(())
}

// How many steps the entries have.
fn steps_in_all(entries: &[Entry]) -> u64
    requires steps { All (λ e. HasStepsInRange (entry_of e)) entries.now }
    requires few { length entries.now < 4294967293 }
    ensures is { result ≡ steps_in_all (entries_of entries.now) }
    ensures bound { result ≤ length entries.now * 4000000 }
{
    let mut steps = 0u64;
    for entry in entries {
        steps += steps_in(entry);
    }
    steps
}

#[tactic(auto, unfolding(crate::specs::JournalTexts::journal_of))]
fn push_journal(text: &mut List<u8>, budget: u64, entries: &[Entry]) -> Result<(), NoMemory>
    requires steps { All (λ e. HasStepsInRange (entry_of e)) entries.now }
    requires few { length entries.now < 4294967293 }
    ensures { OnOk result (text.new ≡ text.old ++ journal_of budget (entries_of entries.now)) }
{
    text.extend_from_slice(b"journal ")?;
    push_decimal(text, budget)?;
    text.extend_from_slice(b"\n")?;
    push_entries(text, entries)?;
    text.extend_from_slice(b"stop ")?;
    push_decimal(text, steps_in_all(entries))?;
    text.extend_from_slice(b"\n")
}

/// The text of a journal: a line for the budget of a run, one for each entry, and one for the sum of their steps.
/// Running out of memory is the one refusal.
#[tactic(auto, using(crate::proofs::InRange::few_entries))]
pub fn journal_text(alloc: Global, budget: u64, entries: &[Entry]) -> Result<List<u8>, NoMemory>
    requires range { IsInRange budget (entries_of entries.now) }
    ensures { IfOk result (λ text. IsJournalText text budget (entries_of entries.now)) }
{
    entries_fit(entries);
    let mut text = List::new(alloc);
    push_journal(&mut text, budget, entries)?;
    Ok(text)
}
