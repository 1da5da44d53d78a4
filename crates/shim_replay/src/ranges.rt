// The ranges of what a journal has. The numbers of a path and of a channel are below 2^32 by their types, which a
// proof sees only where they are read: these functions read them.
ghost use Rattle.std.specs.Prelude.{◌<◌, ◌^◌};
ghost use Rattle.std.specs.List.{All, AllByRecursion};
ghost use Rattle.shim_laws_journals.specs.Ranges.{HasStepsInRange};
ghost use Rattle.shim_replay.specs.Entries.{entry_of, entries_of, event_of};
ghost use Rattle.shim_replay.specs.JournalTexts.{FitsChannel, FitsEntry, FitsEvent, FitsPath};

use shim_base::{Chan, Path};
use shim_run_log::{Entry, Event};

fn pair_fits(pair: (u32, u32))
    ensures { (pair.0 < 2 ^ 32) × (pair.1 < 2 ^ 32) }
{}

fn pairs_fit(pairs: &[(u32, u32)])
    ensures { FitsPath pairs.now }
{
    for pair in pairs {
        pair_fits(*pair);
    }
}

fn path_fits(path: &Path)
    ensures { FitsPath path.now }
{
    pairs_fit(path.pairs());
}

fn channel_fits(chan: &Chan)
    ensures { FitsChannel chan.now.channel }
{
    path_fits(chan.home());
    let _serial = chan.serial();
}

fn event_fits(event: &Event)
    ensures { FitsEvent (event_of event.now) }
{
    match event {
        Event::Own(path) | Event::Close(path) | Event::End(path) => path_fits(path),
        Event::Meet(chan) => channel_fits(chan),
        Event::Poison(path, chan) => {
            path_fits(path);
            channel_fits(chan);
        }
    }
}

fn entry_fits(entry: &Entry)
    requires { HasStepsInRange (entry_of entry.now) }
    ensures { FitsEntry (entry_of entry.now) }
{
    match entry {
        Entry::Quiet { path, steps: _ } => path_fits(path),
        Entry::Did(event) => event_fits(event),
    }
}

/// Proves that entries whose step counts are in range can be entries of a journal's text.
pub(crate) fn entries_fit(entries: &[Entry])
    requires { All (λ e. HasStepsInRange (entry_of e)) entries.now }
    ensures { AllByRecursion FitsEntry (entries_of entries.now) }
{
    for entry in entries {
        entry_fits(entry);
    }
}
