// The values that the rendezvous on each channel gave.
ghost use Rattle.std.specs.Prelude.{◌≡◌, ℕ, None, true, false, [], ◌∷◌, ◌↔◌, IsTrue, OnOk, OnErr, IfOk, map};
ghost use Rattle.std.specs.Option.{option_copied};
ghost use Rattle.std.specs.FinMap as finite;
ghost use Rattle.shim_semantics.specs.Trees.{recorded};
ghost use Rattle.shim_semantics.specs.Endings.{history_of, values_in};
ghost use Rattle.shim_run_log.specs.Maps.{AllHaveValues, IsNumbered, history_channel, histories_of, met_of, number_in};

use crate::recent::Recent;
use shim_base::{Chan, List, NoMemory};
use shim_local::History;
use std::alloc::Global;
use std::collections::BTreeMap;
use std::marker::Model;
use std::sync::Arc;

/// For each channel that had a rendezvous, the name by which it is printed and the values, in order. A rendezvous
/// finds them by the table of recent channels, and the map is asked only where that doesn't have the channel.
#[derive(Drop)]
pub struct Histories {
    // in the order of the first rendezvous
    kept: Vec<History>,
    // where in that order each channel stands
    numbers: BTreeMap<Chan, usize, Global>,
    recent: Recent,
    alloc: Global,
}

impl Model for Histories {
    ghost use Rattle.std.specs.FinMap as finite;
    ghost use Rattle.shim_base.specs.Paths.{channel_order};
    ghost use Rattle.shim_semantics.specs.Trees.{Met};
    ghost use Rattle.shim_semantics.proofs.Codes.{histories_code};
    ghost use Rattle.shim_run_log.specs.Maps.{histories_of, IsHistoryIndex};

    ghost Value = { finite.FinMap channel_order Met };

    ghost coded = { histories_code };

    ghost view = { λ h. histories_of h.numbers h.kept.items };

    ghost invariant = { λ h. IsHistoryIndex h.numbers h.kept.items };
}

impl Histories {
    /// No histories, which takes no memory.
    pub fn new(alloc: Global) -> Histories
        ensures { result ≡ finite.empty }
    {
        Histories {
            kept: Vec::new(alloc),
            numbers: BTreeMap::new(alloc),
            recent: Recent::new(alloc),
            alloc,
        }
    }

    /// Adds a value after those of the channel. The name is used only with the first value of the channel.
    pub fn record(&mut self, chan: &Chan, name: u32, value: i64) -> Result<(), NoMemory>
        ensures ok { OnOk result (self.new ≡ recorded self.old chan.now.channel name value) }
        ensures err { OnErr result (self.new ≡ self.old) }
    {
        let found = number_of(self.kept.as_slice(), &self.numbers, &mut self.recent, chan);
        match found {
            Some(number) => self.kept[number].values.push(value),
            None => {
                let first = first_history(self.alloc, chan, name, value)?;
                self.recent
                    .make_room(self.alloc, self.kept.len().saturating_add(1))?;
                keep(&mut self.kept, &mut self.numbers, first)
            }
        }
    }

    /// Adds a value after those of a channel that had a rendezvous. Where the channel had none, nothing is added and
    /// the answer is `false`: a first value needs a name, which `record` takes.
    pub fn record_value(&mut self, chan: &Chan, value: i64) -> Result<bool, NoMemory>
        ensures known { IfOk result (λ known. known ≡ true → (name : ℕ) → self.new ≡ recorded self.old chan.now.channel name value) }
        ensures first { IfOk result (λ known. known ≡ false → (self.new ≡ self.old) × (finite.get self.old chan.now.channel ≡ None)) }
        ensures err { OnErr result (self.new ≡ self.old) }
    {
        let found = number_of(self.kept.as_slice(), &self.numbers, &mut self.recent, chan);
        match found {
            Some(number) => {
                self.kept[number].values.push(value)?;
                Ok(true)
            }
            None => Ok(false),
        }
    }

    /// The values of the channel, if it had a rendezvous. It takes no memory.
    pub fn get(&self, chan: &Chan) -> Option<&[i64]>
        ensures values { option_copied result ≡ values_in (finite.get self.now chan.now.channel) }
        ensures filled { AllHaveValues self.now }
    {
        match self.numbers.get(chan) {
            Some(number) => Some(self.kept[*number].values.as_slice()),
            None => None,
        }
    }

    /// Each channel with its values, by home and then by serial.
    pub fn list(&self, alloc: Global) -> Result<List<History>, NoMemory>
        ensures { IfOk result (λ list. list ≡ map history_of (finite.entries self.now)) }
    {
        let mut list = List::new(alloc);
        for number in self.numbers.values() {
            let history = &self.kept[*number];
            list.push(History {
                chan: history.chan.copy()?,
                values: List::from_slice(alloc, history.values.as_slice())?,
            })?;
        }
        Ok(list)
    }
}

// The number of the channel's history, if it has one. A number that the table of recent channels doesn't give is
// noted there. For a channel without a history that is the number that the next history gets.
fn number_of(
    kept: &[History],
    numbers: &BTreeMap<Chan, usize, Global>,
    recent: &mut Recent,
    chan: &Chan,
) -> Option<usize>
    requires { IsNumbered numbers.now kept.now }
    ensures { result ≡ number_in numbers.now chan.now.channel }
{
    for number in recent.numbers(chan) {
        if is_of(kept, number, chan) {
            return Some(number);
        }
    }
    let number = numbers.get(chan).copied();
    recent.note(chan, number.unwrap_or(kept.len()));
    number
}

// Whether the history of this number is the channel's.
fn is_of(kept: &[History], number: usize, chan: &Chan) -> bool
    ensures { IsTrue result ↔ (history_channel kept.now number ≡ Some chan.now.channel) }
{
    match kept.get(number) {
        Some(history) => history.chan == *chan,
        None => false,
    }
}

// The history of a channel at its first rendezvous.
fn first_history(alloc: Global, chan: &Chan, name: u32, value: i64) -> Result<History, NoMemory>
    ensures { IfOk result (λ first. first ≡ record { chan = record { channel = chan.now.channel; name = name }; values = value ∷ [] }) }
{
    let mut values = List::new(alloc);
    values.push(value)?;
    let home = Arc::new(alloc, chan.home().copy()?)?;
    Ok(History {
        chan: Chan::new(home, chan.serial(), name),
        values,
    })
}

// Keeps the history of a channel that has none yet.
fn keep(
    kept: &mut Vec<History>,
    numbers: &mut BTreeMap<Chan, usize, Global>,
    first: History,
) -> Result<(), NoMemory>
    requires absent { number_in numbers.old first.chan.channel ≡ None }
    requires numbered { IsNumbered numbers.old kept.old.items }
    ensures ok { OnOk result (histories_of numbers.new kept.new.items ≡ finite.insert (histories_of numbers.old kept.old.items) first.chan.channel (met_of first)) }
    ensures err { OnErr result (histories_of numbers.new kept.new.items ≡ histories_of numbers.old kept.old.items) }
    ensures numbered { IsNumbered numbers.new kept.new.items }
{
    kept.reserve(1)?;
    numbers.insert(first.chan.copy()?, kept.len())?;
    kept.push_reserved(first);
    Ok(())
}
