// The command line, as one simple command of `clap`.
ghost use Rattle.std.specs.Prelude.{◌≡◌, ◌≤◌, IfOk, false};
ghost use Rattle.clap.specs.Words.{app_of, rule_of};
ghost use Rattle.shim_command.specs.Command.{flag, positional, number_option, option, shim_app, words_after};

use clap::builder::ValueParser;
use clap::{Arg, ArgAction, Command};
use shim_base::NoMemory;
use std::alloc::Global;

// A word that has to be there, by its place.
fn given<'a>(alloc: Global, name: &'a str) -> Arg<'a>
    ensures rule { rule_of result ≡ positional name.entry.now }
    ensures own { result.global ≡ false }
{
    Arg::new(alloc, name).required(true).action(ArgAction::Set)
}

// An option that takes any text.
fn option<'a>(alloc: Global, name: &'a str) -> Arg<'a>
    ensures rule { rule_of result ≡ option name.entry.now }
    ensures own { result.global ≡ false }
{
    Arg::new(alloc, name).long(name)
}

// An option that takes a number from `least` to `most`.
fn number<'a>(alloc: Global, name: &'a str, least: u64, most: u64) -> Arg<'a>
    ensures rule { rule_of result ≡ number_option name.entry.now least most }
    ensures own { result.global ≡ false }
{
    Arg::new(alloc, name)
        .long(name)
        .value_parser(ValueParser::Unsigned(least, most))
}

// An option that takes nothing.
fn flag<'a>(alloc: Global, name: &'a str) -> Arg<'a>
    ensures rule { rule_of result ≡ flag name.entry.now }
    ensures own { result.global ≡ false }
{
    Arg::new(alloc, name).action(ArgAction::SetTrue).long(name)
}

// Words after the others, as many as there are.
fn words_after<'a>(alloc: Global, name: &'a str) -> Arg<'a>
    ensures rule { rule_of result ≡ words_after name.entry.now }
    ensures own { result.global ≡ false }
{
    Arg::new(alloc, name).action(ArgAction::Append)
}

/// `shim MODE FILE [INPUT]... [--input FILE] [--workers N] [--budget B] [--quantum Q] [--size N]
/// [--journal FILE] [--steal]`. It has no flag for help: that is a word like any other that it doesn't know.
pub(crate) fn command<'a>(alloc: Global) -> Result<Command<'a>, NoMemory>
    ensures { IfOk result (λ c. app_of c ≡ shim_app) }
{
    let plain = Command::new(alloc, "shim").disable_help_flag(true);
    let command = plain
        .arg(given(alloc, "MODE"))?
        .arg(given(alloc, "FILE"))?
        .arg(option(alloc, "input"))?
        .arg(number(alloc, "workers", 1, 16))?
        .arg(number(alloc, "budget", 1, 4000000))?
        .arg(number(alloc, "quantum", 1, 10000))?
        .arg(number(alloc, "size", 1, 100000))?
        .arg(option(alloc, "journal"))?
        .arg(flag(alloc, "steal"))?
        .arg(words_after(alloc, "INPUT"))?;
    Ok(command)
}
