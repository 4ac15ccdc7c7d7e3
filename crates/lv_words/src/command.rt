//! The words, as clap reads them.
ghost use Rattle.std.specs.Prelude.{◌≡◌, IfOk, map};
ghost use Rattle.clap.specs.Kinds.{FailsBy};
ghost use Rattle.clap.specs.Faults.{fault_of};
ghost use Rattle.clap.specs.Walk.{rows_of};
ghost use Rattle.clap.specs.Matches.{found_of};
ghost use Rattle.clap.specs.Simple.{app_of, matches_of, with_rule};
ghost use Rattle.lv_words.specs.Line as line;
ghost use Rattle.lv_words.specs.Line.{flag_rule, lazyview, option_rule};

use clap::{Arg, ArgAction, ArgMatches, Command, Error};
use std::alloc::{AllocError, Global};

/// A command without a program's name, a help flag or a version flag.
fn bare<'a>(alloc: Global) -> Command<'a>
    ensures { app_of result ≡ line.bare }
{
    Command::new(alloc, "lazyview")
        .no_binary_name(true)
        .disable_help_flag(true)
        .disable_version_flag(true)
}

/// The command with an option more that has a value.
fn with_option<'a>(
    alloc: Global,
    command: Command<'a>,
    name: &'a str,
) -> Result<Command<'a>, AllocError>
    ensures { IfOk result (λ c. app_of c ≡ with_rule (app_of command.entry) (option_rule name.entry.now)) }
{
    command.arg(Arg::new(alloc, name).long(name).action(ArgAction::Set))
}

/// The command with an option more that has no value.
fn with_flag<'a>(
    alloc: Global,
    command: Command<'a>,
    name: &'a str,
) -> Result<Command<'a>, AllocError>
    ensures { IfOk result (λ c. app_of c ≡ with_rule (app_of command.entry) (flag_rule name.entry.now)) }
{
    command.arg(Arg::new(alloc, name).long(name).action(ArgAction::SetTrue))
}

/// The command line.
fn command<'a>(alloc: Global) -> Result<Command<'a>, AllocError>
    ensures { IfOk result (λ c. app_of c ≡ line.lazyview) }
{
    let one = with_flag(alloc, bare(alloc), "threads")?;
    let two = with_option(alloc, one, "workers")?;
    let three = with_option(alloc, two, "turns")?;
    let four = with_option(alloc, three, "combine")?;
    let five = with_option(alloc, four, "policy")?;
    let six = with_option(alloc, five, "log")?;
    let seven = with_option(alloc, six, "log-limit")?;
    with_option(alloc, seven, "make")
}

/// What clap finds in the words.
pub fn matches<'a>(alloc: Global, words: &'a [&'a str]) -> Result<ArgMatches<'a>, Error>
    ensures kinds { FailsBy (fault_of lazyview (map (λ w. w.now) words.entry.now)) result }
    ensures rows { IfOk result (λ m. rows_of (found_of m) ≡ matches_of lazyview (map (λ w. w.now) words.entry.now)) }
{
    let line = command(alloc)?;
    line.try_get_matches_from(words)
}
