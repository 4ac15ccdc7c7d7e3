//! What the words of the command line set.
ghost use Rattle.std.specs.Prelude.{◌≡◌, IfOk, IfSome, Some, None, map, option_map};
ghost use Rattle.std.specs.List.{list_all};
ghost use Rattle.clap.specs.Matches.{first_value, found_of};
ghost use Rattle.lv_words.specs.Line as line;
ghost use Rattle.lv_words.specs.Range.{IsInRange};
ghost use Rattle.lv_words.specs.Values as value;
ghost use Rattle.lv_words.specs.Words.{said};

use crate::command::matches;
use crate::values::{is_on, make_or, number_or, policy_or};
use clap::ArgMatches;
use clap::error::ErrorKind;
use lv_values::{NoMemory, Text};
use std::alloc::Global;
use thiserror::Error;

/// What the words set.
#[derive(Drop)]
pub struct Words {
    /// Whether sessions and workers run in threads.
    pub threads: bool,
    /// The number of workers, 0 to 8.
    pub workers: u32,
    /// The turns that a worker may take, 0 to 10,000.
    pub turns: u32,
    /// The most commits that one step combines, 1 to 64.
    pub combine: u32,
    /// The kind of the policy: 0 oldest, 1 most, 2 first.
    pub policy: u8,
    /// The path of the journal, which is not empty; without one the journal is in memory.
    pub log: Option<Text>,
    /// The most bytes of the journal, 9 to 4,294,967,295.
    pub log_limit: u64,
    /// The statements of a script that is made in place of the one that is read, 1 to 65,536.
    pub make: Option<u32>,
}

/// Why words set nothing.
#[derive(Debug, Drop, Error)]
pub enum WordsFault {
    /// The words are not accepted.
    #[error("words refused")]
    Refused,
    /// Memory was refused.
    #[error("out of memory")]
    NoMemory,
}

/// Whether the word begins with no minus, or with two and has more.
fn is_fit(word: &str) -> bool
    ensures { result ≡ line.is_fit word.now }
{
    match word.as_bytes() {
        [] => true,
        [first] | [first, _] => *first != b'-',
        [first, second, ..] => *first != b'-' || *second == b'-',
    }
}

fn are_fit(words: &[Text]) -> bool
    ensures { result ≡ list_all line.is_fit words.now }
{
    words.iter().all(|word| is_fit(word.as_str()))
}

/// The words, borrowed.
fn borrowed<'a>(alloc: Global, words: &'a [Text]) -> Result<Vec<&'a str>, NoMemory>
    ensures { IfOk result (λ v. map (λ s. s.now) v.items ≡ words.entry.now) }
{
    let mut texts = Vec::new(alloc);
    for word in words {
        texts.push(word.as_str())?;
    }
    Ok(texts)
}

/// What the values set, but for the path of the journal.
fn numbers(given: &ArgMatches<'_>) -> Option<Words>
    ensures values { result ≡ value.numbers (first_value (found_of given.now)) }
    ensures range { IfSome result IsInRange }
{
    let workers = number_or(0, 8, 2, given.get_str("workers"))?;
    let turns = number_or(0, 10000, 10000, given.get_str("turns"))?;
    let combine = number_or(1, 64, 16, given.get_str("combine"))?;
    let policy = policy_or(given.get_str("policy"))?;
    let log_limit = number_or(9, 4294967295, 1073741824, given.get_str("log-limit"))?;
    let make = make_or(given.get_str("make"))?;
    let threads = is_on(given.get_str("threads"));
    if threads && make.is_some() {
        return None;
    }
    Some(Words {
        threads,
        workers: workers as u32,
        turns: turns as u32,
        combine: combine as u32,
        policy,
        log: None,
        log_limit,
        make,
    })
}

/// What the values set.
fn settings(alloc: Global, given: &ArgMatches<'_>) -> Result<Words, WordsFault>
    ensures accepted { IfOk result (λ w. value.settings (first_value (found_of given.now)) ≡ Some w) }
    ensures range { IfOk result IsInRange }
    ensures refused { result ≡ Err WordsFault.Refused → value.settings (first_value (found_of given.now)) ≡ None }
{
    let Some(words) = numbers(given) else {
        return Err(WordsFault::Refused);
    };
    match given.get_str("log") {
        None => Ok(Words { log: None, ..words }),
        Some(path) => {
            if path.is_empty() {
                return Err(WordsFault::Refused);
            }
            match Text::from_str(alloc, path) {
                Err(_) => Err(WordsFault::NoMemory),
                Ok(log) => Ok(Words {
                    log: Some(log),
                    ..words
                }),
            }
        }
    }
}

/// What clap finds in the words, as settings.
#[tactic(auto, using(crate::proofs::Finding::reads_as))]
fn read(alloc: Global, words: &[&str]) -> Result<Words, WordsFault>
    ensures accepted { IfOk result (λ w. line.read (map (λ s. s.now) words.now) ≡ Some w) }
    ensures range { IfOk result IsInRange }
    ensures refused { result ≡ Err WordsFault.Refused → line.read (map (λ s. s.now) words.now) ≡ None }
{
    match matches(alloc, words) {
        Ok(given) => settings(alloc, &given),
        Err(error) => match error.kind() {
            ErrorKind::OutOfMemory => Err(WordsFault::NoMemory),
            _ => Err(WordsFault::Refused),
        },
    }
}

/// Reads the words of a command line, without the program's name. `Refused` comes exactly where they are not
/// accepted. Cost: linear in their bytes.
pub fn read_words(alloc: Global, words: &[Text]) -> Result<Words, WordsFault>
    ensures accepted { IfOk result (λ w. said words.now ≡ Some w) }
    ensures range { IfOk result IsInRange }
    ensures refused { result ≡ Err WordsFault.Refused → said words.now ≡ None }
{
    if !are_fit(words) {
        return Err(WordsFault::Refused);
    }
    match borrowed(alloc, words) {
        Err(_) => Err(WordsFault::NoMemory),
        Ok(texts) => read(alloc, texts.as_slice()),
    }
}
