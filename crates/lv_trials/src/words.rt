//! Words that are accepted, and words that are refused.

use crate::runs::words_of;
use lv_values::NoMemory;
use lv_words::{Words, WordsFault, read_words};
use std::alloc::Global;

static REFUSED: [&[&str]; 20] = [
    &["-"],
    &["--"],
    &[""],
    &["x"],
    &["-x"],
    &["--help"],
    &["--log="],
    &["--log", ""],
    &["--log", "-"],
    &["--log", "-x"],
    &["--log"],
    &["--combine", "0"],
    &["--combine=65"],
    &["--combine", "1", "--combine=1"],
    &["--combine=+1"],
    &["--combine=00000000001"],
    &["--threads", "--threads"],
    &["--threads=1"],
    &["--make", "1", "--threads"],
    &["--policy=last"],
];

/// What a line of words sets; none where it is refused.
fn read(alloc: Global, line: &[&str]) -> Result<Option<Words>, NoMemory> {
    let words = words_of(alloc, line)?;
    let read = read_words(alloc, words.as_slice());
    drop(words);
    match read {
        Ok(words) => Ok(Some(words)),
        Err(WordsFault::Refused) => Ok(None),
        Err(WordsFault::NoMemory) => Err(NoMemory),
    }
}

/// Whether these are the numbers that words set, in the order of the usage.
fn sets(words: &Words, threads: bool, numbers: (u32, u32, u32, u8, u64)) -> bool {
    let set = (
        words.workers,
        words.turns,
        words.combine,
        words.policy,
        words.log_limit,
    );
    words.threads == threads && set == numbers && words.make.is_none()
}

/// Whether no words set what is set by default.
fn are_none_read(alloc: Global) -> Result<bool, NoMemory> {
    let Some(words) = read(alloc, &[])? else {
        return Ok(false);
    };
    Ok(sets(&words, false, (2, 10000, 16, 0, 1073741824)) && words.log.is_none())
}

/// Whether these words set what they say.
fn are_all_read(alloc: Global) -> Result<bool, NoMemory> {
    let line = [
        "--combine=007",
        "--policy",
        "first",
        "--threads",
        "--log=-x",
        "--workers",
        "8",
        "--log-limit=9",
        "--turns=0",
    ];
    let Some(words) = read(alloc, line.as_slice())? else {
        return Ok(false);
    };
    let is_set = sets(&words, true, (8, 0, 7, 2, 9));
    Ok(is_set && words.log.is_some_and(|path| path.as_str() == "-x"))
}

#[test]
fn words_that_are_accepted(rt: HostRuntime) {
    assert!(rt; are_none_read(rt.alloc()) == Ok(true));
    assert!(rt; are_all_read(rt.alloc()) == Ok(true));
}

#[test]
fn words_that_are_refused(rt: HostRuntime) {
    for line in REFUSED.as_slice() {
        let words = read(rt.alloc(), line);
        assert!(rt; words.is_ok_and(|words| words.is_none()));
    }
}
