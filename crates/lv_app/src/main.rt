//! The command `lazyview`: it runs the script on standard input, or one that it makes, and writes the transcript, or the summary,
//! to standard output.
#![tactic(auto)]

ghost use Rattle.std.specs.Prelude.{◌≡◌};
ghost use Rattle.lv_schema.specs.Policies.{chosen};
ghost use Rattle.lv_picker.specs.Choices.{IsChoice};

use lv_outside::{FreeGate, HostDisks, Sink, StdSink, StdSource};
use lv_picker::{Choice, Picker, place_of_first, place_of_most, place_of_oldest};
use lv_runner::{Status, run};
use lv_schema::Pending;
use lv_values::{Items, NoMemory, Text};
use std::env::{Env, FillError};
use std::fs::File;
use std::io::{BufWriter, IsTerminal};
use std::process::ExitCode;
use std::sync::Wait;
use std::thread::Threads;
use std::{env, io};

/// What stands for the words where one of them is not UTF-8.
const UNREADABLE: &str = "?";

/// How many bytes of the transcript are written at once, where replies do not go one by one.
const BLOCK: usize = 8192;

/// What begins the word that names a journal.
const LOG: &str = "--log";

/// A folder that is there.
const NO_STREAM: &str = "/";

/// Whether a word stands behind the program's name.
fn has_word(rt: &HostRuntime) -> bool {
    match rt.arg(1, &mut []) {
        Err(FillError::NotPresent) => false,
        _ => true,
    }
}

/// The words behind the program's name. Where one is not UTF-8, one word stands for all of them.
fn words_of(rt: &HostRuntime) -> Result<Items<Text>, NoMemory> {
    let alloc = rt.alloc();
    let mut words = Items::new(alloc);
    match env::args(rt) {
        Ok(args) => {
            for arg in args.skip(1) {
                words.push(Text::from_str(alloc, arg.as_str())?)?;
            }
        }
        Err(fault) => {
            if fault.kind() == io::ErrorKind::OutOfMemory {
                return Err(NoMemory);
            }
            if has_word(rt) {
                words.push(Text::from_str(alloc, UNREADABLE)?)?;
            }
        }
    }
    Ok(words)
}

/// The size of the blocks in which replies are written: 0, each by itself, to a terminal, and beside a journal, so that a run
/// that is killed has told each commit that is kept.
fn block_of(rt: &HostRuntime, words: &[Text]) -> usize {
    let has_journal = words.iter().any(|word| word.as_str().starts_with(LOG));
    if has_journal || rt.stdout().is_terminal() {
        0
    } else {
        BLOCK
    }
}

/// Runs the script on standard input, with the three policies by which a worker chooses a view; the threads are those of the
/// runtime.
fn run_script<T: Threads + Wait + Sync>(rt: &HostRuntime, threads: &T) -> Result<Status, NoMemory> {
    let alloc = rt.alloc();
    let words = words_of(rt)?;
    let oldest: Choice = Box::new(
        alloc,
        |list: &[Pending]| -> usize
            requires { IsChoice list.now }
            ensures { result ≡ chosen 0 list.now }
        { place_of_oldest(list) },
    )?;
    let most: Choice = Box::new(
        alloc,
        |list: &[Pending]| -> usize
            requires { IsChoice list.now }
            ensures { result ≡ chosen 1 list.now }
        { place_of_most(list) },
    )?;
    let first: Choice = Box::new(
        alloc,
        |list: &[Pending]| -> usize
            requires { IsChoice list.now }
            ensures { result ≡ chosen 2 list.now }
        { place_of_first(list) },
    )?;
    let mut pickers = Items::new(alloc);
    pickers.push(Picker::new(0, oldest))?;
    pickers.push(Picker::new(1, most))?;
    pickers.push(Picker::new(2, first))?;
    let mut source = StdSource::new(rt.reader());
    let block = block_of(rt, words.as_slice());
    let Ok(output) = BufWriter::with_capacity(alloc, block, io::writer(rt)) else {
        return Err(NoMemory);
    };
    let mut sink = StdSink::new(output);
    let mut disks = HostDisks::new(rt.clone()?);
    let ran = run(
        threads,
        alloc,
        words.as_slice(),
        &mut source,
        &mut sink,
        &mut disks,
        pickers,
        &FreeGate,
    );
    // The replies before a fault that ended the run. A whole run has flushed its own.
    let _ = sink.flush();
    Ok(ran.status)
}

/// How the run ends.
fn status_of<T: Threads + Wait + Sync>(rt: &HostRuntime, threads: &T) -> Status {
    match run_script(rt, threads) {
        Ok(status) => status,
        Err(NoMemory) => Status::NoMemory,
    }
}

/// Says on standard error how the run ended, unless it is done.
fn tell(rt: &HostRuntime, status: &Status) -> io::Result<()> {
    match status {
        Status::Done => Ok(()),
        Status::Words => eprintln!(rt; "lazyview: words refused"),
        Status::Script { line, kind } => {
            eprintln!(rt; "lazyview: script fault {kind} at line {line}")
        }
        Status::SourceFault => eprintln!(rt; "lazyview: source fault"),
        Status::SinkFault => eprintln!(rt; "lazyview: sink fault"),
        Status::BadJournal { offset } => {
            eprintln!(rt; "lazyview: bad journal at offset {offset}")
        }
        Status::OpenFault => eprintln!(rt; "lazyview: cannot open the journal"),
        Status::NoMemory => eprintln!(rt; "lazyview: out of memory"),
    }
}

// A standard stream that is closed would give its number to the next file that is opened, which may be the journal. So the folder
// takes the place of each that is: it can be neither read nor written.
fn main(rt: HostRuntime) -> ExitCode {
    let held = [
        File::open(&rt, NO_STREAM),
        File::open(&rt, NO_STREAM),
        File::open(&rt, NO_STREAM),
    ];
    let status = status_of(&rt, &rt);
    let _ = tell(&rt, &status);
    drop(held);
    ExitCode::from(status.number())
}
