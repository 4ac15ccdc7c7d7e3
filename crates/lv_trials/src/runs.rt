//! Runs over a source, a sink and a disk in memory.
ghost use Rattle.std.specs.Prelude.{◌≡◌, ◌<◌, ◌-◌, ◌^◌};
ghost use Rattle.lv_picker.specs.Choices.{IsChoice};
ghost use Rattle.lv_schema.specs.Policies.{chosen};

use lv_outside::{Disk, Disks, FreeGate, Gate, MemDisk, MemDisks, MemSink, MemSource, OneDisk};
use lv_picker::{Choice, Picker, place_of_first, place_of_most, place_of_oldest};
use lv_runner::{Ran, Status, run};
use lv_schema::Pending;
use lv_values::{Bytes, Items, NoMemory, Text};
use std::alloc::Global;
use std::sync::Wait;
use std::thread::Threads;

/// The words, the bytes of the script, and the calls of source and sink that fail, by their numbers.
#[derive(Clone, Copy)]
pub(crate) struct Given<'a> {
    pub words: &'a [&'a str],
    pub script: &'a [u8],
    pub source_fails: &'a [u64],
    pub sink_fails: &'a [u64],
}

/// How a run ended, what it wrote, and its disk, if one came back.
#[derive(Drop)]
pub(crate) struct Ended<D> {
    pub status: Status,
    pub text: Bytes,
    pub disk: Option<D>,
}

/// How a run ended, what it wrote, and what its disk in memory holds, if one came back.
#[derive(Drop)]
pub(crate) struct Left {
    pub status: Status,
    pub text: Bytes,
    pub disk: Option<Bytes>,
}

impl Left {
    /// Whether the run ended so, and wrote this.
    pub(crate) fn is(&self, status: Status, text: &[u8]) -> bool {
        self.status == status && self.text.as_slice() == text
    }

    /// Whether a disk came back that holds this.
    pub(crate) fn holds(&self, bytes: &[u8]) -> bool {
        match &self.disk {
            Some(disk) => disk.as_slice() == bytes,
            None => false,
        }
    }

    /// Whether a disk came back, and a second run over it answers a script so.
    pub(crate) fn shows<R: Threads + Wait + Sync>(
        &self,
        rt: &R,
        alloc: Global,
        script: &[u8],
        text: &[u8],
    ) -> Result<bool, NoMemory> {
        let Some(disk) = &self.disk else {
            return Ok(false);
        };
        Ok(run_again(rt, alloc, script, disk.as_slice())?.is(Status::Done, text))
    }
}

/// A disk in memory with these bytes, of which these calls fail: each a kind (1 length, 2 read, 3 write, 4 sync) and its number among
/// the calls of that kind.
fn disk_of(alloc: Global, bytes: &[u8], fails: &[(u8, u64)]) -> Result<MemDisk, NoMemory> {
    let fails = Items::from_slice(alloc, fails)?;
    Ok(MemDisk::new(Bytes::from_slice(alloc, bytes)?, fails))
}

/// These words.
pub(crate) fn words_of(alloc: Global, list: &[&str]) -> Result<Items<Text>, NoMemory> {
    let mut words = Items::new(alloc);
    for word in list {
        words.push(Text::from_str(alloc, word)?)?;
    }
    Ok(words)
}

/// A source that gives the script, of which calls fail as given.
fn source_of(alloc: Global, given: &Given<'_>) -> Result<MemSource, NoMemory> {
    let fails = Items::from_slice(alloc, given.source_fails)?;
    let script = Bytes::from_slice(alloc, given.script)?;
    Ok(MemSource::new(script, fails))
}

/// Runs with a picker of each kind. A function of its own, so that no way out of it lets go of what the run reads and writes.
fn run_picked<R: Threads + Wait + Sync, D: Disk + Send + Drop, O: Disks<Disk = D>, G: Gate + Sync>(
    rt: &R,
    alloc: Global,
    words: &[Text],
    source: &mut MemSource,
    sink: &mut MemSink,
    disks: &mut O,
    gate: &G,
) -> Result<Ran<D>, NoMemory>
    requires { (O.openings disks.old).asked < 2 ^ 64 - 1 }
{
    let mut pickers = Items::new(alloc);
    let oldest: Choice = Box::new(
        alloc,
        |list: &[Pending]| -> usize
            requires { IsChoice list.now }
            ensures { result ≡ chosen 0 list.now }
        { place_of_oldest(list) },
    )?;
    pickers.push(Picker::new(0, oldest))?;
    let most: Choice = Box::new(
        alloc,
        |list: &[Pending]| -> usize
            requires { IsChoice list.now }
            ensures { result ≡ chosen 1 list.now }
        { place_of_most(list) },
    )?;
    pickers.push(Picker::new(1, most))?;
    let first: Choice = Box::new(
        alloc,
        |list: &[Pending]| -> usize
            requires { IsChoice list.now }
            ensures { result ≡ chosen 2 list.now }
        { place_of_first(list) },
    )?;
    pickers.push(Picker::new(2, first))?;
    Ok(run(rt, alloc, words, source, sink, disks, pickers, gate))
}

/// Runs a script over a sink and disks.
fn run_into<R: Threads + Wait + Sync, D: Disk + Send + Drop, O: Disks<Disk = D>, G: Gate + Sync>(
    rt: &R,
    alloc: Global,
    given: &Given<'_>,
    sink: &mut MemSink,
    disks: &mut O,
    gate: &G,
) -> Result<Ran<D>, NoMemory>
    requires { (O.openings disks.old).asked < 2 ^ 64 - 1 }
{
    let words = words_of(alloc, given.words)?;
    let mut source = source_of(alloc, given)?;
    let ran = run_picked(rt, alloc, words.as_slice(), &mut source, sink, disks, gate);
    drop(source);
    drop(words);
    ran
}

/// Runs a script over disks.
pub(crate) fn run_with<
    R: Threads + Wait + Sync,
    D: Disk + Send + Drop,
    O: Disks<Disk = D>,
    G: Gate + Sync,
>(rt: &R, alloc: Global, given: &Given<'_>, disks: &mut O, gate: &G) -> Result<Ended<D>, NoMemory>
    requires { (O.openings disks.old).asked < 2 ^ 64 - 1 }
{
    let mut sink = MemSink::new(alloc, Items::from_slice(alloc, given.sink_fails)?);
    let ran = run_into(rt, alloc, given, &mut sink, disks, gate);
    let text = Bytes::from_slice(alloc, sink.written());
    drop(sink);
    let Ran { status, disk } = ran?;
    let text = text?;
    Ok(Ended { status, text, disk })
}

/// What a disk in memory holds, if there is one.
fn held_by(alloc: Global, disk: Option<MemDisk>) -> Result<Option<Bytes>, NoMemory> {
    let Some(disk) = disk else {
        return Ok(None);
    };
    let bytes = Bytes::from_slice(alloc, disk.bytes());
    drop(disk);
    Ok(Some(bytes?))
}

/// The same over disks in memory.
pub(crate) fn run_over<R: Threads + Wait + Sync, O: Disks<Disk = MemDisk>, G: Gate + Sync>(
    rt: &R,
    alloc: Global,
    given: &Given<'_>,
    disks: &mut O,
    gate: &G,
) -> Result<Left, NoMemory>
    requires { (O.openings disks.old).asked < 2 ^ 64 - 1 }
{
    let Ended { status, text, disk } = run_with(rt, alloc, given, disks, gate)?;
    let disk = held_by(alloc, disk)?;
    Ok(Left { status, text, disk })
}

/// The same over empty disks in memory, of which the asking of this number fails, with a gate that holds nothing back.
pub(crate) fn run_asking<R: Threads + Wait + Sync>(
    rt: &R,
    alloc: Global,
    given: &Given<'_>,
    asking_fails: u64,
) -> Result<Left, NoMemory> {
    let mut disks = MemDisks::new(alloc, Items::from_slice(alloc, &[asking_fails])?);
    let left = run_over(rt, alloc, given, &mut disks, &FreeGate);
    drop(disks);
    left
}

/// The same over one disk in memory that holds these bytes, of which these calls fail.
pub(crate) fn run_over_one<R: Threads + Wait + Sync, G: Gate + Sync>(
    rt: &R,
    alloc: Global,
    given: &Given<'_>,
    bytes: &[u8],
    fails: &[(u8, u64)],
    gate: &G,
) -> Result<Left, NoMemory> {
    let mut disks = OneDisk::new(alloc, disk_of(alloc, bytes, fails)?);
    let left = run_over(rt, alloc, given, &mut disks, gate);
    drop(disks);
    left
}

/// The same without words, where these calls of the disk and of the sink fail, with a gate that holds nothing back.
pub(crate) fn run_on<R: Threads + Wait + Sync>(
    rt: &R,
    alloc: Global,
    script: &[u8],
    bytes: &[u8],
    disk_fails: &[(u8, u64)],
    sink_fails: &[u64],
) -> Result<Left, NoMemory> {
    let given = Given {
        words: &[],
        script,
        source_fails: &[],
        sink_fails,
    };
    run_over_one(rt, alloc, &given, bytes, disk_fails, &FreeGate)
}

/// The same where no call fails.
pub(crate) fn run_again<R: Threads + Wait + Sync>(
    rt: &R,
    alloc: Global,
    script: &[u8],
    bytes: &[u8],
) -> Result<Left, NoMemory> {
    run_on(rt, alloc, script, bytes, &[], &[])
}
