//! A source and a sink in memory, each of whose calls fails in turn.

ghost use Rattle.std.specs.Prelude.{◌<◌, ◌^◌};

use lv_outside::{Ended, MemSink, MemSource, ReadFault, Sink, read_whole, write_whole};
use lv_values::{Bytes, Items, NoMemory};
use std::alloc::Global;

/// How many bytes are read of a source of three whose call of this number fails, and how that ends.
fn read_three(alloc: Global, fails: u64, limit: usize) -> Result<(usize, Ended), ReadFault>
    requires { limit < 2 ^ 63 }
{
    let bytes = Bytes::from_slice(alloc, b"abc")?;
    let failing = Items::from_slice(alloc, &[fails])?;
    let mut source = MemSource::new(bytes, failing);
    read_whole(alloc, &mut source, limit).map(|r| (r.0.len(), r.1))
}

#[test]
fn sources_are_read_whole(rt: HostRuntime) {
    for (fails, limit, want) in [
        (0, 9, Ok((3, Ended::AtEnd))),
        (0, 2, Ok((3, Ended::PastLimit))),
        (1, 9, Err(ReadFault::Failed)),
        (2, 9, Err(ReadFault::Failed)),
    ] {
        let got = read_three(rt.alloc(), fails, limit);
        assert_eq!(rt; got, want, "call {fails} fails, limit {limit}");
    }
}

/// Two writes and two flushes of a sink of which the second and the fourth call fail: which are done, and whether what was
/// written is whole.
fn write_and_flush(alloc: Global) -> Result<([bool; 4], bool), NoMemory> {
    let failing = Items::from_slice(alloc, &[2, 4])?;
    let mut sink = MemSink::new(alloc, failing);
    let done = [
        write_whole(&mut sink, b"ab").is_ok(),
        write_whole(&mut sink, b"cd").is_ok(),
        sink.flush().is_ok(),
        sink.flush().is_ok(),
    ];
    Ok((done, sink.written() == b"ab".as_slice()))
}

/// Whether the first write and the first flush are done alone, and what was written is whole.
fn is_written_whole(alloc: Global) -> Result<bool, NoMemory> {
    let (done, is_whole) = write_and_flush(alloc)?;
    Ok(is_whole && done == [true, false, true, false])
}

#[test]
fn pieces_are_written_whole(rt: HostRuntime) {
    assert!(rt; is_written_whole(rt.alloc()) == Ok(true));
}
