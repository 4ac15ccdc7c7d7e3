//! The streams over a reader and a writer that note their calls: what they are asked is passed on, and nothing fails
//! that did not fail below.

use lv_outside::{Ended, Sink, StdSink, StdSource, read_whole, write_whole};
use std::alloc::Global;
use std::io::{Error, ErrorKind, Read, Result as IoResult, Write};

/// Gives a byte a call, three in all, and fails at the call of this number.
#[derive(Drop)]
struct Bytewise {
    fails: u64,
    calls: u64,
    given: u64,
}

impl Read for Bytewise {
    fn read(&mut self, buf: &mut [u8]) -> IoResult<usize> {
        self.calls = self.calls.saturating_add(1);
        if self.calls == self.fails {
            return Err(Error::from(ErrorKind::Other));
        }
        if self.given >= 3 || buf.is_empty() {
            return Ok(0);
        }
        self.given += 1;
        buf[0] = b'x';
        Ok(1)
    }
}

/// Takes a byte a call, and fails at the call of this number; writes and flushes count together.
#[derive(Drop)]
struct Noting {
    fails: u64,
    calls: u64,
    taken: u64,
    flushes: u64,
}

impl Noting {
    fn call(&mut self) -> IoResult<()> {
        self.calls = self.calls.saturating_add(1);
        if self.calls == self.fails {
            return Err(Error::from(ErrorKind::Other));
        }
        Ok(())
    }
}

impl Write for Noting {
    fn write(&mut self, buf: &[u8]) -> IoResult<usize> {
        self.call()?;
        if buf.is_empty() {
            return Ok(0);
        }
        self.taken = self.taken.saturating_add(1);
        Ok(1)
    }

    fn flush(&mut self) -> IoResult<()> {
        self.call()?;
        self.flushes = self.flushes.saturating_add(1);
        Ok(())
    }
}

/// Whether all is read of a reader whose call of this number fails, and how that ends; none where it fails.
fn read_of(alloc: Global, fails: u64) -> Option<(bool, Ended)> {
    let reader = Bytewise {
        fails,
        calls: 0,
        given: 0,
    };
    let mut source = StdSource::new(reader);
    let (bytes, ended) = read_whole(alloc, &mut source, 9).ok()?;
    Some((bytes.as_slice() == b"xxx".as_slice(), ended))
}

#[test]
fn a_source_reads_what_its_reader_gives(rt: HostRuntime) {
    for fails in 0..5 {
        let wanted = (fails == 0).then_some((true, Ended::AtEnd));
        assert_eq!(rt; read_of(rt.alloc(), fails), wanted, "call {fails} fails");
    }
}

/// Whether three bytes are written and flushed where the call of this number fails; how many bytes the writer took, and how often
/// it was flushed.
fn written_to(fails: u64) -> (bool, u64, u64) {
    let mut writer = Noting {
        fails,
        calls: 0,
        taken: 0,
        flushes: 0,
    };
    let mut sink = StdSink::new(&mut writer);
    let done = write_whole(&mut sink, b"abc").is_ok() && sink.flush().is_ok();
    drop(sink);
    (done, writer.taken, writer.flushes)
}

#[test]
fn a_sink_writes_and_flushes_its_writer(rt: HostRuntime) {
    for (fails, taken, flushes) in [(0, 3, 1), (1, 0, 0), (3, 2, 0), (4, 3, 0)] {
        let wanted = (fails == 0, taken, flushes);
        assert_eq!(rt; written_to(fails), wanted, "call {fails} fails");
    }
}
