//! What is answered, and writers that fail in a write or in the flush.
use crate::checks::is;
use crate::tool::sent::{SENT, Sent, run_over};
use std::alloc::{AllocError, Global};
use std::io;
use std::io::{ErrorKind, Write};
use std::process::Abort;
use zarrs_tool_lines::run::{RunEnd, StreamFault};

/// What came of two runs is the same, except where an allocation failed in one of them: that ends a
/// test, and isn't compared with what is expected.
fn agree<T: PartialEq>(one: &T, other: &T) -> Result<(), AllocError> {
    if one == other {
        Ok(())
    } else {
        Err(AllocError)
    }
}

/// Takes so many writes and then fails, and may fail when it is flushed. It counts the bytes that it
/// took since it was flushed.
#[derive(Drop)]
struct FakeWriter {
    writes_left: usize,
    can_flush: bool,
    unflushed: usize,
}

impl Write for FakeWriter {
    fn write(&mut self, buf: &[u8]) -> io::Result<usize> {
        if self.writes_left == 0 {
            return Err(ErrorKind::Other.into());
        }
        self.writes_left -= 1;
        self.unflushed = self.unflushed.saturating_add(buf.len());
        Ok(buf.len())
    }

    fn flush(&mut self) -> io::Result<()> {
        if !self.can_flush {
            return Err(ErrorKind::Other.into());
        }
        self.unflushed = 0;
        Ok(())
    }
}

fn is_answered(rt: &impl Abort, alloc: Global, row: &Sent) -> Result<(), AllocError> {
    let mut written = Vec::new(alloc);
    let end = run_over(alloc, row, &mut written)?;
    let mut again = Vec::new(alloc);
    let ended = run_over(alloc, row, &mut again)?;
    let came = (end, written.as_slice());
    agree(&came, &(ended, again.as_slice()))?;
    is(rt, row.name, &came, &(row.end, row.answers));
    Ok(())
}

#[test]
fn that_take_all(rt: HostRuntime) -> Result<(), AllocError> {
    for row in SENT.iter() {
        is_answered(&rt, rt.alloc(), row)?;
    }
    Ok(())
}

/// More writes than a run of the table needs.
const MANY: usize = 100;

/// How a run ends over a writer that takes so many writes, how many are left of them, and whether
/// anything is left to flush though it can be flushed.
fn end_over(
    alloc: Global,
    row: &Sent,
    writes: usize,
    can_flush: bool,
) -> Result<(RunEnd, usize, bool), AllocError> {
    let mut writer = FakeWriter {
        writes_left: writes,
        can_flush,
        unflushed: 0,
    };
    let end = run_over(alloc, row, &mut writer)?;
    Ok((end, writer.writes_left, can_flush && writer.unflushed > 0))
}

/// The run ends so over a writer that takes so many writes, and where all is written, all is flushed.
/// The answer is how many writes are left.
fn ends(
    rt: &impl Abort,
    alloc: Global,
    row: &Sent,
    writes: usize,
    can_flush: bool,
    end: RunEnd,
) -> Result<usize, AllocError> {
    let came = end_over(alloc, row, writes, can_flush)?;
    agree(&came, &end_over(alloc, row, writes, can_flush)?)?;
    let (ended, left, is_held_back) = came;
    is(rt, row.name, &(ended, is_held_back), &(end, false));
    Ok(left)
}

/// How a run ends that fails to write behind its lines: the reader's fault stands, which came first.
fn unwritten(row: &Sent) -> RunEnd {
    match row.end {
        RunEnd::Fault(fault) => RunEnd::Fault(fault),
        _ => RunEnd::Fault(StreamFault::Writer),
    }
}

/// With fewer writes than a run needs it ends as the writer's fault, and so where the flush fails: the
/// disk may be full when the last bytes go out.
fn needs_each_write(rt: &impl Abort, alloc: Global, row: &Sent) -> Result<(), AllocError> {
    ends(rt, alloc, row, MANY, false, unwritten(row))?;
    let left = ends(rt, alloc, row, MANY, true, row.end)?;
    let needed = MANY.saturating_sub(left);
    for writes in 0..needed {
        ends(
            rt,
            alloc,
            row,
            writes,
            true,
            RunEnd::Fault(StreamFault::Writer),
        )?;
    }
    ends(rt, alloc, row, needed, true, row.end)?;
    Ok(())
}

#[test]
fn that_fail_in_a_write_or_in_the_flush(rt: HostRuntime) -> Result<(), AllocError> {
    for row in SENT.iter() {
        needs_each_write(&rt, rt.alloc(), row)?;
    }
    Ok(())
}
