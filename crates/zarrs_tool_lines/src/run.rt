//! Answers the lines of a reader.
ghost use Rattle.std.specs.Prelude.{◌≡◌, OnOk, true};
ghost use Rattle.zarrs_tool_lines.specs.Faults.{CountsFault, ReportsFault, fault_in, fault_of};
ghost use Rattle.zarrs_tool_lines.specs.Run.{EndsBad, EndsDone, EndsReplied};
ghost use Rattle.zarrs_tool_lines.specs.RunStatus.{status_of, IfGood, IfBad};
ghost use Rattle.zarrs_tool_lines.specs.Session.{state_of};

use crate::lines::{flush, next_filled_line, write_line, write_refusal};
use crate::session::Session;
use crate::streams::{ReadLines, WriteLines};
use std::alloc::Global;
use std::error::Error;
use std::fmt;

/// Which stream failed first.
#[derive(Clone, Copy, Debug, PartialEq, Eq)]
pub enum StreamFault {
    /// The reader failed, or a line of it didn't fit into memory.
    Reader,
    /// The writer failed.
    Writer,
}

impl fmt::Display for StreamFault {
    fn fmt<W: fmt::Write>(&self, f: &mut fmt::Formatter<W>) -> fmt::Result {
        f.write_str(match self {
            StreamFault::Reader => "reading failed, or a line didn't fit into memory",
            StreamFault::Writer => "writing failed",
        })
    }
}

impl Error for StreamFault {}

/// How a run ended.
#[derive(Clone, Copy, Debug, PartialEq, Eq)]
pub enum RunEnd {
    /// The reader was read to its end, and each line that isn't empty is answered.
    Done,
    /// The header opened nothing; its one answer is written.
    BadHeader,
    /// A stream failed, at the latest in the flush.
    Fault(StreamFault),
}

impl RunEnd {
    /// The exit status of a program that ends as the run did: 0 where it is done, 2 for a bad header,
    /// 1 where a stream failed.
    pub fn status(&self) -> u8
        ensures value { result ≡ status_of self.now }
    {
        match self {
            RunEnd::Done => 0,
            RunEnd::BadHeader => 2,
            RunEnd::Fault(_) => 1,
        }
    }
}

/// Answers the lines that are left.
fn serve<R: ReadLines, W: WriteLines>(
    alloc: Global,
    session: &mut Session,
    reader: &mut R,
    writer: &mut W,
    line: &mut Vec<u8>,
) -> Result<(), StreamFault>
    // Wide: it names the session, and both streams before and after.
    ensures done { OnOk result
        (EndsReplied (state_of session.old) (R.remaining reader.old) (R.remaining reader.new)
        (W.contents writer.old) (W.contents writer.new)) }
    ensures fault { CountsFault R.faults reader.old reader.new W.faults writer.old writer.new result }
{
    'commands: while next_filled_line(reader, line)? {
        match session.answer(alloc, line) {
            Ok(answer) => write_line(writer, &answer)?,
            Err(refusal) => write_refusal(writer, refusal)?,
        }
    }
    Ok(())
}

/// Answers the header and the lines after it: whether the header was good, or there was none.
fn try_run<R: ReadLines, W: WriteLines>(
    alloc: Global,
    input: &mut R,
    output: &mut W,
) -> Result<bool, StreamFault>
    ensures done { IfGood R.remaining input.old input.new W.contents output.old output.new result }
    ensures bad { IfBad R.remaining input.old W.contents output.old output.new result }
    ensures fault { CountsFault R.faults input.old input.new W.faults output.old output.new result }
{
    let mut line = Vec::new(alloc);
    if !next_filled_line(input, &mut line)? {
        return Ok(true);
    }
    match Session::open(alloc, &line) {
        Ok(mut session) => {
            serve(alloc, &mut session, input, output, &mut line)?;
            Ok(true)
        }
        Err(refusal) => {
            write_refusal(output, refusal)?;
            Ok(false)
        }
    }
}

/// As `try_run`; whatever came of it, what was written is flushed. The first fault is answered.
fn run_and_flush<R: ReadLines, W: WriteLines>(
    alloc: Global,
    input: &mut R,
    output: &mut W,
) -> Result<bool, StreamFault>
    ensures done { IfGood R.remaining input.old input.new W.contents output.old output.new result }
    ensures bad { IfBad R.remaining input.old W.contents output.old output.new result }
    ensures fault { ReportsFault R.faults input.old input.new W.faults output.old output.new
        (fault_in result) }
    ensures flushed { W.is_flushed output.new ≡ true }
{
    let ended = try_run(alloc, input, output);
    let flushed = flush(output);
    let is_header_good = ended?;
    flushed?;
    Ok(is_header_good)
}

/// Answers the lines of a reader up to its end, or its header alone where that is bad. Lines end in
/// LF alone, which the last one may lack; empty ones are passed over. The first of the others is the
/// header, and each one after it is a command that has one answer line. The writer is flushed in
/// every ending. The run ends as a fault exactly where a stream failed in it, the flush included: the
/// reader's, where both did.
///
/// A line may be answered `error OutOfMemory` where memory is wanting; what is stored stays.
pub fn run<R: ReadLines, W: WriteLines>(alloc: Global, reader: &mut R, writer: &mut W) -> RunEnd
    ensures done { result ≡ RunEnd.Done → EndsDone (R.remaining reader.old)
        (R.remaining reader.new) (W.contents writer.old) (W.contents writer.new) }
    ensures bad { result ≡ RunEnd.BadHeader → EndsBad (R.remaining reader.old)
        (W.contents writer.old) (W.contents writer.new) }
    ensures fault { ReportsFault R.faults reader.old reader.new W.faults writer.old writer.new
        (fault_of result) }
    ensures flushed { W.is_flushed writer.new ≡ true }
{
    match run_and_flush(alloc, reader, writer) {
        Ok(true) => RunEnd::Done,
        Ok(false) => RunEnd::BadHeader,
        Err(fault) => RunEnd::Fault(fault),
    }
}
