//! Lines of a run, read and written.
ghost use Rattle.std.specs.Prelude.{◌≡◌, true, IfErr, is_err};
ghost use Rattle.std.specs.Io.KnownBytes.{Keeps};
ghost use Rattle.zarrs_codec.specs.StorageState.{count_if};
ghost use Rattle.zarrs_tool_lines.specs.Lines.{LeavesFewer, TakesNext, filled_lines};
ghost use Rattle.zarrs_tool_lines.specs.Run.{output_line, refusal_line, Outputs};

use crate::run::StreamFault;
use crate::streams::{ReadLines, WriteLines};
use std::io;
use zarrs_json::Refusal;

/// Reads lines until one isn't empty, or answers `false` where none is left.
fn read_filled_line<R: ReadLines>(reader: &mut R, line: &mut Vec<u8>) -> io::Result<bool>
    ensures next { TakesNext filled_lines R.remaining reader.old reader.new line.new result }
    ensures fewer { LeavesFewer R.lines_left reader.old reader.new result }
    ensures counted { R.faults reader.new ≡ count_if (is_err result) (R.faults reader.old) }
{
    'lines: while reader.next_line(line)? {
        if !line.is_empty() {
            return Ok(true);
        }
    }
    Ok(false)
}

/// As `read_filled_line`; where that fails, the reader is at fault.
pub fn next_filled_line<R: ReadLines>(
    reader: &mut R,
    line: &mut Vec<u8>,
) -> Result<bool, StreamFault>
    ensures next { TakesNext filled_lines R.remaining reader.old reader.new line.new result }
    ensures fewer { LeavesFewer R.lines_left reader.old reader.new result }
    ensures counted { R.faults reader.new ≡ count_if (is_err result) (R.faults reader.old) }
    ensures cause { IfErr result (λ fault. fault ≡ StreamFault.Reader) }
{
    match read_filled_line(reader, line) {
        Ok(is_read) => Ok(is_read),
        Err(_) => Err(StreamFault::Reader),
    }
}

fn append_line<W: WriteLines>(writer: &mut W, answer: &[u8]) -> io::Result<()>
    ensures written { Outputs W.contents writer.old writer.new (output_line answer.now) result }
    ensures counted { W.faults writer.new ≡ count_if (is_err result) (W.faults writer.old) }
{
    writer.write_all(answer)?;
    writer.write_all(b"\n")
}

fn append_refusal<W: WriteLines>(writer: &mut W, refusal: Refusal) -> io::Result<()>
    ensures written { Outputs W.contents writer.old writer.new (refusal_line refusal) result }
    ensures counted { W.faults writer.new ≡ count_if (is_err result) (W.faults writer.old) }
{
    writer.write_all(b"error ")?;
    writer.write_all(refusal.name().as_bytes())?;
    writer.write_all(b"\n")
}

/// Writes an answer, and the line's end.
pub fn write_line<W: WriteLines>(writer: &mut W, answer: &[u8]) -> Result<(), StreamFault>
    ensures written { Outputs W.contents writer.old writer.new (output_line answer.now) result }
    ensures counted { W.faults writer.new ≡ count_if (is_err result) (W.faults writer.old) }
    ensures cause { IfErr result (λ fault. fault ≡ StreamFault.Writer) }
{
    match append_line(writer, answer) {
        Ok(()) => Ok(()),
        Err(_) => Err(StreamFault::Writer),
    }
}

/// Writes the answer to a line that fails.
pub fn write_refusal<W: WriteLines>(writer: &mut W, refusal: Refusal) -> Result<(), StreamFault>
    ensures written { Outputs W.contents writer.old writer.new (refusal_line refusal) result }
    ensures counted { W.faults writer.new ≡ count_if (is_err result) (W.faults writer.old) }
    ensures cause { IfErr result (λ fault. fault ≡ StreamFault.Writer) }
{
    match append_refusal(writer, refusal) {
        Ok(()) => Ok(()),
        Err(_) => Err(StreamFault::Writer),
    }
}

/// Hands on all that is held back.
pub fn flush<W: WriteLines>(writer: &mut W) -> Result<(), StreamFault>
    ensures kept { Keeps (W.contents writer.old) (W.contents writer.new) }
    ensures flushed { W.is_flushed writer.new ≡ true }
    ensures counted { W.faults writer.new ≡ count_if (is_err result) (W.faults writer.old) }
    ensures cause { IfErr result (λ fault. fault ≡ StreamFault.Writer) }
{
    match writer.flush() {
        Ok(()) => Ok(()),
        Err(_) => Err(StreamFault::Writer),
    }
}
