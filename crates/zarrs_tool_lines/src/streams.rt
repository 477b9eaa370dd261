//! Streams of lines: what a run asks of the one that it reads and of the one that it writes, and
//! std's readers and writers as such streams.
ghost use Rattle.std.specs.Prelude.{◌≡◌, ℕ, Bool, List, Option, true, false, OnOk, is_err};
ghost use Rattle.std.specs.Io.BufRead.{strip_last};
ghost use Rattle.std.specs.Io.KnownBytes.{Appends, Keeps};
ghost use Rattle.zarrs_codec.specs.StorageState.{count_if};
ghost use Rattle.zarrs_tool_lines.specs.Lines.{LeavesFewer, TakesNext, lines_of};
ghost use Rattle.zarrs_tool_lines.specs.Streams.{stream_bytes_left, stream_bytes_written, flush_is_last, lines_to_read, read_faults, write_faults};

use std::io;
use std::io::{BufRead, ErrorKind, Write};

/// A stream whose lines are read.
///
/// It counts its calls that failed (modulo 2^64), and gives no more than a number of lines, behind
/// which it fails.
pub trait ReadLines {
    // The bytes that are left, where they are known.
    ghost remaining: { Self → Option (List ℕ) };

    // How many lines it gives at most.
    ghost lines_left: { Self → ℕ };

    // How many of its calls failed, modulo 2^64.
    ghost faults: { Self → ℕ };

    /// Reads the next line, without its end, or answers `false` where there is none. Lines end in LF,
    /// which the last one may lack. An error says that reading failed, or that the line didn't fit
    /// into memory.
    fn next_line(&mut self, line: &mut Vec<u8>) -> io::Result<bool>
        ensures next { TakesNext lines_of remaining self.old self.new line.new result }
        ensures fewer { LeavesFewer lines_left self.old self.new result }
        ensures counted { faults self.new ≡ count_if (is_err result) (faults self.old) };
}

/// A stream that lines are written to. It may hold back what is written, until it is flushed.
///
/// It counts its calls that failed (modulo 2^64), flushes that failed among them, and keeps in mind
/// whether it was flushed behind the last write.
pub trait WriteLines {
    // The bytes that were written, where they are known.
    ghost contents: { Self → Option (List ℕ) };

    // Whether its last call was a flush: that it failed, if it did, is counted.
    ghost is_flushed: { Self → Bool };

    // How many of its calls failed, modulo 2^64.
    ghost faults: { Self → ℕ };

    /// Writes all of these bytes, behind those before. An error says that writing failed.
    fn write_all(&mut self, bytes: &[u8]) -> io::Result<()>
        ensures written { OnOk result (Appends (contents self.old) (contents self.new) bytes.now) }
        ensures unflushed { is_flushed self.new ≡ false }
        ensures counted { faults self.new ≡ count_if (is_err result) (faults self.old) };

    /// Hands on all that is held back. An error says that this failed.
    fn flush(&mut self) -> io::Result<()>
        ensures kept { Keeps (contents self.old) (contents self.new) }
        ensures flushed { is_flushed self.new ≡ true }
        ensures counted { faults self.new ≡ count_if (is_err result) (faults self.old) };
}

/// Drops the LF that ends a line, if one does.
fn drop_end(line: &mut Vec<u8>)
    ensures written { line.new.items ≡ strip_last 10 line.old.items }
{
    let len = line.len();
    if len > 0 && line[len - 1] == b'\n' {
        line.truncate(len - 1);
    }
}

/// Reads the next line of a reader of std, without its end, or answers `false` where there is none.
fn read_line<R: BufRead>(reader: &mut R, line: &mut Vec<u8>) -> io::Result<bool>
    ensures next { TakesNext lines_of R.remaining reader.old reader.new line.new result }
{
    line.clear();
    if reader.read_until(b'\n', line)? == 0 {
        return Ok(false);
    }
    drop_end(line);
    Ok(true)
}

/// A reader of std as a stream of lines, of no more than 2^64-1 lines.
///
/// What std promises of a reader is which bytes it has left, where they are known; whether it
/// failed it says by its answers alone. So it is proved that the lines are those of the reader's
/// bytes, and that an error is counted where one is answered, and nowhere else. That `next_line`
/// answers one exactly where the reader did, or behind 2^64-1 lines, is for its few lines to show,
/// and for tests: a body that answered an error of its own would be proved too.
#[derive(Drop)]
pub struct StreamReader<R> {
    reader: R,
    lines_left: u64,
    faults: u64,
}

impl<R: BufRead> StreamReader<R> {
    /// The stream of the lines that this reader gives. Nothing has failed yet.
    pub fn new(reader: R) -> StreamReader<R>
        ensures bytes { stream_bytes_left R.remaining result ≡ R.remaining reader }
        ensures no_faults { read_faults result ≡ 0 }
    {
        StreamReader {
            reader,
            lines_left: u64::MAX,
            faults: 0,
        }
    }

    /// As `next_line`, without the count of failures.
    fn take_line(&mut self, line: &mut Vec<u8>) -> io::Result<bool>
        ensures next { TakesNext lines_of (stream_bytes_left R.remaining) self.old self.new line.new result }
        ensures fewer { LeavesFewer lines_to_read self.old self.new result }
        ensures kept { read_faults self.new ≡ read_faults self.old }
    {
        if self.lines_left == 0 {
            return Err(ErrorKind::TimedOut.into());
        }
        self.lines_left -= 1;
        read_line(&mut self.reader, line)
    }
}

impl<R: BufRead> ReadLines for StreamReader<R> {
    ghost remaining = { stream_bytes_left R.remaining };

    ghost lines_left = { lines_to_read };

    ghost faults = { read_faults };

    fn next_line(&mut self, line: &mut Vec<u8>) -> io::Result<bool> {
        let taken = self.take_line(line);
        if taken.is_err() {
            self.faults = self.faults.wrapping_add(1);
        }
        taken
    }
}

/// A writer of std as a stream that lines are written to.
///
/// What std promises of a writer is which bytes it holds, where they are known; whether it failed it
/// says by its answers alone, and of a flush nothing but that these bytes stay. So it is proved that
/// the bytes are written to the writer, and that an error is counted where one is answered, and
/// nowhere else. That `flush` flushes the writer, and that an error is the writer's own, is for
/// these few lines to show, and for tests: a body that asked the writer for nothing would be proved
/// too.
#[derive(Drop)]
pub struct StreamWriter<W> {
    writer: W,
    is_flushed: bool,
    faults: u64,
}

impl<W: Write> StreamWriter<W> {
    /// The stream that writes to this writer. Nothing has failed yet.
    pub fn new(writer: W) -> StreamWriter<W>
        ensures bytes { stream_bytes_written W.contents result ≡ W.contents writer }
        ensures no_faults { write_faults result ≡ 0 }
    {
        StreamWriter {
            writer,
            is_flushed: false,
            faults: 0,
        }
    }

    /// The writer, without the stream.
    pub fn into_inner(self) -> W
        ensures bytes { W.contents result ≡ stream_bytes_written W.contents self }
    {
        self.writer
    }
}

impl<W: Write> WriteLines for StreamWriter<W> {
    ghost contents = { stream_bytes_written W.contents };

    ghost is_flushed = { flush_is_last };

    ghost faults = { write_faults };

    fn write_all(&mut self, bytes: &[u8]) -> io::Result<()> {
        self.is_flushed = false;
        let written = self.writer.write_all(bytes);
        if written.is_err() {
            self.faults = self.faults.wrapping_add(1);
        }
        written
    }

    fn flush(&mut self) -> io::Result<()> {
        self.is_flushed = true;
        let flushed = self.writer.flush();
        if flushed.is_err() {
            self.faults = self.faults.wrapping_add(1);
        }
        flushed
    }
}
