//! Lines, some of which are no text, and readers that fail: such a run ends as a fault, and the lines
//! that came whole are answered.
use std::alloc::{AllocError, Global};
use std::io;
use std::io::{BufReader, ErrorKind, Read, Write};
use zarrs_tool_lines::run::{RunEnd, StreamFault, run};
use zarrs_tool_lines::streams::{StreamReader, StreamWriter};

/// A header of one element that is good, as a line.
const HEADER: &'static [u8] =
    b"{\"shape\":[1],\"data_type\":\"uint8\",\"fill_value\":\"00\",\"codecs\":[\"bytes\"]}\n";

/// What is sent, what is answered, and how the run ends.
pub(crate) struct Sent {
    pub(crate) name: &'static str,
    pub(crate) header: &'static [u8],
    pub(crate) lines: &'static [u8],
    /// Whether the reader fails behind the lines, in place of their end.
    pub(crate) fails: bool,
    pub(crate) answers: &'static [u8],
    pub(crate) end: RunEnd,
}

/// Bytes that are no text, and lines whose answers a writer takes.
pub(crate) const SENT: &'static [Sent] = &[
    Sent {
        name: "commands that are no UTF-8",
        header: HEADER,
        lines: b"load \"\xff\"\n\xff\nvalue\n",
        fails: false,
        answers: b"error Syntax\nerror Syntax\nok none\n",
        end: RunEnd::Done,
    },
    Sent {
        name: "a header that is no UTF-8",
        header: b"\xff\n",
        lines: b"value\n",
        fails: false,
        answers: b"error Syntax\n",
        end: RunEnd::BadHeader,
    },
    Sent {
        name: "a failure in the middle of a line",
        header: HEADER,
        lines: b"value\nload \"0a\"\nval",
        fails: true,
        answers: b"ok none\nok\n",
        end: RunEnd::Fault(StreamFault::Reader),
    },
    Sent {
        name: "a failure in place of the end",
        header: HEADER,
        lines: b"value\n",
        fails: true,
        answers: b"ok none\n",
        end: RunEnd::Fault(StreamFault::Reader),
    },
    Sent {
        name: "a failure in the header",
        header: b"{\"shape\"",
        lines: b"",
        fails: true,
        answers: b"",
        end: RunEnd::Fault(StreamFault::Reader),
    },
    Sent {
        name: "a failure before the header",
        header: b"\n\n",
        lines: b"",
        fails: true,
        answers: b"",
        end: RunEnd::Fault(StreamFault::Reader),
    },
    Sent {
        name: "an answer, a refusal and an answer again",
        header: HEADER,
        lines: b"value\nsing\nvalue\n",
        fails: false,
        answers: b"ok none\nerror Syntax\nok none\n",
        end: RunEnd::Done,
    },
    Sent {
        name: "a bad header",
        header: b"sing\n",
        lines: b"",
        fails: false,
        answers: b"error Syntax\n",
        end: RunEnd::BadHeader,
    },
    Sent {
        name: "no line",
        header: b"",
        lines: b"",
        fails: false,
        answers: b"",
        end: RunEnd::Done,
    },
];

/// Gives the bytes of the header, then those of the lines, and then may fail.
#[derive(Drop)]
struct FakeReader {
    header: &'static [u8],
    lines: &'static [u8],
    fails: bool,
}

impl Read for FakeReader {
    fn read(&mut self, buf: &mut [u8]) -> io::Result<usize> {
        if !self.header.is_empty() {
            return self.header.read(buf);
        }
        if self.lines.is_empty() && self.fails {
            return Err(ErrorKind::Other.into());
        }
        self.lines.read(buf)
    }
}

/// A reader of what is sent. Only for a lack of memory there is none.
fn reader(alloc: Global, row: &Sent) -> Result<BufReader<FakeReader>, AllocError> {
    let reader = FakeReader {
        header: row.header,
        lines: row.lines,
        fails: row.fails,
    };
    match BufReader::new(alloc, reader) {
        Ok(reader) => Ok(reader),
        Err(_) => Err(AllocError),
    }
}

/// Runs what is sent, and writes the answers.
pub(crate) fn run_over<W: Write>(
    alloc: Global,
    row: &Sent,
    writer: &mut W,
) -> Result<RunEnd, AllocError> {
    let mut reader = StreamReader::new(reader(alloc, row)?);
    let mut writer = StreamWriter::new(writer);
    Ok(run(alloc, &mut reader, &mut writer))
}
