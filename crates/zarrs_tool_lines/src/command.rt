//! A line's command.
ghost use Rattle.std.specs.Prelude.{◌≡◌, ◌==◌, position, Some, None};
ghost use Rattle.zarrs_tool_lines.specs.Commands.{command_of as command_of_line, command_named};
ghost use Rattle.zarrs_tool_lines.specs.Seen.{command_seen};

/// A command and its argument.
#[derive(Clone, Copy, Debug)]
pub enum Command<'a> {
    /// The value of these elements is asked for; it isn't stored.
    Encode(&'a [u8]),
    /// This value, in hex, is stored.
    Load(&'a [u8]),
    /// The elements at these places are asked for.
    Read(&'a [u8]),
    /// These elements are written at these places.
    Write(&'a [u8]),
    /// The stored value under these codecs is asked for; the stored one stays.
    Reencode(&'a [u8]),
    /// The stored value's chunk is asked for.
    Decode,
    /// Nothing is stored any more.
    Erase,
    /// The stored value is asked for.
    Value,
    /// Any other line.
    Unknown,
}

fn with_argument<'a>(word: &[u8], argument: &'a [u8]) -> Command<'a>
    ensures value { command_seen result ≡ command_named word.now (Some argument.now) }
{
    if word == b"encode".as_slice() {
        Command::Encode(argument)
    } else if word == b"load".as_slice() {
        Command::Load(argument)
    } else if word == b"read".as_slice() {
        Command::Read(argument)
    } else if word == b"write".as_slice() {
        Command::Write(argument)
    } else if word == b"reencode".as_slice() {
        Command::Reencode(argument)
    } else {
        Command::Unknown
    }
}

fn alone(word: &[u8]) -> Command<'static>
    ensures value { command_seen result ≡ command_named word.now None }
{
    if word == b"decode".as_slice() {
        Command::Decode
    } else if word == b"erase".as_slice() {
        Command::Erase
    } else if word == b"value".as_slice() {
        Command::Value
    } else {
        Command::Unknown
    }
}

fn first_space(line: &[u8]) -> Option<usize>
    ensures value { result ≡ position (λ byte. byte == 32) line.now }
{
    line.iter().position(|byte| *byte == b' ')
}

/// The command of a line: a word and, behind the first space, an argument.
pub fn command_of(line: &[u8]) -> Command<'_>
    ensures value { command_seen result ≡ command_of_line line.now }
{
    match first_space(line) {
        None => alone(line),
        Some(at) => with_argument(&line[..at], &line[at + 1..]),
    }
}
