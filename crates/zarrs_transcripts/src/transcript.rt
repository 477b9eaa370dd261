//! A transcript's runs: what is sent, what has to come back, and what does.
use std::alloc::{AllocError, Global};
use std::str::Split;
use zarrs_tool_lines::run::{RunEnd, run};
use zarrs_tool_lines::streams::{StreamReader, StreamWriter};

/// How a run ends where its transcript says nothing of that: all that is sent is read.
const DONE: &str = "= done";

/// A line that is sent, and what has to come back to it.
#[derive(Clone, Copy)]
struct Exchange<'t> {
    /// Which line of the file it is, the first being 1.
    number: usize,
    /// What is sent; nothing where it is an empty line, or where an answer stands below no line.
    sent: &'t str,
    /// The answer that is wanted; empty where none is.
    wanted: &'t str,
}

/// What a transcript says of a run.
#[derive(Drop)]
struct Script<'t> {
    exchanges: Vec<Exchange<'t>>,
    /// All that is sent, with the lines' ends.
    input: String,
    /// The line that says how the run has to end.
    end: &'t str,
}

/// What a run gave: the answers to its lines, in order, and how it ended.
#[derive(Drop)]
struct Reply {
    answers: String,
    end: &'static str,
}

/// Where a transcript was not kept to.
#[derive(Drop)]
pub struct Difference<'t> {
    /// Which line of the file it is, the first being 1.
    pub number: usize,
    /// The line that was sent.
    pub sent: &'t str,
    /// What has to come back; nothing where it is empty.
    pub wanted: &'t str,
    /// What came back; nothing where it is empty.
    pub came: String,
}

fn push_line(text: &mut String, line: &str) -> Result<(), AllocError> {
    text.push_str(line)?;
    text.push('\n')
}

impl<'t> Script<'t> {
    fn new(alloc: Global) -> Script<'t> {
        Script {
            exchanges: Vec::new(alloc),
            input: String::new(alloc),
            end: DONE,
        }
    }

    fn push(&mut self, number: usize, sent: &'t str, wanted: &'t str) -> Result<(), AllocError> {
        self.exchanges.push(Exchange {
            number,
            sent,
            wanted,
        })?;
        Ok(())
    }

    /// Takes what stands behind `>`: a space and a line, nothing for an empty line, or `| ` and a
    /// last line that has no end.
    fn read_sent(&mut self, number: usize, text: &'t str) -> Result<(), AllocError> {
        if let Some(sent) = text.strip_prefix("| ") {
            self.input.push_str(sent)?;
            return self.push(number, sent, "");
        }
        let sent = text.strip_prefix(' ').unwrap_or(text);
        push_line(&mut self.input, sent)?;
        self.push(number, sent, "")
    }

    /// Takes an answer for the line above it. A second one below the same line stands below none.
    fn read_answer(&mut self, number: usize, answer: &'t str) -> Result<(), AllocError> {
        let count = self.exchanges.len();
        if count > 0 && self.exchanges[count - 1].wanted.is_empty() {
            self.exchanges[count - 1].wanted = answer;
            return Ok(());
        }
        self.push(number, "", answer)
    }

    fn read_line(&mut self, number: usize, line: &'t str) -> Result<(), AllocError> {
        if line.is_empty() || line.starts_with('#') {
            return Ok(());
        }
        if line.starts_with('=') {
            self.end = line;
            return Ok(());
        }
        match line.strip_prefix('>') {
            Some(text) => self.read_sent(number, text),
            None => self.read_answer(number, line),
        }
    }
}

/// What the lines of a run say, the first of which is the file's line of this number.
fn read_script(alloc: Global, first: usize, lines: &str) -> Result<Script<'_>, AllocError> {
    let mut script = Script::new(alloc);
    for (index, line) in lines.split('\n').enumerate() {
        script.read_line(first.saturating_add(index), line)?;
    }
    Ok(script)
}

fn name_of_end(end: RunEnd) -> &'static str {
    match end {
        RunEnd::Done => DONE,
        RunEnd::BadHeader => "= bad header",
        RunEnd::Fault(_) => "= fault",
    }
}

/// What comes back where this is sent. A good header is answered by nothing, which stands as an
/// empty line.
fn play(alloc: Global, input: &str) -> Result<Reply, AllocError> {
    let mut reader = StreamReader::new(input.as_bytes());
    let mut writer = StreamWriter::new(Vec::new(alloc));
    let end = run(alloc, &mut reader, &mut writer);
    let mut answers = String::new(alloc);
    if end != RunEnd::BadHeader {
        answers.push('\n')?;
    }
    let written = writer.into_inner();
    let written = String::from_utf8_lossy(alloc, &written)?;
    answers.push_str(written.as_str())?;
    Ok(Reply {
        answers,
        end: name_of_end(end),
    })
}

impl<'t> Exchange<'t> {
    /// What came back: the next answer, or nothing for an empty line.
    fn answer<'r>(&self, answers: &mut Split<'r, char>) -> &'r str {
        if self.sent.is_empty() {
            ""
        } else {
            answers.next().unwrap_or("")
        }
    }
}

/// The first line that was answered otherwise than wanted, and what came back to it.
fn first_other<'t, 'r>(
    exchanges: &[Exchange<'t>],
    answers: &mut Split<'r, char>,
) -> Option<(Exchange<'t>, &'r str)> {
    for exchange in exchanges {
        let came = exchange.answer(answers);
        if came != exchange.wanted {
            return Some((*exchange, came));
        }
    }
    None
}

/// What came of a run behind its answers: more lines, or how it ended. First what is wanted.
fn endings<'t, 'r>(script: &Script<'t>, reply: &Reply, more: &'r str) -> (&'t str, &'r str) {
    if more.is_empty() {
        (script.end, reply.end)
    } else {
        ("", more)
    }
}

/// The line that was sent last.
fn last_of<'t>(exchanges: &[Exchange<'t>], first: usize) -> Exchange<'t> {
    exchanges.last().copied().unwrap_or(Exchange {
        number: first,
        sent: "",
        wanted: "",
    })
}

/// What is wanted against what came, at an exchange.
fn compare<'t>(
    alloc: Global,
    exchange: &Exchange<'t>,
    wanted: &'t str,
    came: &str,
) -> Result<Option<Difference<'t>>, AllocError> {
    if wanted == came {
        return Ok(None);
    }
    Ok(Some(Difference {
        number: exchange.number,
        sent: exchange.sent,
        wanted,
        came: came.to_string(alloc)?,
    }))
}

/// Plays a run, whose first line is the file's line of this number.
fn check_run(
    alloc: Global,
    first: usize,
    lines: &str,
) -> Result<Option<Difference<'_>>, AllocError> {
    let script = read_script(alloc, first, lines)?;
    let reply = play(alloc, script.input.as_str())?;
    let mut answers = reply.answers.split('\n');
    if let Some((exchange, came)) = first_other(&script.exchanges, &mut answers) {
        return compare(alloc, &exchange, exchange.wanted, came);
    }
    let (wanted, came) = endings(&script, &reply, answers.next().unwrap_or(""));
    compare(alloc, &last_of(&script.exchanges, first), wanted, came)
}

/// Plays the runs of a transcript: the first line that was answered otherwise than it says, if any.
pub fn first_difference(
    alloc: Global,
    transcript: &str,
) -> Result<Option<Difference<'_>>, AllocError> {
    let mut number = 1;
    for lines in transcript.split("\n\n") {
        let found = check_run(alloc, number, lines)?;
        if found.is_some() {
            return Ok(found);
        }
        number = lines
            .split('\n')
            .count()
            .saturating_add(1)
            .saturating_add(number);
    }
    Ok(None)
}
