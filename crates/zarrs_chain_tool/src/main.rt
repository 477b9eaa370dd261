//! Encodes, decodes, re-encodes, reads and writes one chunk, by commands on the standard input.
//!
//! The first line is the header, a JSON object with the chunk's `shape`, `data_type`, `fill_value`
//! and `codecs`. Each line after it is a command, which one line answers. As the first argument
//! `--help` asks what the program takes, and `--version` which version it is; all other arguments are
//! passed over.
#![tactic(auto)]

use std::io;
use std::io::{BufReader, BufWriter};
use std::process::ExitCode;
use std::rt::Env;
use zarrs_tool_lines::arguments::{HELP, Request, VERSION, request_of};
use zarrs_tool_lines::run::{RunEnd, run};
use zarrs_tool_lines::streams::{StreamReader, StreamWriter};

/// What the first argument behind the program's name asks for. One that has no room here is longer
/// than each that asks for something, and is as none.
fn request<R: Env>(rt: &R) -> Request {
    let mut word = [0u8; 16];
    let len = rt.arg(1, &mut word).unwrap_or(0);
    request_of(&word[..len])
}

/// Answers the lines of the standard input, and returns how that ended.
fn run_on_standard_streams<R: Input + Print + AllocGlobal>(rt: &R) -> io::Result<RunEnd> {
    let mut reader = StreamReader::new(BufReader::new(rt.alloc(), rt.reader())?);
    let mut writer = StreamWriter::new(BufWriter::new(rt.alloc(), io::writer(rt))?);
    Ok(run(rt.alloc(), &mut reader, &mut writer))
}

/// Answers the lines of the standard input; the exit status says how that ended.
fn answer_lines<R: Input + Print + Eprint + AllocGlobal>(rt: &R) -> io::Result<ExitCode> {
    let end = run_on_standard_streams(rt)?;
    if let RunEnd::Fault(fault) = end {
        let _ = eprintln!(rt; "{fault}");
    }
    Ok(ExitCode::from(end.status()))
}

/// Prints a text, which ends in LF.
fn print_text<R: Print>(rt: &R, text: &str) -> io::Result<ExitCode> {
    print!(rt; "{text}")?;
    Ok(ExitCode::SUCCESS)
}

/// Does what the first argument asks for.
fn answer<R: Env + Input + Print + Eprint + AllocGlobal>(rt: &R) -> io::Result<ExitCode> {
    match request(rt) {
        Request::Lines => answer_lines(rt),
        Request::Help => print_text(rt, HELP),
        Request::Version => print_text(rt, VERSION),
    }
}

fn main(rt: HostRuntime) -> ExitCode {
    match answer(&rt) {
        Ok(status) => status,
        Err(error) => {
            let _ = eprintln!(rt; "zarrs_chain_tool: {error}");
            ExitCode::FAILURE
        }
    }
}
