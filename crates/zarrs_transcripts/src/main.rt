//! Plays the transcripts of the tool that lie in the folder that the argument names, or without one
//! in the folder that the program is run in.
//!
//! A transcript is a file NAME.txt that reads like a page of a manual: lines that are sent, and below
//! each the line that has to come back. Its lines end in LF, and a CR is a byte of its line, as for the
//! tool. How they begin:
//!
//! - `> ` sends what stands behind it, `>` alone an empty line, and `>| ` a last line that has no end.
//! - `#` is a remark.
//! - `= bad header` or `= fault` says how the run has to end; without one it has to read all that is
//!   sent.
//! - Any other line has to come back, as the answer to the line above it. Where none stands below a
//!   line, nothing may come back to it.
//!
//! An empty line ends a run, and the next one begins with a header of its own.
//!
//! The program prints one line for each file, in the order of their names: `ok NAME`, or the first
//! difference. Its status is 0 where all are ok.
#![tactic(auto)]

mod transcript;

use std::process::ExitCode;
use std::rt::{Env, Files};
use std::{env, fs, io};
use transcript::{Difference, first_difference};

/// Goes to the folder that the argument names, if there is one.
fn enter_folder<R: Env + AllocGlobal>(rt: &R) -> io::Result<()> {
    match env::args(rt)?.nth(1) {
        Some(folder) => env::set_current_dir(rt, folder.as_str()),
        None => Ok(()),
    }
}

/// The names of the transcripts in the folder, in order.
fn names<R: Files + AllocGlobal + Clone + Drop>(rt: &R) -> io::Result<Vec<String>> {
    let mut names = Vec::new(rt.alloc());
    for entry in fs::read_dir(rt, ".")? {
        let entry = entry?;
        if entry.file_name().ends_with(".txt") {
            names.push(entry.file_name().to_string(rt.alloc())?)?;
        }
    }
    names.sort()?;
    Ok(names)
}

/// How an answer is shown in a difference.
fn shown(answer: &str) -> &str {
    if answer.is_empty() { "nothing" } else { answer }
}

fn report<R: Print>(rt: &R, name: &str, difference: &Difference<'_>) -> io::Result<()> {
    let number = difference.number;
    let sent = difference.sent;
    let came = shown(difference.came.as_str());
    let wanted = shown(difference.wanted);
    println!(rt; "{name}, line {number}: to `{sent}` came `{came}`, and `{wanted}` is wanted")
}

/// Plays a file and prints what came of it: whether all went as it says.
fn play<R: Files + Print + AllocGlobal>(rt: &R, name: &str) -> io::Result<bool> {
    let text = fs::read_to_string(rt, name)?;
    match first_difference(rt.alloc(), text.as_str())? {
        None => {
            println!(rt; "ok {name}")?;
            Ok(true)
        }
        Some(difference) => {
            report(rt, name, &difference)?;
            Ok(false)
        }
    }
}

/// Plays all files: whether there was one, and all went as they say.
fn play_all<R: Files + Print + AllocGlobal + Clone + Drop>(rt: &R) -> io::Result<bool> {
    let names = names(rt)?;
    let mut are_all_same = !names.is_empty();
    for name in &names {
        if !play(rt, name.as_str())? {
            are_all_same = false;
        }
    }
    Ok(are_all_same)
}

fn main(rt: HostRuntime) -> io::Result<ExitCode> {
    enter_folder(&rt)?;
    if play_all(&rt)? {
        Ok(ExitCode::SUCCESS)
    } else {
        Ok(ExitCode::FAILURE)
    }
}
