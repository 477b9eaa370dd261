//! Answers commands on one chunk: encodes, decodes, re-encodes, reads and writes it, by lines.
//!
//! The first line is the header, a JSON object with the chunk's `shape`, `data_type`, `fill_value`
//! and `codecs`. Each line after it is a command, which one line answers.
#![tactic(auto)]

pub mod arguments;
mod command;
mod lines;
pub mod run;
mod session;
pub mod streams;
