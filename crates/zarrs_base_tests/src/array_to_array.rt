//! The codecs that move elements, by the calls of the traits, behind the enum of them all, and stages of
//! each codec over an input of `bytes`.
mod calls;
mod examples;
mod forms;
mod stages;
mod tables;
