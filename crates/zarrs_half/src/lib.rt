//! Floats of 16 bits: each finite one as an `f64`, and the one nearest to an `f64`.
#![tactic(auto)]

mod half_format;
pub mod laws;

pub use half_format::HalfFormat;
