//! Calls over arrays of many chunks for C: numbers and bytes in and out, and a code for each error. The
//! static library `zarrs_c` exports them.
//!
//! How a region of an array is planned, and what its parts are, is that of `zarrs_array_plan`; how chunks
//! are stored, read and written is left to the caller. A call returns 0 where all is done, 1 where a
//! buffer is too short, and else the code of the first error; a call that fails leaves the caller's
//! buffers and counts as they were.
#![tactic(auto)]

mod array_plan;
mod crossed;
mod given;
pub mod laws;
mod part_put;
mod part_runs;
mod part_take;
mod refusal;
mod sizes;
mod tell;

pub use array_plan::zarrs_array_plan;
pub use part_put::zarrs_part_put;
pub use part_take::zarrs_part_take;
pub use refusal::ArrayRefusal;
pub use sizes::PlanSizes;
