//! The header of a chunk that C keeps between calls. `Kept` is what is kept, in a box of its own, and
//! `KeptChain` is C's handle on such a box, or on none. Handles of several threads may share a header.
#![tactic(auto)]

mod keeping;
mod kept;
mod kept_chain;
mod place;

pub use kept::Kept;
pub use kept_chain::KeptChain;
