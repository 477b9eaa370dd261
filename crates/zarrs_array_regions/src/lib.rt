//! Regions of chunks that stay regions through array-to-array codecs.
//!
//! The elements of a region are a small chunk, and a codec moves the elements of a region as it moves
//! a chunk's. So a region is read where the codecs take it, its window in the moved chunk, by that
//! window's own runs, and its elements are decoded at the region's own lengths; new elements are
//! encoded at these lengths and written in the window. What is answered and what is written is what
//! each place by itself would give: [`laws`].
//!
//! [`keeps_regions`] returns whether each region goes so, and [`kept_region`] one that does.
//! [`region_runs`] is where it stands in the moved chunk, [`region_window`] the window that these runs
//! are of, [`decoded_window`] the elements of the region from those that stand there, and
//! [`encode_region`] both the runs and the elements there, from those of the region. Through one
//! transposition of few axes the runs come straight from the region's own ranges. Where these are few,
//! [`few_region_runs`] puts them where they take no memory, and [`encode_first`] is the elements there.
//! A [`Window`] is what the laws speak of.
#![tactic(auto)]

mod decoded;
mod encoded;
mod few_runs;
mod kept;
mod last_window;
pub mod laws;
mod next;
mod ordered_runs;
mod runs;
mod window;

pub use decoded::decoded_window;
pub use encoded::encode_first;
pub use few_runs::{FewRuns, few_region_runs};
pub use kept::{filled_box, keeps_regions, kept_region};
pub use last_window::region_window;
pub use runs::{encode_region, region_runs};
pub use window::Window;
