//! How many items a plan has.

/// How many chunks a plan has; and how many bytes of keys, offsets and numbers it crosses as.
#[repr(C)]
#[derive(Clone, Copy, Debug)]
pub struct PlanSizes {
    pub chunks: usize,
    pub keys: usize,
    pub offsets: usize,
    pub numbers: usize,
}
