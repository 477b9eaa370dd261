//! How many items the buffers of a call have, and what each of a list of selections or edits takes.

/// How many mask bytes, offsets and bytes elements cross as.
#[repr(C)]
#[derive(Clone, Copy, Debug)]
pub struct Sizes {
    pub masks: usize,
    pub offsets: usize,
    pub bytes: usize,
}

/// A selection of a list of them: its count of tuples, and how many of the joined numbers it takes.
#[repr(C)]
#[derive(Clone, Copy, Debug)]
pub struct SelectionSize {
    pub tuples: u64,
    pub numbers: usize,
}

/// An edit of a list of them: its selection's count of tuples, and how many of the joined numbers and of
/// the joined bytes it takes.
#[repr(C)]
#[derive(Clone, Copy, Debug)]
pub struct EditSize {
    pub tuples: u64,
    pub numbers: usize,
    pub bytes: usize,
}
