//! The one error of names of element types and of fill values.
ghost use Rattle.std.specs.Prelude.{◌≡◌};
ghost use Rattle.zarrs_fill_values.specs.ElementError.{element_error_name};
ghost use Rattle.zarrs_fill_values.specs.declared.element_error.ElementError.TheVariants.{OutOfMemory};

use std::alloc::{AllocError, AllocFailed};
use std::error::Error;
use std::fmt;

/// Why a data type or a fill value can't be read or written. Nothing in it is on the heap.
///
/// `OutOfMemory` may come from a call that allocates, in place of its answer. Clauses fix the name of
/// an error, and not the text that `Display` writes of it.
#[derive(Clone, Copy, Debug, PartialEq, Eq)]
pub enum ElementError {
    /// An allocation failed.
    OutOfMemory,
    /// No type of elements has this name, or it has a configuration that it can't have.
    UnsupportedDataType,
    /// A fill value isn't one of its type.
    InvalidFillValue,
}

impl ElementError {
    /// The variant's name.
    pub fn name(&self) -> &'static str
        ensures value { result.now ≡ element_error_name self.now }
    {
        match self {
            ElementError::OutOfMemory => "OutOfMemory",
            ElementError::UnsupportedDataType => "UnsupportedDataType",
            ElementError::InvalidFillValue => "InvalidFillValue",
        }
    }
}

impl fmt::Display for ElementError {
    fn fmt<W: fmt::Write>(&self, f: &mut fmt::Formatter<W>) -> fmt::Result {
        f.write_str(self.name())
    }
}

impl Error for ElementError {}

impl From<AllocError> for ElementError {
    ghost from_gives = { λ _ e. e ≡ OutOfMemory };

    fn from(_error: AllocError) -> ElementError {
        ElementError::OutOfMemory
    }
}

impl<T: Drop> From<AllocFailed<T>> for ElementError {
    ghost from_gives = { λ _ e. e ≡ OutOfMemory };

    fn from(_error: AllocFailed<T>) -> ElementError {
        ElementError::OutOfMemory
    }
}
