//! The one error of reading metadata and of making a codec of it.
ghost use Rattle.std.specs.Prelude.{◌≡◌};
ghost use Rattle.zarrs_metadata.specs.PluginCreateError.{plugin_name_of};
ghost use Rattle.zarrs_metadata.specs.declared.plugin_create_error.PluginCreateError.TheVariants.{OutOfMemory};

use std::alloc::{AllocError, AllocFailed};
use std::error::Error;
use std::fmt;

/// Why metadata can't be read or written, or no codec can be made from it. Nothing in it is on the
/// heap.
///
/// Where several errors hold, each call's contract states which one it returns. `OutOfMemory` may
/// come in place of any of them where a call allocates; that an allocation failed is no clause.
/// Clauses fix the name of an error, and not the text that `Display` writes of it.
#[derive(Clone, Copy, Debug, PartialEq, Eq)]
pub enum PluginCreateError {
    /// An allocation failed.
    OutOfMemory,
    /// No codec has this name.
    UnknownName,
    /// A key is missing, or a value is of another kind than its key asks for.
    InvalidConfiguration,
    /// A list of codecs has no array-to-bytes codec.
    MissingArrayToBytes,
    /// A list of codecs has more than one array-to-bytes codec.
    MultipleArrayToBytes,
    /// A bit range ends before it starts.
    BitOrder,
    /// More than one size of a reshape is automatic.
    MultipleAuto,
    /// A size of a reshape, or of the inner chunks of `sharding_indexed`, is zero.
    ZeroSize,
    /// An order of axes doesn't name each axis once.
    NotAPermutation,
}

impl PluginCreateError {
    /// The variant's name.
    pub fn name(&self) -> &'static str
        ensures value { result.now ≡ plugin_name_of self.now }
    {
        match self {
            PluginCreateError::OutOfMemory => "OutOfMemory",
            PluginCreateError::UnknownName => "UnknownName",
            PluginCreateError::InvalidConfiguration => "InvalidConfiguration",
            PluginCreateError::MissingArrayToBytes => "MissingArrayToBytes",
            PluginCreateError::MultipleArrayToBytes => "MultipleArrayToBytes",
            PluginCreateError::BitOrder => "BitOrder",
            PluginCreateError::MultipleAuto => "MultipleAuto",
            PluginCreateError::ZeroSize => "ZeroSize",
            PluginCreateError::NotAPermutation => "NotAPermutation",
        }
    }
}

impl fmt::Display for PluginCreateError {
    fn fmt<W: fmt::Write>(&self, f: &mut fmt::Formatter<W>) -> fmt::Result {
        f.write_str(self.name())
    }
}

impl Error for PluginCreateError {}

impl From<AllocError> for PluginCreateError {
    ghost from_gives = { λ _ e. e ≡ OutOfMemory };

    fn from(_error: AllocError) -> PluginCreateError {
        PluginCreateError::OutOfMemory
    }
}

impl<T: Drop> From<AllocFailed<T>> for PluginCreateError {
    ghost from_gives = { λ _ e. e ≡ OutOfMemory };

    fn from(_error: AllocFailed<T>) -> PluginCreateError {
        PluginCreateError::OutOfMemory
    }
}
