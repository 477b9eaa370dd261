//! The errors of lines.
ghost use Rattle.std.specs.Prelude.{◌≡◌};
ghost use Rattle.zarrs_json.specs.Refusal.{chain_refusal, refusal_name};
ghost use Rattle.zarrs_json.specs.declared.refusal.Refusal.TheVariants.{Making, Codec};
ghost use Rattle.zarrs_chunk.specs.declared.codec_error.CodecError.TheVariants.{OutOfMemory};

use std::alloc::{AllocError, AllocFailed};
use std::error::Error;
use std::fmt;
use zarrs_chain::ChainJsonError;
use zarrs_chunk::CodecError;
use zarrs_metadata::PluginCreateError;

/// The error of a line.
#[derive(Clone, Copy, Debug, PartialEq, Eq)]
pub enum Refusal {
    /// The line doesn't read: no such command, no such argument, no UTF-8, or a float in it.
    Syntax,
    /// No chain can be made of a list of metadata, or memory is lacking for it.
    Making(PluginCreateError),
    /// A codec fails, or memory is lacking.
    Codec(CodecError),
}

impl Refusal {
    /// The name that an answer has for an error, without what it carries.
    pub fn name(&self) -> &'static str
        ensures value { result.now ≡ refusal_name self.now }
    {
        match self {
            Refusal::Syntax => "Syntax",
            Refusal::Making(error) => error.name(),
            Refusal::Codec(error) => error.name(),
        }
    }
}

impl fmt::Display for Refusal {
    fn fmt<W: fmt::Write>(&self, f: &mut fmt::Formatter<W>) -> fmt::Result {
        match self {
            Refusal::Syntax => f.write_str("Syntax"),
            Refusal::Making(error) => write!(f, "{error}"),
            Refusal::Codec(error) => write!(f, "{error}"),
        }
    }
}

impl Error for Refusal {}

impl From<PluginCreateError> for Refusal {
    ghost from_gives = { λ error refusal. refusal ≡ Making error };

    fn from(error: PluginCreateError) -> Refusal {
        Refusal::Making(error)
    }
}

impl From<ChainJsonError> for Refusal {
    ghost from_gives = { λ error refusal. refusal ≡ chain_refusal error };

    fn from(error: ChainJsonError) -> Refusal {
        match error {
            ChainJsonError::NotJson | ChainJsonError::NotAList => Refusal::Syntax,
            ChainJsonError::Create(error) => Refusal::Making(error),
        }
    }
}

impl From<CodecError> for Refusal {
    ghost from_gives = { λ error refusal. refusal ≡ Codec error };

    fn from(error: CodecError) -> Refusal {
        Refusal::Codec(error)
    }
}

impl From<AllocError> for Refusal {
    ghost from_gives = { λ _ refusal. refusal ≡ Codec OutOfMemory };

    fn from(_error: AllocError) -> Refusal {
        Refusal::Codec(CodecError::OutOfMemory)
    }
}

impl<T: Drop> From<AllocFailed<T>> for Refusal {
    ghost from_gives = { λ _ refusal. refusal ≡ Codec OutOfMemory };

    fn from(_error: AllocFailed<T>) -> Refusal {
        Refusal::Codec(CodecError::OutOfMemory)
    }
}
