//! The keys of chunks.
ghost use Rattle.std.specs.Prelude.{◌≡◌, ◌++◌, ◌∷◌, [], IfOk, OnOk, string_bytes};
ghost use Rattle.zarrs_array_plan.specs.ChunkKeys.{separator_byte, separated, key_of};

use std::alloc::{AllocError, Global};

/// What stands between the indices in a key.
#[derive(Clone, Copy, Debug, PartialEq, Eq)]
pub enum ChunkKeySeparator {
    /// `/`
    Slash,
    /// `.`
    Dot,
}

impl ChunkKeySeparator {
    fn text(self) -> &'static str
        ensures value { result.now ≡ separator_byte self ∷ [] }
    {
        match self {
            ChunkKeySeparator::Slash => "/",
            ChunkKeySeparator::Dot => ".",
        }
    }
}

/// How the indices of a chunk make its key.
#[derive(Clone, Copy, Debug, PartialEq, Eq)]
pub enum ChunkKeyEncoding {
    /// `default`: `c`, and each index with the separator before it.
    Default(ChunkKeySeparator),
    /// `v2`: the indices with the separator between them, or `0` where there are none.
    V2(ChunkKeySeparator),
}

/// Appends numbers, each with the separator before it.
fn push_separated(
    key: &mut String,
    separator: ChunkKeySeparator,
    numbers: &[u64],
) -> Result<(), AllocError>
    ensures appended { OnOk result (string_bytes key.new
        ≡ string_bytes key.old ++ separated (separator_byte separator) numbers.now) }
{
    for number in numbers {
        key.push_str(separator.text())?;
        write!(key, "{number}")?;
    }
    Ok(())
}

impl ChunkKeyEncoding {
    /// The key of the chunk of these indices, one an axis. Two chunks of an array never share one
    /// ([`laws::keys_differ`](crate::laws::keys_differ)).
    pub fn encode(self, alloc: Global, chunk: &[u64]) -> Result<String, AllocError>
        ensures key { IfOk result (λ key. string_bytes key ≡ key_of self chunk.now) }
    {
        let mut key = String::new(alloc);
        match self {
            ChunkKeyEncoding::Default(separator) => {
                key.push_str("c")?;
                push_separated(&mut key, separator, chunk)?;
            }
            ChunkKeyEncoding::V2(separator) => match chunk {
                [] => key.push_str("0")?,
                [first, rest @ ..] => {
                    write!(key, "{first}")?;
                    push_separated(&mut key, separator, rest)?;
                }
            },
        }
        Ok(key)
    }
}
