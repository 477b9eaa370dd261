//! Shapes of chunks.
ghost use Rattle.std.specs.Prelude.{◌≡◌, Ok, ◌<◌, All};
ghost use Rattle.std.specs.Bool.{nat_eq};
ghost use Rattle.std.specs.Cmp.Lexicographic.{pointwise};
ghost use Rattle.std.specs.Cmp.Rules.{comparing};
ghost use Rattle.std.proofs.Common.{rules};
ghost use Rattle.zarrs_chunk.specs.Answer.{memory, checked_u64, AnswersValue};
ghost use Rattle.zarrs_chunk.specs.ChunkShape.{product, shape_of};

use crate::boxes::checked_product;
use crate::codec_error::CodecError;
use std::marker::Model;

/// The sizes of a chunk's axes, none of them zero. A shape without axes has one element.
#[derive(Debug, Drop)]
pub struct ChunkShape {
    sizes: Vec<u64>,
}

impl Model for ChunkShape {
    ghost use Rattle.std.specs.Prelude.{◌<◌, List, ℕ, All};

    ghost Value = { List ℕ };

    ghost view = { λ shape. shape.sizes.items };

    ghost invariant = { λ shape. All (λ size. 0 < size) shape.sizes.items };
}

impl ChunkShape {
    /// The shape of these sizes, or `None` where one of them is zero.
    pub fn new(sizes: Vec<u64>) -> Option<ChunkShape>
        ensures answer { result ≡ shape_of sizes.items }
    {
        if sizes.contains(&0) {
            return None;
        }
        Some(ChunkShape { sizes })
    }

    /// The sizes, one an axis.
    pub fn as_slice(&self) -> &[u64]
        ensures value { result.now ≡ self.now }
        ensures positive { All (λ size. 0 < size) result.now }
    {
        self.sizes.as_slice()
    }

    /// The product of the sizes. Errors: `Overflow`.
    pub fn num_elements(&self) -> Result<u64, CodecError>
        ensures answer { result ≡ checked_u64 (product self.now) }
    {
        checked_product(self.as_slice()).ok_or(CodecError::Overflow)
    }

    /// An equal shape. Errors: `OutOfMemory`.
    pub fn clone(&self) -> Result<ChunkShape, CodecError>
        ensures copy { AnswersValue memory result (Ok self.now) }
    {
        let sizes = self.sizes.clone()?;
        Ok(ChunkShape { sizes })
    }
}

impl PartialEq for ChunkShape {
    ghost eq = { λ one other. pointwise nat_eq one other };

    ghost laws = { Prim.search (comparing, rules) };

    fn eq(&self, other: &ChunkShape) -> bool {
        self.sizes == other.sizes
    }
}

impl Eq for ChunkShape {
    ghost laws = { Prim.search (comparing, rules) };
}
