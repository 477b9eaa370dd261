//! Boxes of index tuples.
ghost use Rattle.std.specs.Prelude.{◌≡◌, ◌+◌, ◌^◌, ◌<◌, ◌&&◌, ℕ, Ok, length, replicate, slice_index};
ghost use Rattle.std.specs.Bool.{nat_eq};
ghost use Rattle.std.specs.Cmp.Lexicographic.{pointwise};
ghost use Rattle.std.specs.Cmp.Rules.{comparing};
ghost use Rattle.std.proofs.Common.{rules};
ghost use Rattle.zarrs_chunk.specs.Answer.{memory, checked_u64, AnswersValue};
ghost use Rattle.zarrs_chunk.specs.ArraySubset.{ends_fit, subset_of_ranges, subset_of_start_shape};
ghost use Rattle.zarrs_chunk.specs.ChunkShape.{product};
ghost use Rattle.zarrs_chunk.specs.Selection.{subset as subset_of, len_of};

use crate::boxes::checked_product;
use crate::codec_error::CodecError;
use std::alloc::Global;
use std::marker::Model;
use std::ops::Range;

/// A box of index tuples: one range an axis, which may be empty, and which ends below `2^64`.
#[derive(Debug, Drop)]
pub struct ArraySubset {
    starts: Vec<u64>,
    lengths: Vec<u64>,
}

impl Model for ArraySubset {
    ghost use Rattle.zarrs_chunk.specs.Region.{Region, IsRegion};

    ghost Value = { Region };

    ghost view = { λ subset. record { starts = subset.starts.items; lengths = subset.lengths.items } };

    ghost invariant = { λ subset. IsRegion subset.starts.items subset.lengths.items };
}

/// Whether each range of a box ends where 64 bits hold it.
fn all_ends_fit(starts: &[u64], lengths: &[u64]) -> bool
    ensures value { result ≡ ends_fit starts.now lengths.now }
{
    starts
        .iter()
        .zip(lengths.iter())
        .all(|(start, len)| *len <= u64::MAX - *start)
}

impl ArraySubset {
    /// The box of these ranges, one an axis. Errors: `OutOfMemory`; `ReversedRange` where a range
    /// ends before it starts.
    pub fn new_with_ranges(alloc: Global, ranges: &[Range<u64>]) -> Result<ArraySubset, CodecError>
        ensures answer { AnswersValue memory result (subset_of_ranges ranges.now) }
    {
        let mut starts = Vec::with_capacity(alloc, ranges.len())?;
        let mut lengths = Vec::with_capacity(alloc, ranges.len())?;
        for range in ranges {
            if range.start > range.end {
                return Err(CodecError::ReversedRange);
            }
            starts.push(range.start)?;
            lengths.push(range.end - range.start)?;
        }
        Ok(ArraySubset { starts, lengths })
    }

    /// The box that begins at `start` and is `shape` long, both one number an axis. Errors, the
    /// first that holds: `IncompatibleDimensionality` where their axes differ; `Overflow` where a
    /// range ends past `2^64 - 1`.
    pub fn new_with_start_shape(start: Vec<u64>, shape: Vec<u64>) -> Result<ArraySubset, CodecError>
        ensures answer { result ≡ subset_of_start_shape start.items shape.items }
    {
        if start.len() != shape.len() {
            return Err(CodecError::IncompatibleDimensionality);
        }
        if !all_ends_fit(start.as_slice(), shape.as_slice()) {
            return Err(CodecError::Overflow);
        }
        Ok(ArraySubset {
            starts: start,
            lengths: shape,
        })
    }

    /// The box of all tuples of `shape`. Errors: `OutOfMemory`.
    pub fn new_with_shape(alloc: Global, shape: Vec<u64>) -> Result<ArraySubset, CodecError>
        ensures made { AnswersValue memory result
            (Ok (record { starts = replicate (length shape.items) 0; lengths = shape.items })) }
    {
        let starts = vec![in alloc; 0; shape.len()]?;
        Ok(ArraySubset {
            starts,
            lengths: shape,
        })
    }

    /// Where each range begins.
    pub fn start(&self) -> &[u64]
        ensures value { result.now ≡ self.now.starts }
    {
        self.starts.as_slice()
    }

    /// How long each range is. There is a length for each start, and their sum is below `2^64`.
    pub fn shape(&self) -> &[u64]
        ensures value { result.now ≡ self.now.lengths }
        ensures axes { length self.now.starts ≡ length self.now.lengths }
        ensures ends { (axis : ℕ) → axis < length self.now.starts
            → slice_index self.now.starts axis + slice_index self.now.lengths axis < 2 ^ 64 }
    {
        self.lengths.as_slice()
    }

    /// How many tuples the box has: the product of its lengths. Errors: `Overflow`.
    pub fn num_elements(&self) -> Result<u64, CodecError>
        ensures product { result ≡ checked_u64 (product self.now.lengths) }
        ensures tuples { result ≡ len_of (subset_of self.now) }
    {
        checked_product(self.lengths.as_slice()).ok_or(CodecError::Overflow)
    }

    /// An equal subset. Errors: `OutOfMemory`.
    pub fn clone(&self) -> Result<ArraySubset, CodecError>
        ensures copy { AnswersValue memory result (Ok self.now) }
    {
        let starts = self.starts.clone()?;
        let lengths = self.lengths.clone()?;
        Ok(ArraySubset { starts, lengths })
    }
}

impl PartialEq for ArraySubset {
    ghost eq = { λ one other. pointwise nat_eq one.starts other.starts && pointwise nat_eq one.lengths other.lengths };

    ghost laws = { Prim.search (comparing, rules) };

    fn eq(&self, other: &ArraySubset) -> bool {
        self.starts == other.starts && self.lengths == other.lengths
    }
}

impl Eq for ArraySubset {
    ghost laws = { Prim.search (comparing, rules) };
}
