//! A view of the elements of an array, at the places of a subset.
ghost use Rattle.std.specs.Prelude.{◌≡◌, ◌+◌, ◌*◌, ◌^◌, ◌<◌, ◌≤◌, All, length};
ghost use Rattle.zarrs_chunk.specs.Runs.{joined_runs};
ghost use Rattle.zarrs_chunk.specs.Answer.{Answers, memory};

use crate::runs::count_places;
use crate::write::write_places;
use std::alloc::Global;
use zarrs_chunk::{ArraySubset, ChunkShape, CodecError, Indexer};

/// The elements of a subset of an array, to be written into the array's own bytes: elements of one
/// size, in row-major order.
#[derive(Debug, Drop)]
pub struct ArrayBytesFixedView<'a> {
    bytes: &'a mut [u8],
    element_size: usize,
    count: u64,
    runs: Vec<(u64, u64)>,
    ghost whole: { length bytes.now ≡ count * element_size },
    ghost inside: { All (λ run. run.0 + run.1 ≤ count) runs.items },
    ghost few: { length (joined_runs runs.items) < 2 ^ 64 },
}

impl<'a> ArrayBytesFixedView<'a> {
    ghost use Rattle.std.specs.Prelude.{◌≡◌, OnOk, OnErr, IfOk};
    ghost use Rattle.zarrs_array_bytes.specs.ArrayBytesFixedView.{view_of, IsWritten};
    ghost use Rattle.zarrs_array_bytes.specs.DecodeTarget.{takes_elements};
    ghost use Rattle.zarrs_array_bytes.specs.FixedView.{fixed_view, view_length, elements_fit};

    /// The elements of the subset of an array of this shape, whose elements have `element_size` bytes
    /// each and are in `bytes`. Errors, the first that applies, `OutOfMemory` aside:
    /// `TargetMismatch` where an element has no byte; `IncompatibleDimensionality` and `OutOfBounds` of
    /// the subset; `Overflow` where the array has `2^64` elements or bytes or more;
    /// `InvalidBytesLength` where `bytes` are not as many as the array has.
    pub fn new(
        alloc: Global,
        bytes: &'a mut [u8],
        element_size: usize,
        shape: &ChunkShape,
        subset: ArraySubset,
    ) -> Result<ArrayBytesFixedView<'a>, CodecError>
        ensures answer { Answers memory view_of result
            (fixed_view bytes.old element_size shape.now subset) }
        ensures same_reference { IfOk result (λ v. v.bytes.ghost_name ≡ bytes.entry.ghost_name) }
    {
        if element_size == 0 {
            return Err(CodecError::TargetMismatch);
        }
        let runs = Indexer::Subset(subset).runs(alloc, shape)?;
        let count = shape.num_elements()?;
        let expected = match count.checked_mul(element_size as u64) {
            None => return Err(CodecError::Overflow),
            Some(expected) => expected,
        };
        let len = bytes.len() as u64;
        if len != expected {
            return Err(CodecError::InvalidBytesLength { len, expected });
        }
        Ok(ArrayBytesFixedView {
            bytes,
            element_size,
            count,
            runs,
        })
    }

    /// All bytes of the array.
    pub fn as_slice(&self) -> &[u8]
        ensures value { result.now ≡ (view_of self.now).bytes }
    {
        &self.bytes[..]
    }

    /// Writes the subset's elements, one after another in its row-major order, a run at a
    /// time. All other bytes stay as they were. Errors: `TargetMismatch` where they are not as many
    /// bytes as the subset's elements have; then nothing is written.
    pub fn copy_from_slice(&mut self, elements: &[u8]) -> Result<(), CodecError>
        ensures answer { result ≡ elements_fit (view_of self.old) elements.now }
        ensures written { OnOk result (IsWritten self.old self.new elements.now) }
        ensures kept { OnErr result (view_of self.new ≡ view_of self.old) }
        ensures same_reference { self.new.bytes.ghost_name ≡ self.old.bytes.ghost_name }
    {
        let expected = count_places(self.runs.as_slice()) * self.element_size as u128;
        if elements.len() as u128 != expected {
            return Err(CodecError::TargetMismatch);
        }
        self.write(elements);
        Ok(())
    }

    /// Writes the subset's elements, as many bytes as they have.
    pub(crate) fn write(&mut self, elements: &[u8])
        requires enough { length elements.now ≡ view_length (view_of self.old) }
        ensures written { IsWritten self.old self.new elements.now }
        ensures same_reference { self.new.bytes.ghost_name ≡ self.old.bytes.ghost_name }
    {
        write_places(
            self.bytes,
            elements,
            self.element_size,
            self.count,
            self.runs.as_slice(),
        );
    }

    /// How many elements these are.
    pub(crate) fn count(&self) -> u64
        ensures value { result ≡ length (view_of self.now).places }
    {
        count_places(self.runs.as_slice()) as u64
    }

    /// Whether these are so many elements of this size.
    pub(crate) fn takes(&self, size: usize, count: u64) -> bool
        ensures value { result ≡ takes_elements (view_of self.now) size count }
    {
        self.element_size == size && self.count() == count
    }
}
