//! A handle on a span of another handle's value.
ghost use Rattle.std.specs.Prelude.{◌≡◌, ◌+◌, ◌≤◌, ◌^◌, ◌<◌, All, IfOk, true, nat_le};
ghost use Rattle.std.specs.List.{list_all};
ghost use Rattle.zarrs_lent_handles.specs.SpanHandle.{is_span_of, moved_ranges, span_state};

use std::alloc::{AllocError, Global};
use zarrs_chunk::CodecError;
use zarrs_codec::{ByteRange, BytesPartialDecoderTraits};

/// A handle on the bytes from `at` on, `len` of them, of the value of a handle that is lent.
///
/// What is asked of it is asked of that handle, at the ranges as they stand there, so no byte
/// outside of the span is. A range that ends behind the span is an error, whatever stands there.
#[derive(Drop)]
pub struct SpanHandle<'a, H: BytesPartialDecoderTraits> {
    handle: &'a mut H,
    at: u64,
    len: u64,
    ghost inside: { is_span_of at len (H.state handle.now).value ≡ true },
    ghost counted: { at + len < 2 ^ 64 },
}

/// Whether each range ends within so many bytes.
fn are_inside(len: u64, ranges: &[ByteRange]) -> bool
    ensures value { result ≡ list_all (λ range. nat_le range.end len) ranges.now }
{
    for range in ranges {
        if range.end() > len {
            return false;
        }
    }
    true
}

/// The ranges as they stand in the whole value.
fn moved(alloc: Global, at: u64, ranges: &[ByteRange]) -> Result<Vec<ByteRange>, AllocError>
    requires counted { All (λ range. at + range.end < 2 ^ 64) ranges.now }
    ensures value { IfOk result (λ moved. moved.items ≡ moved_ranges at ranges.now) }
{
    let mut moved = Vec::with_capacity(alloc, ranges.len())?;
    for range in ranges {
        let end = at + range.end();
        let start = at + range.start();
        match ByteRange::new(start..end) {
            None => unreachable!(),
            Some(range) => moved.push(range)?,
        }
    }
    Ok(moved)
}

impl<'a, H: BytesPartialDecoderTraits> SpanHandle<'a, H> {
    /// A handle on these bytes of a handle's value. It takes no memory, and asks for nothing.
    pub fn new(handle: &'a mut H, at: u64, len: u64) -> SpanHandle<'a, H>
        requires inside { is_span_of at len (H.state handle.old).value ≡ true }
        requires counted { at + len < 2 ^ 64 }
        ensures made { span_state result.at result.len (H.state result.handle.now) ≡ span_state at len (H.state handle.old) }
        ensures same_reference { result.handle.ghost_name ≡ handle.entry.ghost_name }
        ensures handle { result.handle.now ≡ handle.old }
    {
        SpanHandle { handle, at, len }
    }

    /// Goes over to a span of this one, on the same handle: so it is of one type, however many spans
    /// stand in one another.
    #[tactic(auto, using(crate::proofs::SpanLemmas::span_inside))]
    pub fn narrow(&mut self, at: u64, len: u64)
        requires inside { at + len ≤ self.old.len }
        ensures made { span_state self.new.at self.new.len (H.state self.new.handle.now)
            ≡ span_state at len (span_state self.old.at self.old.len (H.state self.old.handle.now)) }
        ensures handle { self.new.handle ≡ self.old.handle }
    {
        self.at = self.at + at;
        self.len = len;
    }
}

impl<'a, H: BytesPartialDecoderTraits> BytesPartialDecoderTraits for SpanHandle<'a, H> {
    ghost use Rattle.std.specs.Prelude.{◌∷◌};
    ghost use Rattle.zarrs_lent_handles.specs.SpanHandle.{span_reference};

    ghost state = { λ handle. span_state handle.at handle.len (H.state handle.handle.now) };

    ghost lent = { λ handle. span_reference handle.handle.ghost_name (H.state handle.handle.now)
        ∷ H.lent handle.handle.now };

    ghost held = { λ handle. H.held handle.handle.now };

    ghost reads_ranges = { H.reads_ranges };

    /// It does: without a call of the handle.
    fn exists(&mut self) -> Result<bool, CodecError> {
        Ok(true)
    }

    /// The span's: without a call of the handle.
    fn size(&mut self) -> Result<Option<u64>, CodecError> {
        Ok(Some(self.len))
    }

    fn size_held(&self) -> usize {
        self.handle.size_held()
    }

    fn partial_decode_many(
        &mut self,
        alloc: Global,
        ranges: &[ByteRange],
    ) -> Result<Option<Vec<u8>>, CodecError> {
        if !are_inside(self.len, ranges) {
            return Err(CodecError::InvalidByteRange);
        }
        let moved = moved(alloc, self.at, ranges)?;
        self.handle.partial_decode_many(alloc, moved.as_slice())
    }

    /// The span's bytes alone.
    fn decode(&mut self, alloc: Global) -> Result<Option<Vec<u8>>, CodecError> {
        match ByteRange::new(self.at..self.at + self.len) {
            None => unreachable!(),
            Some(range) => self.handle.partial_decode_many(alloc, &[range]),
        }
    }

    fn supports_partial_decode(&self) -> bool {
        self.handle.supports_partial_decode()
    }
}
