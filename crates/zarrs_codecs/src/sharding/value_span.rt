//! Where a value stands of which a part is read.
ghost use Rattle.std.specs.Prelude.{◌≡◌, ◌+◌, ◌<◌, ◌^◌};

use zarrs_chunk::CodecError;

/// Where a value stands: `len` bytes from `at` on, of bytes that are in memory, or, where there are
/// none, of what a handle keeps.
#[derive(Drop)]
pub(crate) struct ValueSpan<'b> {
    pub(crate) held: Option<&'b [u8]>,
    pub(crate) at: u64,
    pub(crate) len: u64,
    ghost counted: { at + len < 2 ^ 64 },
}

impl<'b> ValueSpan<'b> {
    ghost use Rattle.std.specs.Prelude.{None, Some, length};
    ghost use Rattle.zarrs_chunk.specs.Answer.{seen};
    ghost use Rattle.zarrs_codecs.specs.SpanReads.{inner_span, span_parts};

    /// The whole value of a handle, which has so many bytes.
    pub(crate) fn stored(len: u64) -> ValueSpan<'b>
        ensures parts { span_parts result ≡ (None, 0, len) }
    {
        ValueSpan {
            held: None,
            at: 0,
            len,
        }
    }

    /// All of these bytes.
    pub(crate) fn of_bytes(bytes: &'b [u8]) -> ValueSpan<'b>
        ensures parts { span_parts result ≡ (Some bytes.now, 0, length bytes.now) }
    {
        ValueSpan {
            held: Some(bytes),
            at: 0,
            len: bytes.len() as u64,
        }
    }

    /// The span of this one at an offset. Errors: `InvalidByteRange` where it ends behind this one.
    pub(crate) fn inside(&self, offset: u64, len: u64) -> Result<ValueSpan<'b>, CodecError>
        ensures answer { seen span_parts result ≡ inner_span self.now offset len }
    {
        if offset > self.len || len > self.len - offset {
            return Err(CodecError::InvalidByteRange);
        }
        Ok(ValueSpan {
            held: self.held,
            at: self.at + offset,
            len,
        })
    }
}
