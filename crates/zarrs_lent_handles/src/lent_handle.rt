//! A value in memory as a handle.
ghost use Rattle.std.specs.Prelude.{◌≡◌};

use std::alloc::Global;
use zarrs_chunk::CodecError;
use zarrs_codec::{ByteRange, BytesPartialDecoderTraits, gather};

/// A handle on a value in memory that is lent, or on none. It never fails, but for lack of memory,
/// so all of its bytes are sure.
#[derive(Drop)]
pub struct LentHandle<'a> {
    value: Option<&'a [u8]>,
}

impl<'a> LentHandle<'a> {
    ghost use Rattle.std.specs.Option.{option_map};
    ghost use Rattle.zarrs_lent_handles.specs.LentHandle.{lent_value};

    /// A handle on this value, or on none. It takes no memory.
    pub fn new(value: Option<&'a [u8]>) -> LentHandle<'a>
        ensures made { lent_value result ≡ option_map (λ bytes. bytes.now) value.entry }
    {
        LentHandle { value }
    }
}

impl<'a> BytesPartialDecoderTraits for LentHandle<'a> {
    ghost use Rattle.std.specs.Prelude.{true, None, []};
    ghost use Rattle.zarrs_lent_handles.specs.LentHandle.{lent_value, read_state};

    ghost state = { λ handle. read_state (lent_value handle) (λ _. true) 0 None };

    ghost lent = { λ _. [] };

    ghost held = { λ handle. 0 };

    ghost reads_ranges = { true };

    fn exists(&mut self) -> Result<bool, CodecError> {
        Ok(self.value.is_some())
    }

    fn size(&mut self) -> Result<Option<u64>, CodecError> {
        match self.value {
            None => Ok(None),
            Some(value) => Ok(Some(value.len() as u64)),
        }
    }

    /// None: the value is lent.
    fn size_held(&self) -> usize {
        0
    }

    fn partial_decode_many(
        &mut self,
        alloc: Global,
        ranges: &[ByteRange],
    ) -> Result<Option<Vec<u8>>, CodecError> {
        match self.value {
            None => Ok(None),
            Some(value) => Ok(Some(gather(alloc, value, ranges)?)),
        }
    }

    fn decode(&mut self, alloc: Global) -> Result<Option<Vec<u8>>, CodecError> {
        match self.value {
            None => Ok(None),
            Some(value) => Ok(Some(Vec::from_slice(alloc, value)?)),
        }
    }

    fn supports_partial_decode(&self) -> bool {
        true
    }

    fn value_in_memory(&self) -> Option<&[u8]> {
        self.value
    }
}
