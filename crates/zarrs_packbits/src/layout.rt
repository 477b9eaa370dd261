//! How the components of a chunk are packed.
ghost use Rattle.std.specs.Prelude.{IsTrue, ◌<◌, ◌≤◌, ◌+◌, ◌≡◌, length};
ghost use Rattle.zarrs_packbits.specs.PackedLayout.{IsOneTwoOrFour, IsPackedLayout, is_whole, is_in_reach, spare_of};
ghost use Rattle.zarrs_packbits.specs.PaddingByte.{lead, trail, value_len, padding_holds};
ghost use Rattle.zarrs_packbits.specs.PartialRead.{run_end, run_start};

use zarrs_metadata::PackBitsPaddingEncoding;

/// How the components of a chunk are packed. Definitions speak of such layouts too.
#[derive(Clone, Copy)]
pub(crate) struct PackedLayout {
    /// How many elements the chunk has.
    pub(crate) elements: u64,
    /// How many components an element has.
    pub(crate) group: u64,
    /// How many bytes a component has.
    pub(crate) size: u64,
    /// How many bits stand below those that are kept.
    pub(crate) first: u64,
    /// How many bits of a component are kept.
    pub(crate) count: u64,
    /// How many bits of a component's bytes stand above them.
    pub(crate) above: u64,
    /// Whether the type has a sign.
    pub(crate) sign: bool,
    /// Where the padding byte stands.
    pub(crate) padding: PackBitsPaddingEncoding,
}

impl PackedLayout {
    /// Whether all bits of whole bytes are kept.
    pub(crate) fn is_whole(&self) -> bool
        ensures value { result ≡ is_whole self.now }
    {
        self.first == 0 && self.above == 0
    }

    /// Whether a word holds a component.
    pub(crate) fn is_narrow(&self) -> bool
        ensures fits { IsTrue result → self.now.first + self.now.count + self.now.above ≤ 64 }
    {
        self.first <= 64
            && self.count <= 64
            && self.above <= 64
            && self.first + self.count + self.above <= 64
    }

    /// Whether a component is one byte, of which one bit is kept, or two or four.
    pub(crate) fn is_spread(&self) -> bool
        ensures size { IsTrue result → self.now.first + self.now.count + self.now.above ≡ 8 }
        ensures count { IsTrue result → IsOneTwoOrFour self.now.count }
    {
        self.first < 8
            && (self.count == 1 || self.count == 2 || self.count == 4)
            && self.above < 8
            && self.first + self.count + self.above == 8
    }

    /// Whether 64 bits count the chunk's bytes and, where not all bits of whole bytes are kept, the
    /// kept bits.
    pub(crate) fn is_in_reach(&self) -> bool
        requires sized { 0 < self.now.size }
        ensures value { result ≡ is_in_reach self.now }
    {
        match self.elements.checked_mul(self.group) {
            None => false,
            Some(parts) => match parts.checked_mul(self.size) {
                None => false,
                Some(_) => self.is_whole() || parts.checked_mul(self.count).is_some(),
            },
        }
    }

    /// How many bytes stand before the packed ones.
    pub(crate) fn lead(&self) -> usize
        ensures value { result ≡ lead self.now }
    {
        match self.padding {
            PackBitsPaddingEncoding::FirstByte => 1,
            _ => 0,
        }
    }

    /// How many bytes stand behind the packed ones.
    fn trail(&self) -> usize
        ensures value { result ≡ trail self.now }
    {
        match self.padding {
            PackBitsPaddingEncoding::LastByte => 1,
            _ => 0,
        }
    }

    /// How many bytes the chunk's value has.
    pub(crate) fn value_len(&self) -> u64
        requires layout { IsPackedLayout self.now }
        ensures value { result ≡ value_len self.now }
    {
        if self.is_whole() {
            return self.elements * self.group * self.size;
        }
        let bits = self.elements * self.group * self.count;
        self.lead() as u64 + bits.div_ceil(8) + self.trail() as u64
    }

    /// How many bits of the last packed byte hold nothing.
    pub(crate) fn spare(&self) -> u8
        requires layout { IsPackedLayout self.now }
        ensures value { result ≡ spare_of self.now }
    {
        if self.is_whole() {
            return 0;
        }
        let bits = self.elements * self.group * self.count;
        ((8 - bits % 8) % 8) as u8
    }

    /// Whether the padding byte of a value, if there is one, is the number of spare bits.
    pub(crate) fn padding_holds(&self, value: &[u8]) -> bool
        requires layout { IsPackedLayout self.now }
        requires len { length value.now ≡ value_len self.now }
        ensures value { result ≡ padding_holds self.now value.now }
    {
        match self.padding {
            PackBitsPaddingEncoding::None => true,
            PackBitsPaddingEncoding::FirstByte => value[0] == self.spare(),
            PackBitsPaddingEncoding::LastByte => value[value.len() - 1] == self.spare(),
        }
    }

    /// The first byte that holds kept bits of a run of places, and the first one behind those.
    pub(crate) fn run_span(&self, start: u64, len: u64) -> (u64, u64)
        requires layout { IsPackedLayout self.now }
        requires some { 0 < len }
        requires within { start + len ≤ self.now.elements }
        ensures start { result.0 ≡ run_start self.now (start, len) }
        ensures end { result.1 ≡ run_end self.now (start, len) }
        ensures some { result.0 < result.1 }
    {
        if self.is_whole() {
            let size = self.group * self.size;
            return (start * size, (start + len) * size);
        }
        let lead = self.lead() as u64;
        let bits = self.group * self.count;
        (
            lead + start * bits / 8,
            lead + ((start + len) * bits).div_ceil(8),
        )
    }
}
