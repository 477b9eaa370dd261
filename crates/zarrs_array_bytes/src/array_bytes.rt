//! The container of a chunk's elements: how it is made, its parts, its size and whether it is valid.
ghost use Rattle.std.specs.Prelude.{◌≡◌, ◌<◌, ◌^◌, Ok, IfOk, true, false, min, length, slice_index};
ghost use Rattle.std.specs.Cmp.{partial_equiv_from_equiv};
ghost use Rattle.zarrs_data_type.specs.Element.{Chunk};
ghost use Rattle.zarrs_data_type.specs.ElementType.{ElementType};
ghost use Rattle.zarrs_chunk.specs.Answer.{AnswersValue, GivesValue, memory, seen, is_fault};
ghost use Rattle.zarrs_array_bytes.specs.Held.{flen, vlen, owned_bytes, raw_of, byte_count, is_lent, mask_levels};
ghost use Rattle.zarrs_array_bytes.specs.Offsets.{is_offsets, last_of};
ghost use Rattle.zarrs_array_bytes.specs.Extracted.{IsSmall};
ghost use Rattle.zarrs_array_bytes.specs.SameBytes.{is_same_held};
ghost use Rattle.zarrs_array_bytes.specs.SameBytesLaws.{is_same_held-equivalence};
ghost use Rattle.zarrs_array_bytes.specs.Parts.{with_offsets, with_mask, variable_part, optional_part, fixed_part, fixed_items, lent_both, raw_and_offsets};
ghost use Rattle.zarrs_array_bytes.specs.Pieces.{masked_by};
ghost use Rattle.zarrs_array_bytes.specs.Tight.{IsFlush, GivesFlush, flush_with_offsets};
ghost use Rattle.zarrs_array_bytes.specs.Validity.{Holds, levels_fit, sizes_fit, validity, data_fit};
ghost use Rattle.zarrs_array_bytes.specs.WrongLength.{refusal_of};
ghost use Rattle.std.specs.List.{list_all};
ghost use Rattle.std.specs.Prelude.{nat_lt};

use crate::array_bytes_offsets::ArrayBytesOffsets;
use crate::array_bytes_raw::{ArrayBytesRaw, behind, clone_raw};
use crate::validate::{WrongLength, check_length, check_offsets, check_sizes};
use std::alloc::Global;
use std::borrow::CowSlice;
use std::marker::Model;
use zarrs_chunk::CodecError;
use zarrs_data_type::DataType;

/// The elements of a chunk, in row-major order.
///
/// They are of one size and one after another, or of any length with offsets, or under a mask that
/// has one byte for each, 0 for absent and 1 for present. Each call states their type.
#[cycle(array_bytes)]
#[derive(Debug, Drop)]
pub struct ArrayBytes<'a> {
    pub(crate) parts: Parts<'a>,
}

#[cycle(array_bytes)]
#[derive(Debug, Drop)]
pub(crate) enum Parts<'a> {
    Fixed(ArrayBytesRaw<'a>),
    Variable(ArrayBytesRaw<'a>, ArrayBytesOffsets),
    Optional(Box<ArrayBytes<'a>>, ArrayBytesRaw<'a>),
}

impl<'a> Model for ArrayBytes<'a> {
    ghost use Rattle.zarrs_array_bytes.specs.Held.{Held, held_code, mask_levels};

    ghost Value = { Held };

    ghost coded = { held_code };

    ghost use Rattle.zarrs_array_bytes.specs.ArrayBytes.{held_of, PartsAreSound};

    ghost view = { λ array. held_of array.parts };

    ghost invariant = { λ array. PartsAreSound array.parts };

    ghost size = { mask_levels };

    ghost use Rattle.zarrs_array_bytes.specs.InnerBytes.{held_of-mask_levels};

    ghost size_decreases = { λ array _. held_of-mask_levels array.parts };
}

impl<'a> ArrayBytes<'a> {
    /// Elements of one size, one after another.
    pub fn new_flen(bytes: ArrayBytesRaw<'a>) -> ArrayBytes<'a>
        ensures made { result ≡ flen (raw_of bytes.entry) }
    {
        ArrayBytes {
            parts: Parts::Fixed(bytes),
        }
    }

    /// Elements of any length: element i is the bytes from offset i to offset i + 1. The first
    /// offset may be above zero. Errors: `InvalidOffsets` where the last offset isn't the number
    /// of bytes.
    pub fn new_vlen(
        bytes: ArrayBytesRaw<'a>,
        offsets: ArrayBytesOffsets,
    ) -> Result<ArrayBytes<'a>, CodecError>
        ensures answer { result ≡ with_offsets (raw_of bytes.entry) offsets }
    {
        let ends = offsets.as_slice();
        if ends[ends.len() - 1] != bytes.len() {
            return Err(CodecError::InvalidOffsets);
        }
        Ok(ArrayBytes {
            parts: Parts::Variable(bytes, offsets),
        })
    }

    /// The same elements as by `new_vlen`, without the bytes before the first one and with offsets from
    /// 0: a container that its elements fix. Borrowed bytes stay borrowed, owned bytes and the offsets
    /// are moved in place. Errors: `InvalidOffsets` where the last offset isn't the number of bytes.
    #[tactic(auto, using(crate::proofs::ValidLemmas::raw_items))]
    pub fn new_flush(
        bytes: ArrayBytesRaw<'a>,
        offsets: ArrayBytesOffsets,
    ) -> Result<ArrayBytes<'a>, CodecError>
        ensures answer { result ≡ flush_with_offsets (raw_of bytes.entry) offsets }
        ensures flush { GivesFlush result }
        ensures same { IfOk result (λ array. (type : ElementType) (chunk : Chunk)
            → Holds type (vlen (raw_of bytes.entry) offsets) chunk → Holds type array chunk) }
    {
        let ends = offsets.as_slice();
        if ends[ends.len() - 1] != bytes.len() {
            return Err(CodecError::InvalidOffsets);
        }
        let bytes = behind(bytes, ends[0]);
        Ok(ArrayBytes {
            parts: Parts::Variable(bytes, offsets.from_first()),
        })
    }

    /// These elements under a mask with one byte for each: 0 for absent, 1 for present. The element
    /// under an absent one doesn't matter. How many bytes the mask has is checked by `validate`, not
    /// here. Errors, the first that applies: `MaskValue` where a byte is another
    /// number; `OutOfMemory`.
    pub fn with_optional_mask(
        self,
        alloc: Global,
        mask: ArrayBytesRaw<'a>,
    ) -> Result<ArrayBytes<'a>, CodecError>
        ensures answer { AnswersValue memory result (with_mask self.entry (raw_of mask.entry)) }
    {
        if !is_mask(mask.as_slice()) {
            return Err(CodecError::MaskValue);
        }
        self.under_mask(alloc, mask)
    }

    /// The same, where the bytes of the mask are known to be 0 and 1.
    pub(crate) fn under_mask(
        self,
        alloc: Global,
        mask: ArrayBytesRaw<'a>,
    ) -> Result<ArrayBytes<'a>, CodecError>
        requires flags { list_all (λ byte. nat_lt byte 2) (raw_of mask).items ≡ true }
        ensures answer { AnswersValue memory result (with_mask self.entry (raw_of mask.entry)) }
        ensures flush { IfOk result (λ array. IsFlush self.entry → IsFlush array) }
    {
        Ok(ArrayBytes {
            parts: Parts::Optional(Box::new(alloc, self)?, mask),
        })
    }

    #[tactic(auto, using(crate::proofs::FlushLemmas::flush_from))]
    pub(crate) fn of_variable(bytes: Vec<u8>, offsets: Vec<usize>) -> ArrayBytes<'a>
        requires rising { is_offsets offsets.items ≡ true }
        requires beginning { slice_index offsets.items 0 ≡ 0 }
        requires ending { last_of offsets.items ≡ length bytes.items }
        ensures made { result ≡ vlen (owned_bytes bytes.items) offsets.items }
        ensures flush { IsFlush result }
    {
        ArrayBytes {
            parts: Parts::Variable(
                CowSlice::Owned(bytes),
                ArrayBytesOffsets::of_rising(offsets),
            ),
        }
    }

    pub(crate) fn of_cuts(bytes: Vec<u8>, offsets: Vec<usize>) -> ArrayBytes<'a>
        requires rising { is_offsets offsets.items ≡ true }
        requires ending { last_of offsets.items ≡ length bytes.items }
        ensures made { result ≡ vlen (owned_bytes bytes.items) offsets.items }
    {
        ArrayBytes {
            parts: Parts::Variable(
                CowSlice::Owned(bytes),
                ArrayBytesOffsets::of_rising(offsets),
            ),
        }
    }

    pub(crate) fn of_masked(
        alloc: Global,
        inner: ArrayBytes<'a>,
        mask: Vec<u8>,
    ) -> Result<ArrayBytes<'a>, CodecError>
        requires flags { list_all (λ byte. nat_lt byte 2) mask.items ≡ true }
        ensures small { IfOk result (λ array. IsSmall inner.entry → IsSmall array) }
        ensures flush { IfOk result (λ array. IsFlush inner.entry → IsFlush array) }
        ensures exact { GivesValue result (Ok (masked_by inner.entry mask.items)) }
    {
        Ok(ArrayBytes {
            parts: Parts::Optional(Box::new(alloc, inner)?, CowSlice::Owned(mask)),
        })
    }

    /// The bytes of elements of one size. Errors: `ArrayBytesKind` for any other elements.
    #[inline(always)]
    pub fn into_fixed(self) -> Result<ArrayBytesRaw<'a>, CodecError>
        ensures answer { seen raw_of result ≡ fixed_part self.entry }
    {
        match self.parts {
            Parts::Fixed(bytes) => Ok(bytes),
            _ => Err(CodecError::ArrayBytesKind),
        }
    }

    /// The bytes and offsets of elements of any length. Errors: `ArrayBytesKind` for any other
    /// elements.
    pub fn into_variable(self) -> Result<(ArrayBytesRaw<'a>, ArrayBytesOffsets), CodecError>
        ensures answer { seen raw_and_offsets result ≡ variable_part self.entry }
    {
        match self.parts {
            Parts::Variable(bytes, offsets) => Ok((bytes, offsets)),
            _ => Err(CodecError::ArrayBytesKind),
        }
    }

    /// The elements under the outermost mask, and that mask. Errors: `ArrayBytesKind` for elements
    /// without a mask.
    pub fn into_optional(self) -> Result<(Box<ArrayBytes<'a>>, ArrayBytesRaw<'a>), CodecError>
        ensures answer { seen (λ parts. (parts.0.value, raw_of parts.1)) result
            ≡ optional_part self.entry }
    {
        match self.parts {
            Parts::Optional(inner, mask) => Ok((inner, mask)),
            _ => Err(CodecError::ArrayBytesKind),
        }
    }

    /// The bytes of elements of one size, lent. Errors: `ArrayBytesKind` for any other elements.
    #[inline(always)]
    pub fn as_fixed(&self) -> Result<&[u8], CodecError>
        ensures answer { seen (λ bytes. bytes.now) result ≡ fixed_items self.now }
    {
        match &self.parts {
            Parts::Fixed(bytes) => Ok(bytes.as_slice()),
            _ => Err(CodecError::ArrayBytesKind),
        }
    }

    /// The bytes and offsets of elements of any length, lent. Errors: `ArrayBytesKind` for any other
    /// elements.
    pub fn as_variable(&self) -> Result<(&[u8], &ArrayBytesOffsets), CodecError>
        ensures answer { seen lent_both result
            ≡ seen (λ parts. (parts.0.items, parts.1)) (variable_part self.now) }
        ensures ending { IfOk result (λ parts. last_of parts.1.now ≡ length parts.0.now) }
    {
        match &self.parts {
            Parts::Variable(bytes, offsets) => Ok((bytes.as_slice(), offsets)),
            _ => Err(CodecError::ArrayBytesKind),
        }
    }

    /// The elements under the outermost mask, and that mask, lent: a byte for each element, 0 for
    /// absent and 1 for present. Errors: `ArrayBytesKind` for elements without a mask.
    pub fn as_optional(&self) -> Result<(&ArrayBytes<'a>, &[u8]), CodecError>
        ensures answer { seen lent_both result
            ≡ seen (λ parts. (parts.0, parts.1.items)) (optional_part self.now) }
        ensures mask { IfOk result (λ parts. list_all (λ byte. nat_lt byte 2) parts.1.now ≡ true) }
        ensures shallower { IfOk result (λ parts. mask_levels parts.0.now < mask_levels self.now) }
    {
        match &self.parts {
            Parts::Optional(inner, mask) => Ok((inner, mask.as_slice())),
            _ => Err(CodecError::ArrayBytesKind),
        }
    }

    /// How many bytes these are: those of the elements, 8 for each offset, and one for each mask byte;
    /// `usize::MAX` where the sum passes it.
    pub fn size(&self) -> usize
        ensures value { result ≡ min (byte_count self.now) usize.MAX }
    {
        match &self.parts {
            Parts::Fixed(bytes) => bytes.len(),
            Parts::Variable(bytes, offsets) => {
                bytes
                    .len()
                    .saturating_add(offsets.as_slice().len().saturating_mul(8))
            }
            Parts::Optional(inner, mask) => inner.size().saturating_add(mask.len()),
        }
    }

    /// Whether these are `count` elements of the type. Errors, the first that applies: `Overflow`
    /// where 64 bits don't count the bytes of so many elements, or for a variable type their
    /// offsets; then level by level, the outermost mask first, `ArrayBytesKind` where the kind isn't
    /// the type's, `InvalidBytesLength` where the bytes, offsets or mask bytes are more or fewer.
    pub fn validate(&self, count: u64, data_type: &DataType) -> Result<(), CodecError>
        ensures exact { result ≡ validity data_type.now count self.now }
        ensures no_fault { is_fault result ≡ false }
    {
        check_sizes(count, data_type)?;
        self.check_levels(count as u128, data_type, WrongLength::InvalidBytesLength)
    }

    /// Whether these are new data for `count` places: one element of the type for each. Errors,
    /// the first that applies, level by level, the outermost mask first: `ArrayBytesKind` where the
    /// kind isn't the type's, `DataMismatch` where there are more or fewer.
    #[inline(always)]
    pub fn validate_data(&self, count: u64, data_type: &DataType) -> Result<(), CodecError>
        ensures exact { result ≡ data_fit data_type.now count self.now }
        ensures no_fault { is_fault result ≡ false }
    {
        self.check_levels(count as u128, data_type, WrongLength::DataMismatch)
    }

    pub(crate) fn check_levels(
        &self,
        count: u128,
        data_type: &DataType,
        wrong: WrongLength,
    ) -> Result<(), CodecError>
        requires counted { wrong ≡ WrongLength.InvalidBytesLength → count < 2 ^ 64 }
        requires sizes { wrong ≡ WrongLength.InvalidBytesLength
            → sizes_fit data_type.now count ≡ Ok tt }
        ensures exact { result ≡ levels_fit (refusal_of wrong) data_type.now count self.now }
        ensures no_fault { is_fault result ≡ false }
    {
        match &self.parts {
            Parts::Fixed(bytes) => match data_type.fixed_size() {
                Some(size) => check_length(bytes.len(), count, size, wrong),
                None => Err(CodecError::ArrayBytesKind),
            },
            Parts::Variable(_, offsets) => {
                if data_type.is_variable() {
                    check_offsets(offsets.as_slice().len(), count, wrong)
                } else {
                    Err(CodecError::ArrayBytesKind)
                }
            }
            Parts::Optional(inner, mask) => match data_type.as_optional() {
                Some(inner_type) => {
                    check_length(mask.len(), count, 1, wrong)?;
                    inner.check_levels(count, inner_type, wrong)
                }
                None => Err(CodecError::ArrayBytesKind),
            },
        }
    }

    /// An equal container, in which borrowed bytes stay borrowed. Errors: `OutOfMemory`; none where the
    /// elements are of one size and borrowed.
    pub fn clone(&self) -> Result<ArrayBytes<'a>, CodecError>
        ensures copy { AnswersValue memory result (Ok self.now) }
        ensures in_place { is_lent self.now ≡ true → result ≡ Ok self.now }
    {
        let parts = match &self.parts {
            Parts::Fixed(bytes) => Parts::Fixed(clone_raw(bytes)?),
            Parts::Variable(bytes, offsets) => {
                Parts::Variable(clone_raw(bytes)?, (*offsets).clone()?)
            }
            Parts::Optional(inner, mask) => {
                let alloc = *Box::allocator(inner);
                Parts::Optional(Box::new(alloc, (**inner).clone()?)?, clone_raw(mask)?)
            }
        };
        Ok(ArrayBytes { parts })
    }
}

impl<'a> PartialEq for ArrayBytes<'a> {
    ghost eq = { is_same_held };

    ghost laws = { partial_equiv_from_equiv is_same_held-equivalence };

    fn eq(&self, other: &ArrayBytes<'a>) -> bool {
        match (&self.parts, &other.parts) {
            (Parts::Fixed(bytes), Parts::Fixed(others)) => bytes.as_slice() == others.as_slice(),
            (Parts::Variable(bytes, offsets), Parts::Variable(others, other_offsets)) => {
                bytes.as_slice() == others.as_slice()
                    && offsets.as_slice() == other_offsets.as_slice()
            }
            (Parts::Optional(inner, mask), Parts::Optional(other_inner, other_mask)) => {
                inner.eq(other_inner) && mask.as_slice() == other_mask.as_slice()
            }
            _ => false,
        }
    }
}

impl<'a> Eq for ArrayBytes<'a> {
    ghost laws = { is_same_held-equivalence };
}

pub(crate) fn is_mask(mask: &[u8]) -> bool
    ensures value { result ≡ list_all (λ byte. nat_lt byte 2) mask.now }
{
    let mut largest = 0;
    for byte in mask {
        if largest < *byte {
            largest = *byte;
        }
    }
    largest < 2
}
