//! Types and containers as plain data, and what is made of them.

use crate::checks::gives;
use std::alloc::Global;
use std::borrow::CowSlice;
use std::process::Abort;
use zarrs_array_bytes::{ArrayBytes, ArrayBytesOffsets};
use zarrs_chunk::CodecError;
use zarrs_data_type::DataType;

pub(crate) type Elements = Result<ArrayBytes<'static>, CodecError>;

/// A type. What is optional twice has bytes inside.
pub(crate) enum Type {
    Byte,
    OptionalByte,
    OptionalText,
    OptionalTwice,
}

pub(crate) fn data_type(alloc: Global, told: &Type) -> Result<DataType, CodecError> {
    match told {
        Type::Byte => Ok(DataType::uint8()),
        Type::OptionalByte => DataType::optional(alloc, DataType::uint8()),
        Type::OptionalText => DataType::optional(alloc, DataType::string()),
        Type::OptionalTwice => {
            DataType::optional(alloc, DataType::optional(alloc, DataType::uint8())?)
        }
    }
}

/// The bytes of elements of one size, or with offsets of any length; and the masks above them, the
/// innermost one first.
pub(crate) struct Held {
    pub(crate) masks: &'static [&'static [u8]],
    pub(crate) bytes: &'static [u8],
    pub(crate) offsets: Option<&'static [usize]>,
}

pub(crate) fn offsets(alloc: Global, told: &[usize]) -> Result<ArrayBytesOffsets, CodecError> {
    ArrayBytesOffsets::new(told.to_vec(alloc)?)
}

fn lend_unmasked(alloc: Global, held: &Held) -> Elements {
    let bytes = CowSlice::Borrowed(held.bytes);
    match held.offsets {
        None => Ok(ArrayBytes::new_flen(bytes)),
        Some(told) => ArrayBytes::new_vlen(bytes, offsets(alloc, told)?),
    }
}

/// The container, over bytes that are lent to it.
pub(crate) fn container(alloc: Global, held: &Held) -> Elements {
    let mut array = lend_unmasked(alloc, held)?;
    for mask in held.masks {
        array = array.with_optional_mask(alloc, CowSlice::Borrowed(*mask))?;
    }
    Ok(array)
}

/// What came is this container.
fn holds(
    rt: &impl Abort,
    alloc: Global,
    name: &str,
    came: &ArrayBytes<'static>,
    wanted: &Held,
) -> Result<(), CodecError> {
    gives(rt, name, container(alloc, wanted), came)
}

/// The answer is this container.
pub(crate) fn answers(
    rt: &impl Abort,
    alloc: Global,
    name: &str,
    answer: Elements,
    wanted: &Held,
) -> Result<(), CodecError> {
    match answer {
        Ok(came) => holds(rt, alloc, name, &came, wanted),
        Err(cause) => Err(cause),
    }
}
