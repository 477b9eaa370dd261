//! Whether bytes, offsets and mask bytes have the lengths that a type and a count ask for.
ghost use Rattle.std.specs.Prelude.{◌≡◌, ◌*◌, ◌+◌, ◌<◌, ◌^◌, Ok, false};
ghost use Rattle.zarrs_chunk.specs.Answer.{is_fault};
ghost use Rattle.zarrs_array_bytes.specs.WrongLength.{refusal_of};
ghost use Rattle.zarrs_array_bytes.specs.Validity.{sizes_fit, length_is};

use zarrs_chunk::CodecError;
use zarrs_data_type::DataType;

/// Which error a wrong length gives.
#[derive(Clone, Copy, Drop)]
pub(crate) enum WrongLength {
    InvalidBytesLength,
    DataMismatch,
}

/// Whether as many bytes, or flags, are found as `count` elements of `size` have.
pub(crate) fn check_length(
    found: usize,
    count: u128,
    size: usize,
    wrong: WrongLength,
) -> Result<(), CodecError>
    requires counted { wrong ≡ WrongLength.InvalidBytesLength → count * size < 2 ^ 64 }
    ensures answer { result ≡ length_is (refusal_of wrong) found (count * size) }
{
    if count.checked_mul(size as u128) == Some(found as u128) {
        return Ok(());
    }
    match wrong {
        WrongLength::InvalidBytesLength => {
            let expected = (count * size as u128) as u64;
            Err(CodecError::InvalidBytesLength {
                len: found as u64,
                expected,
            })
        }
        WrongLength::DataMismatch => Err(CodecError::DataMismatch),
    }
}

/// Whether as many offsets are found as `count` elements have.
pub(crate) fn check_offsets(found: usize, count: u128, wrong: WrongLength) -> Result<(), CodecError>
    requires counted { wrong ≡ WrongLength.InvalidBytesLength → count + 1 < 2 ^ 64 }
    ensures answer { result ≡ length_is (refusal_of wrong) found (count + 1) }
{
    if count.checked_add(1) == Some(found as u128) {
        return Ok(());
    }
    match wrong {
        WrongLength::InvalidBytesLength => {
            let expected = (count + 1) as u64;
            Err(CodecError::InvalidBytesLength {
                len: found as u64,
                expected,
            })
        }
        WrongLength::DataMismatch => Err(CodecError::DataMismatch),
    }
}

/// Whether 64 bits count the bytes of `count` elements, or their offsets.
pub(crate) fn check_sizes(count: u64, data_type: &DataType) -> Result<(), CodecError>
    ensures exact { result ≡ sizes_fit data_type.now count }
    ensures no_fault { is_fault result ≡ false }
{
    if let Some(inner) = data_type.as_optional() {
        return check_sizes(count, inner);
    }
    let fits = match data_type.fixed_size() {
        Some(size) => count.checked_mul(size as u64).is_some(),
        None => count < u64::MAX,
    };
    if fits {
        Ok(())
    } else {
        Err(CodecError::Overflow)
    }
}
