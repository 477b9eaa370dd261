//! Numbers as bytes, the lowest first.
ghost use Rattle.std.specs.Prelude.{◌≡◌, ◌+◌, ◌*◌, ◌^◌, ◌<◌, ◌≤◌, Ok, length};
ghost use Rattle.std.specs.Option.{option_map};
ghost use Rattle.zarrs_chunk.specs.Answer.{Appends};
ghost use Rattle.zarrs_fill_values.specs.ElementError.{ElementBytes};
ghost use Rattle.zarrs_fill_values.specs.Words.{low_first, low_first_number, behind_prefix};

use crate::element_error::ElementError;
use std::alloc::{AllocError, Global};

/// Appends the lowest bytes of a number.
fn append_low_first(bytes: &mut Vec<u8>, size: u64, number: u64) -> Result<(), AllocError>
    ensures appended { Appends bytes.old bytes.new result (low_first size number) }
{
    if size == 0 {
        return Ok(());
    }
    bytes.push((number % 256) as u8)?;
    append_low_first(bytes, size - 1, number / 256)
}

/// The lowest bytes of a number.
pub(crate) fn low_bytes(alloc: Global, size: u64, number: u64) -> Result<Vec<u8>, ElementError>
    ensures answer { ElementBytes result (Ok (low_first size number)) }
{
    let mut bytes = Vec::new(alloc);
    append_low_first(&mut bytes, size, number)?;
    Ok(bytes)
}

/// The number of a lowest byte, and of that of so many bytes above it.
fn above_byte(first: u8, above: u64, size: usize) -> u64
    requires size { size ≤ 7 }
    requires above { above < 256 ^ size }
    ensures value { result ≡ first + 256 * above }
    ensures small { result < 256 ^ (size + 1) }
{
    first as u64 + 256 * above
}

/// The number whose bytes these are.
#[tactic(auto, using(crate::proofs::LowBytes::one_byte_more))]
pub(crate) fn low_number(bytes: &[u8]) -> u64
    requires short { length bytes.now ≤ 8 }
    ensures value { result ≡ low_first_number bytes.now }
    ensures small { result < 256 ^ length bytes.now }
{
    match bytes {
        [] => 0,
        [first, rest @ ..] => above_byte(*first, low_number(rest), rest.len()),
    }
}

/// What stands behind a text that another begins with.
pub(crate) fn behind<'t>(prefix: &[u8], text: &'t [u8]) -> Option<&'t [u8]>
    ensures value { option_map (λ rest. rest.now) result ≡ behind_prefix prefix.now text.now }
{
    text.strip_prefix(prefix)
}
