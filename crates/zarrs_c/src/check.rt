//! The call `zarrs_check`.
ghost use Rattle.zarrs_c_calls.specs.Calls.{header_given};
ghost use Rattle.zarrs_c_calls.specs.Codes.{IsCode};

use std::alloc::Global;

/// Whether a text is a header whose codecs take such chunks: 0, or the code of the first error.
#[unsafe(no_mangle)]
pub extern "C" fn zarrs_check(alloc: Global, text: &[u8]) -> u32
    ensures code { IsCode (header_given text.now) result }
{
    zarrs_c_calls::zarrs_check(alloc, text)
}
