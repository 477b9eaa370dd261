//! The call `zarrs_check`.
ghost use Rattle.zarrs_c_calls.specs.Calls.{header_given};
ghost use Rattle.zarrs_c_calls.specs.Codes.{IsCode};

use crate::calls::form_given;
use crate::cause::cause_code;
use std::alloc::Global;

/// Whether a text is a header whose codecs take such chunks: 0, or the code of the first error.
pub fn zarrs_check(alloc: Global, text: &[u8]) -> u32
    ensures code { IsCode (header_given text.now) result }
{
    match form_given(alloc, text) {
        Ok(_form) => 0,
        Err(cause) => cause_code(&cause),
    }
}
