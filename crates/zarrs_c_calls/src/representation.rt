//! The call `zarrs_representation`.
ghost use Rattle.std.specs.Prelude.{◌≡◌};
ghost use Rattle.zarrs_c_calls.specs.Calls.{header_given, known_header, represented};
ghost use Rattle.zarrs_c_calls.specs.Kept.{kept_given};
ghost use Rattle.zarrs_c_calls.specs.Told.{TellsRepresented};
ghost use Rattle.zarrs_kept_chains.specs.KeptChain.{kept_header};

use crate::calls::{form_given, representation};
use crate::cause::{Cause, cause_code};
use crate::tell::tell_representation;
use std::alloc::Global;
use zarrs_json::ChunkHeader;
use zarrs_kept_chains::KeptChain;

/// How many bytes the value of a header's chunk has: `kind` is 0 where just `size`, 1 where at most
/// `size`, and 2 where any number, and then `size` is 0. Errors: those of `zarrs_check`.
pub fn zarrs_representation(alloc: Global, text: &[u8], kind: &mut u32, size: &mut u64) -> u32
    ensures told { TellsRepresented (represented (header_given text.now)) result kind.old kind.new size.old size.new }
{
    match form_given(alloc, text) {
        Ok(form) => representation_of_header(alloc, &form, kind, size),
        Err(cause) => cause_code(&cause),
    }
}

/// [`zarrs_representation`] of a chain that is kept, which stays. Errors: `Argument` where none is kept, and behind it
/// those of `zarrs_representation` but those of `zarrs_check`.
pub fn zarrs_chain_representation(
    alloc: Global,
    chain: &mut KeptChain,
    kind: &mut u32,
    size: &mut u64,
) -> u32
    ensures chain_kept { kept_header chain.new ≡ kept_header chain.old }
    ensures told { TellsRepresented (represented (kept_given chain.old)) result kind.old kind.new size.old size.new }
{
    let Some(kept) = chain.take(alloc) else {
        return cause_code(&Cause::Argument);
    };
    let code = representation_of_header(alloc, kept.header(), kind, size);
    chain.keep(kept);
    code
}

/// The same of a header that was read.
fn representation_of_header(
    alloc: Global,
    form: &ChunkHeader,
    kind: &mut u32,
    size: &mut u64,
) -> u32
    ensures told { TellsRepresented (represented (known_header form.now)) result kind.old kind.new size.old size.new }
{
    match representation(alloc, form) {
        Ok(representation) => {
            tell_representation(representation, kind, size);
            0
        }
        Err(cause) => cause_code(&cause),
    }
}
