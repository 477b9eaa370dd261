//! The call `zarrs_error_name`.
ghost use Rattle.zarrs_c_calls.specs.Names.{code_name as name_of};
ghost use Rattle.zarrs_c_calls.specs.Told.{ToldName};

/// The name of a code, in ASCII: the library's own for an error, `Done` for 0, `Short` for 1,
/// `Syntax` for 2, `Argument` for 3 and `NotInPlace` for 4; no byte for a number that no call
/// returns. Behind it stands a zero, where the buffer has room for one, which `needed` doesn't
/// count. Returns 0, or 1 where the buffer is too short for the name.
#[unsafe(no_mangle)]
pub extern "C" fn zarrs_error_name(code: u32, out: &mut [u8], needed: &mut usize) -> u32
    ensures told { ToldName (name_of code) result out.old out.new needed.new }
{
    zarrs_c_calls::zarrs_error_name(code, out, needed)
}
