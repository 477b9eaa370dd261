//! What is made of elements that were read.
ghost use Rattle.std.specs.Prelude.{◌≡◌};
ghost use Rattle.zarrs_chunk.specs.Answer.{seen};
ghost use Rattle.zarrs_array_bytes.specs.Held.{Held};

use zarrs_array_bytes::ArrayBytes;
use zarrs_chunk::CodecError;

/// What elements are handed on as: themselves. So a function that is generic in its handle names no
/// lifetime of what it answers, and its caller may pick the handle's ghost members.
pub(crate) trait FromElements: Drop {
    ghost held: { Self → Held };

    fn from_elements(elements: ArrayBytes<'static>) -> Self
        ensures same { held result ≡ elements.entry };
}

impl FromElements for ArrayBytes<'static> {
    ghost held = { λ elements. elements };

    fn from_elements(elements: ArrayBytes<'static>) -> Self {
        elements
    }
}

/// The answer of a read, handed on.
pub(crate) fn handed_on<T: FromElements>(
    read: Result<ArrayBytes<'static>, CodecError>,
) -> Result<T, CodecError>
    ensures same { seen T.held result ≡ read.entry }
{
    match read {
        Ok(elements) => Ok(T::from_elements(elements)),
        Err(error) => Err(error),
    }
}
