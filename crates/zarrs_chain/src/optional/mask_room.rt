//! That a codec `optional` has room for the elements under the mask.
ghost use Rattle.std.specs.Prelude.{◌≡◌, Ok, length};
ghost use Rattle.zarrs_chunk.specs.ChunkShape.{product};
ghost use Rattle.zarrs_array_bytes.specs.Held.{items_of};
ghost use Rattle.zarrs_chain_meaning.specs.CallAnswers.{IsTaken};
ghost use Rattle.zarrs_chain_meaning.specs.optional.OptionalParts.{optional_inner};
ghost use Rattle.zarrs_chain.specs.ChainView.{plain_optional};
ghost use Rattle.zarrs_chain.specs.FormView.{lent_form};
ghost use Rattle.zarrs_chain.specs.optional.OptionalCalls.{HasMaskRoom};

use crate::form::Form;
use crate::optional::optional_codec::{OptionalCodec, optional_is_sound};
use zarrs_array_bytes::ArrayBytesRaw;
use zarrs_codec::BytesToBytesCodecTraits;
use zarrs_data_type::DataType;

/// A codec that takes a chunk has room for its elements under the mask. The call does nothing; its
/// contract is for proofs.
pub(crate) fn has_room<B: BytesToBytesCodecTraits>(
    codec: &OptionalCodec<B>,
    form: Form<'_>,
    inner: &DataType,
    mask: &ArrayBytesRaw<'_>,
)
    requires taken { IsTaken B.functions (plain_optional codec.now) (lent_form form) }
    requires inner { optional_inner form.data_type.now ≡ Ok inner.now }
    requires len { length (items_of mask.now) ≡ product form.shape.now }
    ensures room { HasMaskRoom inner.now mask.now }
{
    optional_is_sound(codec);
    form.shape.as_slice();
}
