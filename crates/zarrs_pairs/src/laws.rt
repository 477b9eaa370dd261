//! Laws of the definitions that the contracts of this crate cite. The functions do nothing: their
//! contracts hold for all pairs, and proofs may take them from here.
ghost use Rattle.std.specs.Prelude.{List};
ghost use Rattle.zarrs_codec.specs.BytesToBytesCodec.{BytesCodecs, IsLawful};
ghost use Rattle.zarrs_pairs.specs.Laws.{AreLookedUp, DecodesAs, EncodesAs, IsUndone, OneToOneOf};
ghost use Rattle.zarrs_pairs.specs.Pairs.{AreOneToOne, Pairs};

/// Of pairs that are one to one, those that are there are found, and no others.
pub fn pairs_are_looked_up()
    ensures law { (pairs : Pairs) → AreOneToOne pairs → AreLookedUp pairs }
{}

/// By pairs that are one to one, decoding undoes encoding, and encoding undoes decoding.
pub fn pairs_are_undone()
    ensures law { (pairs : Pairs) → AreOneToOne pairs → IsUndone pairs }
{}

/// By the pairs of any lawful codec, what is encoded is encoded as that codec does, and what is
/// decoded, where it is as many bytes as declared, is decoded as it does.
pub fn answers_agree<B>()
    ensures encoded { (codecs : BytesCodecs B) → EncodesAs codecs }
    ensures decoded { (codecs : BytesCodecs B) → IsLawful codecs → DecodesAs codecs }
{}

/// The pairs of a lawful codec are one to one, so no table of them is rejected.
pub fn pairs_of_codecs_are_one_to_one<B>()
    ensures law { (codecs : BytesCodecs B) → IsLawful codecs → OneToOneOf codecs }
{}
