//! Laws of the codec, over its definitions. The functions do nothing; their contracts are the laws.
ghost use Rattle.zarrs_packbits.specs.Laws.{PackBitsWrittenStands, DecodedIsNormal, NormalOnce, NormalWritten, NormalSelected, NormalUpdated, PackBitsStandsForOne, PackBitsWrittenAlike, WrittenAsBytes, PackBitsHasRepresentedLength, PackBitsReadSelects, PackBitsReadsAlike, ReadsBitsAlike};
ghost use Rattle.std.specs.Prelude.{◌≡◌, Ok, false};
ghost use Rattle.zarrs_metadata.specs.CodecMetadata.{codec_metadata, packbits_name};
ghost use Rattle.zarrs_packbits.specs.PackBitsSettings.{PackBitsSettings, is_reversed};
ghost use Rattle.zarrs_packbits.specs.SettingsMetadata.{settings_made, write_settings};

/// A value that is written for a chunk stands for the chunk's normal form.
pub fn written_stands()
    ensures law { PackBitsWrittenStands }
{}

/// What is decoded of a value that is written for a chunk is the chunk's normal form.
pub fn decoded_is_normal()
    ensures law { DecodedIsNormal }
{}

/// The normal form of a normal form is itself.
pub fn normal_once()
    ensures law { NormalOnce }
{}

/// A chunk and its normal form are written alike.
pub fn normal_written()
    ensures law { NormalWritten }
{}

/// The normal form of selected elements is those selected of the normal form.
pub fn normal_selected()
    ensures law { NormalSelected }
{}

/// The normal form of an updated chunk is the normal form updated with that of the new elements.
pub fn normal_updated()
    ensures law { NormalUpdated }
{}

/// A value stands for at most one chunk.
pub fn stands_for_one()
    ensures law { PackBitsStandsForOne }
{}

/// Two chunks are written alike exactly if their normal forms are equal.
pub fn written_alike()
    ensures law { PackBitsWrittenAlike }
{}

/// Where all bits of whole bytes are kept, a value is written exactly if the codec `bytes` in little
/// order writes it.
pub fn written_as_bytes()
    ensures law { WrittenAsBytes }
{}

/// A written value has the length that the representation declares.
pub fn has_represented_length()
    ensures law { PackBitsHasRepresentedLength }
{}

/// Of a value that stands for a chunk, a read of places inside selects the chunk's elements.
pub fn read_selects()
    ensures law { PackBitsReadSelects }
{}

/// A read rests on the bytes of its places alone: two values that both have these bytes, and the
/// same ones, are read alike.
pub fn reads_alike()
    ensures law { PackBitsReadsAlike }
{}

/// Of these bytes it looks at the places' kept bits alone: two values that both have the bytes, and
/// the same bits at the places, are read alike.
pub fn reads_bits_alike()
    ensures law { ReadsBitsAlike }
{}

/// What is written of a codec makes an equal one.
pub fn codecs_are_made_again()
    ensures law { (codec : PackBitsSettings) → is_reversed codec.first_bit codec.last_bit ≡ false
        → settings_made (codec_metadata packbits_name (write_settings codec)) ≡ Ok codec }
{}
