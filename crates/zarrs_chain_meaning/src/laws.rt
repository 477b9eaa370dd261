//! Laws over the definitions alone: each function's contract is one. They are of all chains, those
//! with chains inside too.
ghost use Rattle.std.specs.Prelude.{◌≡◌, List, Option, Some, Result};
ghost use Rattle.zarrs_data_type.specs.Element.{Chunk, AreElements};
ghost use Rattle.zarrs_data_type.specs.ElementType.{ElementType};
ghost use Rattle.zarrs_data_type.specs.declared.endianness.Endianness.{Endianness};
ghost use Rattle.zarrs_metadata.specs.Metadata.{Metadata};
ghost use Rattle.zarrs_metadata.specs.declared.plugin_create_error.PluginCreateError.{PluginCreateError};
ghost use Rattle.zarrs_codec.specs.BytesToBytesCodec.{BytesCodecs};
ghost use Rattle.zarrs_codec.specs.CoordinateMap.{CoordinateMap, moved_chunk};
ghost use Rattle.zarrs_chain_meaning.specs.CodecMeaning.{PlainCodec, normal_form};
ghost use Rattle.zarrs_chain_meaning.specs.MadeAgain.{ChainsAreMadeAgain};
ghost use Rattle.zarrs_chain_meaning.specs.MadeChain.{chain_made, chain_made_by};
ghost use Rattle.zarrs_chain_meaning.specs.vlen.PlainForm.{PlainForm};
ghost use Rattle.zarrs_chain_meaning.specs.vlen.PlainVlen.{plain_form_of, plain_codec_of};
ghost use Rattle.zarrs_chain_meaning.specs.Laws.{ChainWrittenStands, ChainStandsForOne, StandsIsAnswered, ChainWrittenOnce, ValueIsWritten, NormalFormUpdated, WrittenForNormal, ChainWrittenAlike, WrittenKeeps, SizesGoByCount, SizesGrow};

/// What is written for a chunk stands for its normal form.
pub fn written_stands<B>()
    ensures law { (f : BytesCodecs B) → ChainWrittenStands f }
{}

/// A value stands for at most one chunk.
pub fn stands_for_one<B>()
    ensures law { (f : BytesCodecs B) → ChainStandsForOne f }
{}

/// A chain answers a chunk of a value exactly where the value stands for it.
pub fn stands_is_answered<B>()
    ensures law { (f : BytesCodecs B) → StandsIsAnswered f }
{}

/// For a chunk at most one value is written.
pub fn written_once<B>()
    ensures law { (f : BytesCodecs B) → ChainWrittenOnce f }
{}

/// A chain answers a value for a chunk exactly where the value is written for it.
pub fn value_is_written<B>()
    ensures law { (f : BytesCodecs B) → ValueIsWritten f }
{}

/// The normal form of a normal form is the same, and the same value is written for it.
pub fn normal_twice<B>()
    ensures law { (codec : PlainCodec B) (t : ElementType) (chunk : Chunk) → AreElements t chunk
        → normal_form codec t (normal_form codec t chunk) ≡ normal_form codec t chunk }
    ensures written { (f : BytesCodecs B) → WrittenForNormal f }
{}

/// The normal form of a chunk that array-to-array codecs move is the normal form moved.
pub fn normal_moved<B>()
    ensures law { (codec : PlainCodec B) (t : ElementType) (m : CoordinateMap) (chunk : Chunk)
        → normal_form codec t (moved_chunk m chunk) ≡ moved_chunk m (normal_form codec t chunk) }
{}

/// The normal form of an updated chunk is the normal form updated with that of the new elements.
pub fn normal_updated<B>()
    ensures law { NormalFormUpdated B }
{}

/// Two chunks are written alike exactly if their normal forms are equal.
pub fn written_alike<B>()
    ensures law { (f : BytesCodecs B) → ChainWrittenAlike f }
{}

/// A written value is as many bytes as the representation says.
pub fn written_keeps<B>()
    ensures law { (f : BytesCodecs B) → WrittenKeeps f }
{}

/// Of the chunks of one type and fill value that a chain takes, those with as many elements have one
/// size, however they are shaped; one with more elements has no smaller size.
pub fn sizes_go_by_count<B>()
    ensures law { (f : BytesCodecs B) → SizesGoByCount f }
    ensures grows { (f : BytesCodecs B) → SizesGrow f }
{}

/// A codec that has a plain form is the plain `vlen` of this form, over some data chain.
pub fn plain_is_plain<B>()
    ensures law { (codec : PlainCodec B) (form : PlainForm) → plain_form_of codec ≡ Some form
        → (content : Option Endianness) × (codec ≡ plain_codec_of form content) }
{}

/// The chains inside a chain are made of their metadata as the chain itself is.
pub fn chains_are_made_alike<B>()
    ensures law { (makes : Metadata → Result (Option B) PluginCreateError) (list : List Metadata)
        → chain_made makes list ≡ chain_made_by (chain_made makes) makes list }
{}

/// What is written of a chain makes an equal one, where each bytes-to-bytes codec's metadata has a
/// name that no codec of the table has, and no float, and the maker makes an equal codec of it.
pub fn chains_are_made_again<B>()
    ensures law { ChainsAreMadeAgain B }
{}
