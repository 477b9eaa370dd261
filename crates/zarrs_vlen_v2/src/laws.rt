//! Laws of the codecs, over their definitions. The functions do nothing; their contracts are the laws.
ghost use Rattle.std.specs.Prelude.{◌≡◌, ℕ, List, Ok};
ghost use Rattle.zarrs_metadata.specs.CodecMetadata.{codec_metadata};
ghost use Rattle.zarrs_data_type.specs.Element.{Chunk};
ghost use Rattle.zarrs_data_type.specs.Form.{Form};
ghost use Rattle.zarrs_vlen_v2.specs.Laws.{VlenV2WrittenAlike};
ghost use Rattle.zarrs_vlen_v2.specs.VlenV2Codec.{VlenV2Stands, VlenV2Written, vlen_v2_chunk};
ghost use Rattle.zarrs_vlen_v2.specs.VlenV2Metadata.{vlen_v2_made, vlen_v2_name, write_vlen_v2};
ghost use Rattle.zarrs_vlen_v2.specs.declared.vlen_v2_codec.VlenV2Codec.{VlenV2Codec};

/// A value that is written for a chunk stands for it.
pub fn written_stands()
    ensures law { (codec : VlenV2Codec) (form : Form) (value : List ℕ) (chunk : Chunk)
        → VlenV2Written codec form value chunk → VlenV2Stands codec form value chunk }
{}

/// A value stands for at most one chunk.
pub fn stands_for_one()
    ensures law { (codec : VlenV2Codec) (form : Form) (value : List ℕ) (one two : Chunk)
        → VlenV2Stands codec form value one → VlenV2Stands codec form value two → one ≡ two }
{}

/// For a chunk at most one value is written.
pub fn written_once()
    ensures law { (codec : VlenV2Codec) (form : Form) (one two : List ℕ) (chunk : Chunk)
        → VlenV2Written codec form one chunk → VlenV2Written codec form two chunk → one ≡ two }
{}

/// Two chunks are written alike exactly if they are equal.
pub fn written_alike()
    ensures law { VlenV2WrittenAlike }
{}

/// What is decoded of a value that is written for a chunk is that chunk.
pub fn decoded_is_written()
    ensures law { (codec : VlenV2Codec) (form : Form) (value : List ℕ) (chunk : Chunk)
        → VlenV2Written codec form value chunk → vlen_v2_chunk codec form value ≡ Ok chunk }
{}

/// What is written of a codec makes an equal one.
pub fn codecs_are_made_again()
    ensures law { (codec : VlenV2Codec)
        → vlen_v2_made (codec_metadata (vlen_v2_name codec) write_vlen_v2) ≡ Ok codec }
{}
