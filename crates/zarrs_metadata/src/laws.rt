//! Laws of the definitions that the contracts of this crate cite. The functions do nothing: their
//! contracts hold for all lists and trees, and proofs may take them from here.
ghost use Rattle.std.specs.Prelude.{◌≡◌, ◌↔◌, ◌<◌, ◌++◌, ℕ, true, List, length, Contains, Option, Some, Ok};
ghost use Rattle.std.specs.List.{range_with_len};
ghost use Rattle.std.specs.List.Sorted.{IsPermutation};
ghost use Rattle.zarrs_chunk.specs.ChunkShape.{shape_of};
ghost use Rattle.zarrs_data_type.specs.declared.endianness.Endianness.{Endianness};
ghost use Rattle.zarrs_metadata.specs.BytesConfiguration.{read_bytes, write_bytes};
ghost use Rattle.zarrs_metadata.specs.CodecMetadata.{codec_metadata, transpose_name, transpose_made, reshape_name, reshape_made, squeeze_name, squeeze_made, bytes_name, bytes_made, packbits_name, packbits_made};
ghost use Rattle.zarrs_metadata.specs.Dims.{Dim, is_reshape, IsReshape};
ghost use Rattle.zarrs_metadata.specs.Metadata.{Metadata, has_no_float, read_metadata, write_metadata};
ghost use Rattle.zarrs_metadata.specs.MetadataList.{have_no_float};
ghost use Rattle.zarrs_metadata.specs.OptionalConfiguration.{OptionalChains, read_optional, write_optional};
ghost use Rattle.zarrs_metadata.specs.Orders.{is_order, IsOrder};
ghost use Rattle.zarrs_metadata.specs.PackBitsConfiguration.{are_bits_in_order, read_packbits, write_packbits, with_padding_said};
ghost use Rattle.zarrs_metadata.specs.ReshapeConfiguration.{read_reshape, write_reshape};
ghost use Rattle.zarrs_metadata.specs.ShardingConfiguration.{ShardingParts, read_sharding, write_sharding};
ghost use Rattle.zarrs_metadata.specs.SqueezeConfiguration.{read_squeeze, write_squeeze};
ghost use Rattle.zarrs_metadata.specs.TransposeConfiguration.{read_transpose, write_transpose};
ghost use Rattle.zarrs_metadata.specs.VlenConfiguration.{VlenParts, read_vlen, write_vlen};
ghost use Rattle.zarrs_metadata.specs.declared.configuration.packbits.PackBitsCodecConfigurationV1.{PackBitsCodecConfigurationV1 as PackBits};

/// The test for an order, entry by entry: each entry is an axis, and none comes
/// twice. So each axis comes, and the order lists the axes in another order.
pub fn orders_name_axes()
    ensures by_entry { (order : List ℕ) → (is_order order ≡ true) ↔ IsOrder order }
    ensures each { (order : List ℕ) (axis : ℕ) → is_order order ≡ true
        → axis < length order → Contains order axis }
    ensures permutation { (order : List ℕ) → is_order order ≡ true
        → IsPermutation (range_with_len 0 (length order)) order }
{}

/// The test for the sizes of a reshape, size by size: each number is positive, and
/// no two sizes are what the others leave.
pub fn reshapes_leave_one_size()
    ensures by_size { (dims : List Dim) → (is_reshape dims ≡ true) ↔ IsReshape dims }
{}

/// What is written of metadata is read as that metadata. A number among its configuration that is a
/// float would be rejected.
pub fn metadata_reads_back()
    ensures law { (m : Metadata) → has_no_float m.configuration ≡ true
        → read_metadata (write_metadata m) ≡ Ok m }
{}

/// What is written of a configuration is read as that configuration: of `packbits` with its padding
/// given and its bits in order, of `optional`, `vlen` and `sharding_indexed` where no number of the
/// metadata inside is a float, and of the last where no inner size is zero.
pub fn configurations_read_back()
    ensures transpose { (order : List ℕ) → is_order order ≡ true
        → read_transpose (write_transpose order) ≡ Ok order }
    ensures reshape { (dims : List Dim) → is_reshape dims ≡ true
        → read_reshape (write_reshape dims) ≡ Ok dims }
    ensures squeeze { read_squeeze write_squeeze ≡ Ok tt }
    ensures bytes { (endian : Option Endianness) → read_bytes (write_bytes endian) ≡ Ok endian }
    ensures packbits { (c : PackBits) → are_bits_in_order c.first_bit c.last_bit ≡ true
        → read_packbits (write_packbits c) ≡ Ok (with_padding_said c) }
    ensures optional { (c : OptionalChains) → have_no_float c.mask_codecs ≡ true
        → have_no_float c.data_codecs ≡ true → read_optional (write_optional c) ≡ Ok c }
    ensures vlen { (c : VlenParts) → have_no_float c.index_codecs ≡ true
        → have_no_float c.data_codecs ≡ true → read_vlen (write_vlen c) ≡ Ok c }
    ensures sharding { (c : ShardingParts) → have_no_float (c.codecs ++ c.index_codecs) ≡ true
        → shape_of c.chunk_shape ≡ Some c.chunk_shape → read_sharding (write_sharding c) ≡ Ok c }
{}

/// What is written of a codec's name and settings makes these settings: of `packbits` with its
/// padding given and its bits in order.
pub fn codecs_are_made_again()
    ensures transpose { (order : List ℕ) → is_order order ≡ true
        → transpose_made (codec_metadata transpose_name (write_transpose order)) ≡ Ok order }
    ensures reshape { (dims : List Dim) → is_reshape dims ≡ true
        → reshape_made (codec_metadata reshape_name (write_reshape dims)) ≡ Ok dims }
    ensures squeeze { squeeze_made (codec_metadata squeeze_name write_squeeze) ≡ Ok tt }
    ensures bytes { (endian : Option Endianness)
        → bytes_made (codec_metadata bytes_name (write_bytes endian)) ≡ Ok endian }
    ensures packbits { (c : PackBits) → are_bits_in_order c.first_bit c.last_bit ≡ true → packbits_made
        (codec_metadata packbits_name (write_packbits c)) ≡ Ok (with_padding_said c) }
{}
