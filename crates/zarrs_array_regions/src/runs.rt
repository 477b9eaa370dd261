//! The runs of a region where array-to-array codecs take it, and its elements as they stand there.
ghost use Rattle.std.specs.Prelude.{◌≡◌, ◌<◌, ◌≤◌, ◌^◌, ◌∷◌, [], ℕ, List, Ok, length, map, IfOk, IfSome, IfNone};
ghost use Rattle.zarrs_chunk.specs.Answer.{seen};
ghost use Rattle.zarrs_chunk.specs.ChunkShape.{product};
ghost use Rattle.zarrs_chunk.specs.Runs.{places_in, AreFilled, EndWithin, AreApart};
ghost use Rattle.zarrs_array_bytes.specs.Tight.{KeepsTight};
ghost use Rattle.zarrs_array_bytes.specs.Validity.{validity};
ghost use Rattle.zarrs_array_to_array.specs.ArrayToArrayCodec.{transpose};
ghost use Rattle.zarrs_array_to_array.specs.Mapping.{mapping_of};
ghost use Rattle.zarrs_array_regions.specs.Windows.{TakesRegion, TakeType, EncodesMapped, EncodesRegion, GivesRegionRuns};

use crate::encoded::{encoded_runs, transposed_part};
use crate::kept::is_filled;
use crate::next::next_window;
use crate::ordered_runs::ordered_runs;
use crate::window::own_runs;
use std::alloc::Global;
use zarrs_array_bytes::ArrayBytes;
use zarrs_array_to_array::{ArrayToArrayCodec, TransposeCodec};
use zarrs_chunk::{ArraySubset, ChunkShape, CodecError};
use zarrs_data_type::DataType;

/// So many axes are few: their rows are made with a call an axis, one inside another.
pub(crate) const FEW: usize = 8;

/// The one codec, where it is a transposition of few axes.
pub(crate) fn few_axes(codecs: &[ArrayToArrayCodec]) -> Option<&TransposeCodec>
    ensures only { IfSome result (λ codec. map mapping_of codecs.now ≡ transpose codec.now ∷ []) }
    ensures few { IfSome result (λ codec. length codec.now ≤ 8) }
    ensures others { IfNone result ((order : List ℕ)
        → map mapping_of codecs.now ≡ transpose order ∷ [] → 8 < length order) }
{
    match codecs {
        [ArrayToArrayCodec::Transpose(codec)] if codec.order().len() <= FEW => Some(codec),
        _ => None,
    }
}

/// The runs of a region that has elements where transposition takes it: nothing is permuted first.
#[inline(always)]
fn transposed_runs(
    alloc: Global,
    codec: &TransposeCodec,
    shape: &ChunkShape,
    region: &ArraySubset,
) -> Result<Vec<(u64, u64)>, CodecError>
    requires region { TakesRegion (transpose codec.now ∷ []) shape.now region.now }
    requires filled { 0 < product region.now.lengths }
    ensures places { GivesRegionRuns (transpose codec.now ∷ []) shape.now region.now result }
    ensures filled { IfOk result (λ runs. AreFilled runs.items) }
    ensures below { IfOk result (λ runs. EndWithin (product shape.now) runs.items) }
    ensures count { IfOk result (λ runs. length (places_in runs) < 2 ^ 64) }
    ensures apart { IfOk result (λ runs. AreApart runs.items) }
{
    let runs = ordered_runs(
        alloc,
        codec.order(),
        shape.as_slice(),
        region.start(),
        region.shape(),
    )?;
    Ok(runs)
}

/// The runs of a region where the codecs take it: `transpose` permutes it, `squeeze` drops its axes of
/// size one, and `reshape` and the codecs behind it leave it.
fn runs_through(
    alloc: Global,
    codecs: &[ArrayToArrayCodec],
    shape: &ChunkShape,
    region: &ArraySubset,
) -> Result<Vec<(u64, u64)>, CodecError>
    requires region { TakesRegion (map mapping_of codecs.now) shape.now region.now }
    ensures places { GivesRegionRuns (map mapping_of codecs.now) shape.now region.now result }
    ensures filled { IfOk result (λ runs. AreFilled runs.items) }
    ensures below { IfOk result (λ runs. EndWithin (product shape.now) runs.items) }
    ensures count { IfOk result (λ runs. length (places_in runs) < 2 ^ 64) }
    ensures apart { IfOk result (λ runs. AreApart runs.items) }
{
    match codecs {
        [] => own_runs(alloc, shape, region),
        [first, rest @ ..] => {
            first.is_sound();
            match next_window(alloc, first, shape, region)? {
                None => own_runs(alloc, shape, region),
                Some(next) => runs_through(alloc, rest, &next.sizes, &next.region),
            }
        }
    }
}

/// The runs of a region where transposition takes it, and its elements as they stand there.
#[inline(always)]
fn transposed_region<'b>(
    alloc: Global,
    codec: &TransposeCodec,
    shape: &ChunkShape,
    region: &ArraySubset,
    held: &ArrayBytes<'_>,
    data_type: &DataType,
) -> Result<(Vec<(u64, u64)>, ArrayBytes<'b>), CodecError>
    requires region { TakesRegion (transpose codec.now ∷ []) shape.now region.now }
    requires filled { 0 < product region.now.lengths }
    requires valid { validity data_type.now (product region.now.lengths) held.now ≡ Ok tt }
    ensures encoded { EncodesMapped (transpose codec.now ∷ [])
        data_type.now shape.now region.now held.now result }
    ensures tight { KeepsTight data_type.now held.now (seen (λ answer. answer.1) result) }
    ensures filled { IfOk result (λ answer. AreFilled answer.0.items) }
    ensures below { IfOk result (λ answer. EndWithin (product shape.now) answer.0.items) }
    ensures apart { IfOk result (λ answer. AreApart answer.0.items) }
{
    let runs = transposed_runs(alloc, codec, shape, region)?;
    let held = transposed_part(alloc, codec, region, held, data_type)?;
    Ok((runs, held))
}

/// The places of a region of a chunk of this shape where the codecs take it, in row-major order there,
/// as runs of a start and a length: none is empty, and none starts where the one before it ends. They
/// are those of its window: `transpose` permutes it, `squeeze` drops its axes of size one, and
/// `reshape` and the codecs behind it leave it. Where the codecs keep regions
/// ([`kept_region`](crate::kept_region)), the moved chunk has the region's elements there, in the order
/// in which the codecs move them. The codecs accept the chunk, and the region lies inside. Errors:
/// `OutOfMemory`.
pub fn region_runs(
    alloc: Global,
    codecs: &[ArrayToArrayCodec],
    shape: &ChunkShape,
    region: &ArraySubset,
) -> Result<Vec<(u64, u64)>, CodecError>
    requires region { TakesRegion (map mapping_of codecs.now) shape.now region.now }
    ensures places { GivesRegionRuns (map mapping_of codecs.now) shape.now region.now result }
    ensures filled { IfOk result (λ runs. AreFilled runs.items) }
    ensures below { IfOk result (λ runs. EndWithin (product shape.now) runs.items) }
    ensures count { IfOk result (λ runs. length (places_in runs) < 2 ^ 64) }
    ensures apart { IfOk result (λ runs. AreApart runs.items) }
{
    match few_axes(codecs) {
        Some(codec) if is_filled(region) => transposed_runs(alloc, codec, shape, region),
        _ => runs_through(alloc, codecs, shape, region),
    }
}

/// The runs of a region where the codecs take it, as [`region_runs`] returns them, and its elements as
/// they stand there, encoded from those of the region codec by codec, each at the region's lengths
/// before it. The codecs accept the chunk and its type, the region has elements, and there is one in
/// `held` for each. Where `held` is fixed by its elements, so is what is made. Errors: `OutOfMemory`.
pub fn encode_region<'a>(
    alloc: Global,
    codecs: &[ArrayToArrayCodec],
    shape: &ChunkShape,
    region: &ArraySubset,
    held: ArrayBytes<'a>,
    data_type: &DataType,
) -> Result<(Vec<(u64, u64)>, ArrayBytes<'a>), CodecError>
    requires region { TakesRegion (map mapping_of codecs.now) shape.now region.now }
    requires takes { TakeType (map mapping_of codecs.now) data_type.now }
    requires filled { 0 < product region.now.lengths }
    requires valid { validity data_type.now (product region.now.lengths) held ≡ Ok tt }
    ensures encoded { EncodesRegion codecs.now data_type.now shape.now region.now held.entry result }
    ensures tight { KeepsTight data_type.now held.entry (seen (λ answer. answer.1) result) }
    ensures filled { IfOk result (λ answer. AreFilled answer.0.items) }
    ensures below { IfOk result (λ answer. EndWithin (product shape.now) answer.0.items) }
    ensures apart { IfOk result (λ answer. AreApart answer.0.items) }
{
    match few_axes(codecs) {
        Some(codec) => transposed_region(alloc, codec, shape, region, &held, data_type),
        None => encoded_runs(alloc, codecs, shape, region, held, data_type),
    }
}
