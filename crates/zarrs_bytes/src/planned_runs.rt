//! The ranges of bytes that a read of runs asks for.
ghost use Rattle.std.specs.Prelude.{◌≡◌, ◌<◌, ◌+◌, ◌*◌, ◌^◌, true, Ok, IfOk, All, is_some, length};
ghost use Rattle.zarrs_chunk.specs.Answer.{Gives};
ghost use Rattle.zarrs_chunk.specs.Runs.{joined_runs, AreApart};
ghost use Rattle.zarrs_data_type.specs.ElementType.{fixed_size_of};
ghost use Rattle.zarrs_data_type.specs.FillValue.{fill_fits};
ghost use Rattle.zarrs_codec.specs.ByteRanges.{range_indices};
ghost use Rattle.zarrs_bytes.specs.PartialRead.{place_size, run_byte_numbers};
ghost use Rattle.zarrs_bytes.specs.PlannedRanges.{ranges_len, NoneIsEmpty, AreOfRuns, IsPlan};

use crate::batches::run_ranges;
use crate::bytes_codec::BytesCodec;
use crate::bytes_codec_partial::element_size;
use std::alloc::Global;
use zarrs_chunk::CodecError;
use zarrs_codec::ByteRange;
use zarrs_data_type::{DataType, FillValue};

impl BytesCodec {
    /// The ranges of bytes that `read_runs` asks for of these runs, each a start and a length: one
    /// for each run, in order, which is the bytes of its places. None is empty, and their lengths sum
    /// to the elements' bytes. The type is fixed and the fill value one of its elements, no run is empty,
    /// and 64 bits count the bytes up to the end of each. Errors: `OutOfMemory`.
    pub fn planned_runs(
        &self,
        alloc: Global,
        data_type: &DataType,
        fill_value: &FillValue,
        runs: &[(u64, u64)],
    ) -> Result<Vec<ByteRange>, CodecError>
        requires fixed { is_some (fixed_size_of data_type.now) ≡ true }
        requires filling { fill_fits data_type.now fill_value.now ≡ true }
        requires filled { All (λ run. 0 < run.1) runs.now }
        requires ends { All (λ run. (run.0 + run.1) * place_size data_type.now < 2 ^ 64) runs.now }
        ensures bytes { Gives (λ ranges. range_indices ranges.items) result
            (Ok (run_byte_numbers (place_size data_type.now) runs.now)) }
        ensures filled { IfOk result (λ ranges. NoneIsEmpty ranges.items) }
        ensures each { IfOk result (AreOfRuns (place_size data_type.now) runs.now) }
        ensures plan { AreApart runs.now → IfOk result
            (λ ranges. IsPlan (place_size data_type.now) (joined_runs runs.now) ranges.items) }
        ensures sum { IfOk result (λ ranges. ranges_len ranges.items
            ≡ length (joined_runs runs.now) * place_size data_type.now) }
    {
        let size = element_size(data_type, fill_value);
        let ranges = run_ranges(alloc, size as u64, runs)?;
        Ok(ranges)
    }
}
