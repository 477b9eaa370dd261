//! Laws over the definitions alone: each function's contract is one.
ghost use Rattle.std.specs.Prelude.{◌≡◌, ℕ, true, Option, List, length, map, Result, Ok, Err};
ghost use Rattle.std.specs.List.{list_all};
ghost use Rattle.zarrs_chunk.specs.declared.codec_error.CodecError.{CodecError};
ghost use Rattle.zarrs_data_type.specs.Element.{Element, Chunk};
ghost use Rattle.zarrs_data_type.specs.ElementType.{ElementType};
ghost use Rattle.zarrs_data_type.specs.Form.{Form};
ghost use Rattle.zarrs_data_type.specs.declared.endianness.Endianness.{Endianness};
ghost use Rattle.zarrs_codec.specs.CoordinateMap.{CoordinateMap};
ghost use Rattle.zarrs_array_to_array.specs.ArrayToArrayCodec.{chained, ArrayMapping, keeps_places};
ghost use Rattle.zarrs_bytes.specs.PartialRead.{read_places};
ghost use Rattle.zarrs_packbits.specs.PackBitsSettings.{PackBitsSettings};
ghost use Rattle.zarrs_packbits.specs.PartialRead.{read_places_of};
ghost use Rattle.zarrs_array_regions.specs.PlaceReaders.{ReadsInAnyOrder};
ghost use Rattle.zarrs_array_regions.specs.WindowLaws.{TransposedRegionIsRead, TransposedRegionIsWritten, SqueezedRegionIsKept, CodecsKeepWindows, WindowsSelect, WindowsUpdate, WindowsCompose, ChainsKeepWindows, RegionsAreRead, RegionsAreWritten};
ghost use Rattle.zarrs_array_regions.specs.WindowLaws.{TestedPlacesAreReadInAnyOrder, RegionsAreReadByPlaces, RegionsAreDecodedByPlaces, PlacesAreSureInAnyOrder, RegionsAreSureByPlaces, PlacesAreWrittenInAnyOrder, RegionsAreWrittenByPlaces};

/// A region goes through one codec as a region: through transposition and squeezing, and what keeps
/// a window keeps its elements.
pub fn codecs_keep_regions()
    ensures read { TransposedRegionIsRead }
    ensures written { TransposedRegionIsWritten }
    ensures squeezed { SqueezedRegionIsKept }
    ensures kept { CodecsKeepWindows }
{}

/// What keeps a window: selections and updates go along, and one after another keeps it too.
pub fn windows_are_kept()
    ensures select { WindowsSelect }
    ensures update { WindowsUpdate }
    ensures composed { WindowsCompose }
{}

/// A region goes through codecs as a region, and is read and written at its last window. Codecs none
/// of which is a transposition leave each place where it is.
pub fn regions_are_kept()
    ensures stay { (codecs : List ArrayMapping) (sizes : List ℕ) (m : CoordinateMap) (place : ℕ)
        → list_all keeps_places codecs ≡ true → chained codecs sizes ≡ Ok m → m.to place ≡ place }
    ensures kept { ChainsKeepWindows }
    ensures read { RegionsAreRead }
    ensures written { RegionsAreWritten }
{}

/// What reads places reads them in any order: `bytes`, `packbits`, what answers an element of its own
/// for each place, as of a whole chunk, or does so where all places pass a test, and what makes every
/// read fail. It answers an element for each place.
pub fn places_are_read_in_any_order()
    ensures bytes { (order : Option Endianness) (t : ElementType) (fill : List ℕ)
        (stored : Option (List ℕ)) → ReadsInAnyOrder (read_places order t fill stored) }
    ensures packbits { (settings : PackBitsSettings) (form : Form) (stored : Option (List ℕ))
        → ReadsInAnyOrder (read_places_of settings form stored) }
    ensures each { (element : ℕ → Element) → ReadsInAnyOrder (λ places. Ok (map element places)) }
    ensures tested { TestedPlacesAreReadInAnyOrder }
    ensures refused { (cause : CodecError) → ReadsInAnyOrder (λ places. Err cause) }
    ensures counted { (read : List ℕ → Result Chunk CodecError) (places : List ℕ) (chunk : Chunk)
        → ReadsInAnyOrder read → read places ≡ Ok chunk → length chunk ≡ length places }
{}

/// A read of a region's last window, decoded, is a read of the region place by place, and rests on the
/// same bytes.
pub fn regions_are_read_by_places()
    ensures read { RegionsAreReadByPlaces }
    ensures decoded { RegionsAreDecodedByPlaces }
    ensures places { PlacesAreSureInAnyOrder }
    ensures sure { RegionsAreSureByPlaces }
{}

/// A write at a region's last window, encoded, is a write at the region place by place.
pub fn regions_are_written_by_places()
    ensures places { PlacesAreWrittenInAnyOrder }
    ensures written { RegionsAreWrittenByPlaces }
{}
