//! Laws over the definitions alone. The functions do nothing; their contracts are the laws.
ghost use Rattle.std.specs.Prelude.{◌≡◌, ℕ};
ghost use Rattle.zarrs_data_type.specs.ElementType.{ElementType};
ghost use Rattle.zarrs_codec.specs.BytesToBytesCodec.{BytesCodecs};
ghost use Rattle.zarrs_codecs.specs.BoxRows.{BoxesAreCut, RowsAreAlike};
ghost use Rattle.zarrs_codecs.specs.ChunkSource.{IsSizeOf, Source};
ghost use Rattle.zarrs_codecs.specs.FewerExcused.{FewerAreExcused};
ghost use Rattle.zarrs_codecs.specs.PlannedReads.{PlannedIsAsked, PlannedReadsAlike, SizedReadsAlike};
ghost use Rattle.zarrs_codecs.specs.ReadLaws.{AskedReadsAlike, PlannedPlacesAreMeant, StandingIsOpened, StoredReadsAlike, StoredSelects};
ghost use Rattle.zarrs_codecs.specs.SizeLaws.{ChunkSizesAreExact};

// What laws ask of a chain and of a chunk: calls that do nothing give it.
pub use zarrs_chain::stages::chain_is_sound;
pub use zarrs_chain_meaning::machine_bytes::chunks_are_bytes;

// The laws of boxes, of containers and of whole chains.
pub use zarrs_array_bytes::laws::tight_containers_are_same;
pub use zarrs_chain::laws::{
    chains_are_made_again, chains_are_made_alike, normal_moved, normal_twice, normal_updated,
    reencoded_back, reencoded_is_canonical, reencoded_is_written, reencoded_twice, stands_for_one,
    stands_is_answered, value_is_written, written_alike, written_is_canonical, written_keeps,
    written_once, written_stands,
};
pub use zarrs_chunk::laws::{numbers_name_elements, places_are_in_order, tuples_go_by_axis};

/// What answers rest on has one size, whatever a cache keeps of it: tight containers of one chunk are the
/// same bytes. Where elements all take as many bytes, with their mask bytes, it is these and no others.
pub fn sizes_are_exact()
    ensures chunk { ChunkSizesAreExact }
    ensures law { (t : ElementType) (size other : ℕ) (source : Source)
        → IsSizeOf t source size → IsSizeOf t source other → size ≡ other }
{}

/// Of a stored value that stands for a chunk, a read in part answers the chunk's elements that the
/// selection selects, or the selection's error: by the places' bytes, by the offsets of a plain
/// `vlen` and the elements' bytes, by the index of a shard and the inner chunks, or by the whole
/// chunk.
pub fn reads_select<B>()
    ensures law { (f : BytesCodecs B) → StoredSelects f }
{}

/// Of a stored value that stands for a chunk, a decoder is made: what fills its cache, wherever that
/// stands in the chain, rejects no such value.
pub fn standing_is_opened<B>()
    ensures law { (f : BytesCodecs B) → StandingIsOpened f }
{}

/// Locality: through whatever chain, a read rests on how many bytes there are below the
/// bytes-to-bytes codecs, and on those that it asks for: of `bytes` and `packbits` those of the
/// places; of a plain `vlen` the offsets and the selected elements' bytes; of `sharding_indexed` the
/// index, and of each inner chunk with selected places what a read of its own bytes rests
/// on; of any other codec all. Whatever the other bytes are, the answer or the error is the same. So
/// it is of the stored value, where a read asks for a part of it alone.
pub fn reads_are_alike<B>()
    ensures law { (f : BytesCodecs B) → StoredReadsAlike f }
    ensures locality { (f : BytesCodecs B) → AskedReadsAlike f }
{}

/// The places whose bytes `planned_ranges` answers are those that the indexer selects, each as
/// often: over `bytes` without bytes-to-bytes codecs those of a box that goes through the
/// array-to-array codecs as one in the order in which they stand in the value, so that they rise,
/// and all others in the indexer's order.
pub fn planned_places_are_meant<B>()
    ensures law { PlannedPlacesAreMeant B }
{}

/// Where a read asks for the bytes of its places alone, it rests on these: two stored values that both
/// have all of them, and the same ones, are read alike, whatever else they have.
pub fn planned_reads_are_alike<B>()
    ensures law { (f : BytesCodecs B) → PlannedReadsAlike f }
{}

/// The same of two values of one length, also where some of these bytes lie past their end: they are
/// read alike, or fail by the same cause.
pub fn sized_reads_are_alike<B>()
    ensures law { (f : BytesCodecs B) → SizedReadsAlike f }
{}

/// Of whatever is stored, such a read asks for the planned bytes and no others.
pub fn planned_is_asked<B>()
    ensures law { (f : BytesCodecs B) → PlannedIsAsked f }
{}

/// The tuples of a box are those of its first rows, followed by those of the rest.
pub fn boxes_are_cut()
    ensures law { BoxesAreCut }
{}

/// Two arrays that agree in so many rows, each from a row of its own on, have the same elements in the
/// boxes of these rows: so the rows of an array that lie in one of its chunks are those of the chunk.
pub fn rows_are_alike()
    ensures law { RowsAreAlike }
{}

/// A call that can only lack memory may be used where memory or a failure of a handle is excused.
pub fn fewer_are_excused()
    ensures law { FewerAreExcused }
{}
