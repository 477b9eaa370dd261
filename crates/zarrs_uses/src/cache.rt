//! A cache of decoded chunks.
ghost use Rattle.std.specs.Prelude.{◌≡◌, ◌<◌, IfSome, Ok, length};
ghost use Rattle.std.specs.List.{All};
ghost use Rattle.zarrs_codecs.specs.Answer.{AnswersValue, memory};
ghost use Rattle.zarrs_codecs.specs.ChunkRead.{chunk_of};
ghost use Rattle.zarrs_uses.specs.Decoded.{IsDecoded, IsDecoded-prop};
ghost use Rattle.std.proofs.Props.{props};

use std::alloc::Global;
use std::borrow::CowSlice;
use zarrs_codecs::{
    ArrayBytes, BytesToBytesCodecTraits, ChunkShape, CodecChain, CodecError, DataType, FillValue,
};

/// A chunk that is kept, and the key of its value.
#[derive(Drop)]
struct Kept<'a> {
    key: usize,
    chunk: ArrayBytes<'a>,
}

/// Keeps the chunks that were decoded last, of values that don't change while it lives. A value's place
/// in their list is its key.
#[derive(Drop)]
pub struct ChunkCache<'a, B: BytesToBytesCodecTraits> {
    chain: &'a CodecChain<B>,
    shape: &'a ChunkShape,
    data_type: &'a DataType,
    fill_value: &'a FillValue,
    values: &'a [Vec<u8>],
    room: usize,
    kept: Vec<Kept<'a>>,
    ghost decoded: { All (λ kept. IsDecoded B.functions (chunk_of chain.now shape.now data_type.now fill_value.now) values.now kept.key kept.chunk) kept.items } by { let each : (key : _) (chunk : _) → IsProp (IsDecoded B.functions (chunk_of chain.now shape.now data_type.now fill_value.now) values.now key chunk) = IsDecoded-prop B.functions (chunk_of chain.now shape.now data_type.now fill_value.now) values.now in Prim.hlevel (props, each) },
}

impl<'a, B: BytesToBytesCodecTraits> ChunkCache<'a, B> {
    ghost use Rattle.zarrs_uses.specs.Cache.{AnswersAsDecode, DecodesAlike, cache_form, cache_knows, cached_values};

    /// A cache without chunks, which will keep at most `room` of them, and at least one.
    pub fn new(
        alloc: Global,
        chain: &'a CodecChain<B>,
        values: &'a [Vec<u8>],
        shape: &'a ChunkShape,
        data_type: &'a DataType,
        fill_value: &'a FillValue,
        room: usize,
    ) -> ChunkCache<'a, B>
        ensures form { cache_form result ≡ chunk_of chain.now shape.now data_type.now fill_value.now }
        ensures values { cached_values result ≡ values.now }
    {
        ChunkCache {
            chain,
            shape,
            data_type,
            fill_value,
            values,
            room,
            kept: Vec::new(alloc),
        }
    }

    /// The chunk of this key, where it is kept.
    fn find(&self, key: usize) -> Option<&ArrayBytes<'a>>
        ensures found { IfSome result (λ chunk. cache_knows B.functions self.now key chunk.now) }
    {
        let place = self.kept.iter().position(|kept| kept.key == key)?;
        Some(&self.kept[place].chunk)
    }

    /// Keeps a chunk, in place of the oldest one where no room is left.
    fn keep(&mut self, key: usize, chunk: ArrayBytes<'a>) -> Result<(), CodecError>
        requires decoded { cache_knows B.functions self.old key chunk }
        ensures answer { AnswersValue memory result (Ok tt) }
        ensures kept { DecodesAlike self.old self.new }
    {
        if self.kept.len() > 0 && self.kept.len() >= self.room {
            self.kept.remove(0);
        }
        self.kept.push(Kept { key, chunk })?;
        Ok(())
    }

    /// The chunk of the value with this key: what decoding the value gives, a chunk or its error, whether
    /// the chunk was kept or not. It is a copy, and stays kept.
    ///
    /// It rests on `decodes` of `CodecChain::decode` and on `copy` of `ArrayBytes::clone`.
    pub fn chunk(&mut self, alloc: Global, key: usize) -> Result<ArrayBytes<'a>, CodecError>
        requires stored { key < length (cached_values self.old) }
        ensures answer { AnswersAsDecode B.functions self.old key result }
        ensures kept { DecodesAlike self.old self.new }
    {
        if let Some(chunk) = self.find(key) {
            return Ok(chunk.clone()?);
        }
        let value = CowSlice::Borrowed(self.values[key].as_slice());
        let chunk = self
            .chain
            .decode(alloc, value, self.shape, self.data_type, self.fill_value)?;
        self.keep(key, chunk.clone()?)?;
        Ok(chunk)
    }
}
