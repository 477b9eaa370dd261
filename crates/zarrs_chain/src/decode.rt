//! The chunk that a value stands for, through a chain.
ghost use Rattle.zarrs_chunk.specs.Answer.{GivesBy};
ghost use Rattle.zarrs_array_bytes.specs.Held.{items_of};
ghost use Rattle.zarrs_array_bytes.specs.Tight.{IsTight};
ghost use Rattle.zarrs_array_bytes.specs.Validity.{Holds};
ghost use Rattle.std.specs.Prelude.{◌≡◌, IfOk, true, Ok, []};
ghost use Rattle.zarrs_data_type.specs.FillValue.{fill_fits};
ghost use Rattle.zarrs_bytes.specs.GivenBytes.{HoldsGiven};
ghost use Rattle.zarrs_chain_meaning.specs.CodecMeaning.{chain_chunk};
ghost use Rattle.zarrs_chain_meaning.specs.KeptBytes.{KeepsBytes};
ghost use Rattle.zarrs_chain.specs.ChainView.{plain_chain};
ghost use Rattle.zarrs_chain_meaning.specs.Meaning.{in_a_row};

use crate::array_to_bytes_codec::{ArrayToBytesCodec, codec_decode};
use crate::bytes_decode::bytes_decode;
use crate::codec_chain::CodecChain;
use crate::encode::row_of;
use crate::form::Form;
use crate::representation::taken_form;
use std::alloc::Global;
use zarrs_array_bytes::{ArrayBytes, ArrayBytesRaw};
use zarrs_chain_meaning::array_stages::decode_arrays;
use zarrs_chain_meaning::bytes_stages::decode_bytes;
use zarrs_chunk::CodecError;
use zarrs_codec::BytesToBytesCodecTraits;
use zarrs_data_type::{DataType, FillValue};

/// The chunk that a value stands for through the chain, in the container that it fixes. Errors:
/// those of `CodecChain::decode`.
#[cycle(decode)]
pub(crate) fn chain_decode<'a, B: BytesToBytesCodecTraits>(
    alloc: Global,
    chain: &CodecChain<B>,
    value: ArrayBytesRaw<'a>,
    form: Form<'_>,
) -> Result<ArrayBytes<'a>, CodecError>
    // Wide: the parts of a form.
    ensures exact { GivesBy (Holds form.entry.data_type.now) result (chain_chunk B.functions
        (plain_chain chain.now) form.entry.shape.now form.entry.data_type.now
        form.entry.fill_value.now (items_of value.entry)) }
    ensures tight { IfOk result (IsTight form.entry.data_type.now) }
    ensures kept { KeepsBytes (plain_chain chain.now) form.entry.data_type.now
        → HoldsGiven value.entry result }
{
    let taken = taken_form(alloc, chain, form)?;
    let below = decode_bytes(alloc, &chain.bytes_to_bytes, &taken.representation, value)?;
    let codecs = chain.array_to_array.as_slice();
    if let ArrayToBytesCodec::Bytes(codec) = &chain.array_to_bytes {
        return bytes_decode(alloc, codec, codecs, below, form);
    }
    let Form {
        shape,
        data_type,
        fill_value,
    } = form;
    let chunk = codec_decode(
        alloc,
        &chain.array_to_bytes,
        below,
        &taken.shape,
        data_type,
        fill_value,
    )?;
    decode_arrays(alloc, codecs, chunk, shape, data_type, fill_value)
}

/// The row of so many elements that a part stands for through the chain; of none, whatever the part
/// is. Errors: those of `chain_decode`.
#[cycle(decode)]
pub(crate) fn part_decode<'a, B: BytesToBytesCodecTraits>(
    alloc: Global,
    chain: &CodecChain<B>,
    part: ArrayBytesRaw<'a>,
    count: u64,
    kind: &DataType,
    fill: &FillValue,
) -> Result<ArrayBytes<'a>, CodecError>
    requires filling { fill_fits kind.now fill.now ≡ true }
    ensures exact { GivesBy (Holds kind.now) result (in_a_row (Ok []) (λ sizes. chain_chunk B.functions
        (plain_chain chain.now) sizes kind.now fill.now (items_of part.entry)) count) }
    ensures tight { IfOk result (IsTight kind.now) }
{
    match row_of(alloc, count)? {
        Some(row) => {
            let form = Form {
                shape: &row,
                data_type: kind,
                fill_value: fill,
            };
            chain_decode(alloc, chain, part, form)
        }
        None => ArrayBytes::new_fill_value(alloc, kind, 0, fill),
    }
}
