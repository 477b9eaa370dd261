//! Lists of edits of a chunk.
ghost use Rattle.std.specs.Prelude.{◌≡◌, ◌≤◌, ◌==◌, is_none, is_some, length, true};
ghost use Rattle.zarrs_bytes.specs.PartialWrite.{FailsByWriting};
ghost use Rattle.zarrs_codecs.specs.ChunkRead.{form_in_place};
ghost use Rattle.zarrs_codecs.specs.Edits.{EditHasBytes, FailsInAWrite, RunsEdits};
ghost use Rattle.zarrs_codecs.specs.PartialEncoder.{EncoderEdits, encoder_form, encoder_handle};
ghost use Rattle.zarrs_codec.specs.CodersOverHandles.{OnlyWrites};

use crate::partial_encoder::array_partial_encoder::ArrayPartialEncoder;
use std::alloc::Global;
use zarrs_array_bytes::ArrayBytes;
use zarrs_chain_meaning::machine_bytes::elements_are_bytes;
use zarrs_chunk::{CodecError, Indexer};
use zarrs_codec::{BytesPartialEncoderTraits, BytesToBytesCodecTraits};

/// One edit of a chunk.
#[derive(Debug, Drop)]
pub enum Edit<'a> {
    /// These elements are written at the places that the indexer selects.
    Encode(Indexer<'a>, ArrayBytes<'a>),
    /// The value is erased.
    Erase,
}

/// How far a list of edits came.
#[derive(Clone, Copy, Debug, PartialEq, Eq)]
pub struct EditOutcome {
    /// How many were accepted, all of them before the one that was rejected.
    pub done: usize,
    /// Why that one was rejected; `None` where all were accepted.
    pub refusal: Option<CodecError>,
}

/// One edit. An erase takes no memory.
fn apply<H: BytesPartialEncoderTraits, B: BytesToBytesCodecTraits>(
    alloc: Global,
    encoder: &mut ArrayPartialEncoder<'_, H, B>,
    edit: &Edit<'_>,
) -> Result<(), CodecError>
    ensures answer { EncoderEdits H.state encoder.old encoder.new edit.now result }
    ensures left { OnlyWrites (λ it. H.state (encoder_handle it)) (λ it. H.lent (encoder_handle it))
        encoder_form H.atomic encoder.old encoder.new result }
    ensures unread { is_some (form_in_place (encoder_form encoder.old)) ≡ true
        → FailsByWriting H.state (encoder_handle encoder.old) (encoder_handle encoder.new) result }
    ensures edit_bytes { EditHasBytes edit.now }
{
    match edit {
        Edit::Encode(indexer, elements) => {
            elements_are_bytes(elements);
            encoder.partial_encode(alloc, indexer, elements)
        }
        Edit::Erase => encoder.erase(),
    }
}

/// Makes the edits in order, up to the first error. What is stored afterwards is what was written
/// last: from nothing, or from a value that is written for a chunk, the value that is written for
/// the chunk as the accepted edits leave it, or nothing where the last of them erases. Each
/// accepted edit makes one writing call. One that is rejected makes none, or the one that rejected
/// it, and leaves what the accepted ones left, but where that call is rejected and the handle isn't
/// atomic. Over `bytes` without bytes-to-bytes codecs no edit reads the value. It takes no memory of
/// its own.
///
/// Errors of an edit are those of `ArrayPartialEncoder::partial_encode`, and of an erase `Storage`
/// alone. From nothing, or from a value that is written for a chunk, an edit is rejected, a lack of
/// memory and a failure of the handle aside, exactly where the indexer is out of bounds, the new
/// elements don't fit it, or no value is written for the chunk with them. Over any other value one
/// is also rejected where the value stands for no chunk, but over `bytes` without bytes-to-bytes
/// codecs.
pub fn run_edits<H: BytesPartialEncoderTraits, B: BytesToBytesCodecTraits>(
    alloc: Global,
    encoder: &mut ArrayPartialEncoder<'_, H, B>,
    edits: &[Edit<'_>],
) -> EditOutcome
    ensures within { result.done ≤ length edits.now }
    ensures all_done { is_none result.refusal ≡ (result.done == length edits.now) }
    ensures edits { RunsEdits B.functions (encoder_form encoder.old) H.atomic (H.state
        (encoder_handle encoder.old)) (H.state (encoder_handle encoder.new)) edits.now result }
    ensures unread { is_some (form_in_place (encoder_form encoder.old)) ≡ true → FailsInAWrite
        (H.state (encoder_handle encoder.old)) (H.state (encoder_handle encoder.new)) result }
    ensures same_reference { H.lent (encoder_handle encoder.new) ≡ H.lent (encoder_handle encoder.old) }
    ensures form_kept { encoder_form encoder.new ≡ encoder_form encoder.old }
{
    encoder.is_sound();
    let mut done = 0;
    for edit in edits {
        match apply(alloc, encoder, edit) {
            Ok(()) => done += 1,
            Err(refusal) => {
                return EditOutcome {
                    done,
                    refusal: Some(refusal),
                };
            }
        }
    }
    EditOutcome {
        done,
        refusal: None,
    }
}
