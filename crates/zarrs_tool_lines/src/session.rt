//! A session: what a header opened, and the stored value.
ghost use Rattle.std.specs.Prelude.{◌≡◌, OnErr};
ghost use Rattle.zarrs_chunk.specs.Answer.{seen};
ghost use Rattle.zarrs_codec.specs.MemoryHandle.{handle_value};
ghost use Rattle.zarrs_chain.specs.ChainView.{plain_chain};
ghost use Rattle.zarrs_json.specs.Edit.{edit_seen};
ghost use Rattle.zarrs_json.specs.Refusal.{ReadsAs};
ghost use Rattle.zarrs_json.specs.Header.{line_header};
ghost use Rattle.zarrs_json.specs.declared.known_maker.KnownMaker.TheVariants.{WithSamples};
ghost use Rattle.zarrs_tool_lines.specs.Commands.{first_state, held_answer, encode_answer, load_answer, chunk_answer, decode_answer, read_answer, write_answer, erase_answer, value_answer, reencode_answer, reencoded_answer, answer_to, StoresEdit};
ghost use Rattle.zarrs_tool_lines.specs.Session.{state_of, state_with, GivesChunkPart, Replies};

use crate::command::{Command, command_of};
use std::alloc::Global;
use std::borrow::CowSlice;
use zarrs_array_bytes::ArrayBytes;
use zarrs_chain::CodecChain;
use zarrs_chain::reencode::reencode;
use zarrs_chunk::{CodecError, Indexer};
use zarrs_codec::MemoryHandle;
use zarrs_codecs::CodecChainPartialTraits;
use zarrs_json::{
    ChunkHeader, Edit, KnownBytesCodec, KnownMaker, Refusal, hex_bytes, indexer, ok_elements,
    ok_hex, read_codecs, read_edit, read_elements, read_header, tree,
};

/// What a header opened, and what is stored since.
#[derive(Drop)]
pub struct Session {
    header: ChunkHeader,
    handle: MemoryHandle,
}

/// The elements that an indexer selects, by a decoder that is made for this call.
fn read_part(
    handle: &mut MemoryHandle,
    alloc: Global,
    header: &ChunkHeader,
    indexer: &Indexer,
) -> Result<ArrayBytes<'static>, CodecError>
    ensures answer { GivesChunkPart header.now handle.old indexer.now result }
    ensures kept { handle_value handle.new ≡ handle_value handle.old }
{
    match header.chain.partial_decoder(
        alloc,
        handle,
        &header.shape,
        &header.data_type,
        &header.fill_value,
    ) {
        Err(refused) => Err(refused.error),
        Ok(mut decoder) => {
            let elements = decoder.partial_decode(alloc, indexer);
            let _ = decoder.into_handle();
            elements
        }
    }
}

/// Writes new elements over what is stored, by an encoder that is made for this call.
fn write_part(
    handle: &mut MemoryHandle,
    alloc: Global,
    header: &ChunkHeader,
    edit: &Edit,
) -> Result<(), CodecError>
    ensures answer { StoresEdit (state_with header.now handle.old) (state_with header.now handle.new)
        (edit_seen edit.now) result }
    ensures kept { OnErr result (handle_value handle.new ≡ handle_value handle.old) }
{
    match header.chain.partial_encoder(
        alloc,
        handle,
        &header.shape,
        &header.data_type,
        &header.fill_value,
    ) {
        Err(refused) => Err(refused.error),
        Ok(mut encoder) => {
            let written = encoder.partial_encode(alloc, &edit.indexer, &edit.elements);
            let _ = encoder.into_handle();
            written
        }
    }
}

impl Session {
    /// The session that a header opens, with nothing stored. Errors: those of `read_header`.
    pub fn open(alloc: Global, header: &[u8]) -> Result<Session, Refusal>
        ensures answer { ReadsAs state_of result (seen first_state (line_header WithSamples header.now)) }
    {
        let header = read_header(alloc, &KnownMaker::WithSamples, header)?;
        Ok(Session {
            header,
            handle: MemoryHandle::new(),
        })
    }

    fn encode_elements(
        &self,
        alloc: Global,
        elements: ArrayBytes<'static>,
    ) -> Result<Vec<u8>, Refusal>
        ensures answer { Replies self.now result (held_answer (state_of self.now) elements.entry) }
    {
        let value = self.header.chain.encode(
            alloc,
            elements,
            &self.header.shape,
            &self.header.data_type,
            &self.header.fill_value,
        )?;
        let line = ok_hex(alloc, value.as_slice())?;
        Ok(line)
    }

    #[tactic(auto, using(crate::proofs::EncodeLemmas::encode_read, crate::proofs::EncodeLemmas::encode_refused))]
    fn encode(&self, alloc: Global, text: &[u8]) -> Result<Vec<u8>, Refusal>
        ensures answer { Replies self.now result (encode_answer (state_of self.now) text.now) }
    {
        let elements = read_elements(alloc, &self.header.data_type, text)?;
        self.encode_elements(alloc, elements)
    }

    fn load(&mut self, alloc: Global, text: &[u8]) -> Result<Vec<u8>, Refusal>
        ensures answer { Replies self.new result (load_answer (state_of self.old) text.now) }
        ensures kept { OnErr result (state_of self.new ≡ state_of self.old) }
    {
        let tree = tree(alloc, text)?;
        let value = hex_bytes(alloc, &tree)?;
        let line = Vec::from_slice(alloc, b"ok")?;
        self.handle = MemoryHandle::with_value(value);
        Ok(line)
    }

    fn decode_value(&self, alloc: Global, value: &[u8]) -> Result<Vec<u8>, Refusal>
        ensures answer { Replies self.now result (chunk_answer (state_of self.now) value.now) }
    {
        let elements = self.header.chain.decode(
            alloc,
            CowSlice::Borrowed(value),
            &self.header.shape,
            &self.header.data_type,
            &self.header.fill_value,
        )?;
        ok_elements(alloc, &self.header.data_type, &elements)
    }

    fn decode(&self, alloc: Global) -> Result<Vec<u8>, Refusal>
        ensures answer { Replies self.now result (decode_answer (state_of self.now)) }
    {
        match self.handle.value() {
            None => Ok(Vec::from_slice(alloc, b"ok none")?),
            Some(value) => self.decode_value(alloc, value),
        }
    }

    fn selected(
        &mut self,
        alloc: Global,
        indexer: &Indexer,
    ) -> Result<ArrayBytes<'static>, CodecError>
        ensures answer { GivesChunkPart self.old.header self.old.handle indexer.now result }
        ensures kept { state_of self.new ≡ state_of self.old }
    {
        read_part(&mut self.handle, alloc, &self.header, indexer)
    }

    fn read(&mut self, alloc: Global, text: &[u8]) -> Result<Vec<u8>, Refusal>
        ensures answer { Replies self.new result (read_answer (state_of self.old) text.now) }
        ensures kept { state_of self.new ≡ state_of self.old }
    {
        let tree = tree(alloc, text)?;
        let indexer = indexer(alloc, &tree)?;
        let elements = self.selected(alloc, &indexer)?;
        ok_elements(alloc, &self.header.data_type, &elements)
    }

    fn store(&mut self, alloc: Global, edit: &Edit) -> Result<(), CodecError>
        ensures answer { StoresEdit (state_of self.old) (state_of self.new) (edit_seen edit.now) result }
        ensures kept { OnErr result (state_of self.new ≡ state_of self.old) }
    {
        write_part(&mut self.handle, alloc, &self.header, edit)
    }

    fn write(&mut self, alloc: Global, text: &[u8]) -> Result<Vec<u8>, Refusal>
        ensures answer { Replies self.new result (write_answer (state_of self.old) text.now) }
        ensures kept { OnErr result (state_of self.new ≡ state_of self.old) }
    {
        let tree = tree(alloc, text)?;
        let edit = read_edit(alloc, &self.header.data_type, &tree)?;
        let line = Vec::from_slice(alloc, b"ok")?;
        self.store(alloc, &edit)?;
        Ok(line)
    }

    fn erase(&mut self, alloc: Global) -> Result<Vec<u8>, Refusal>
        ensures answer { Replies self.new result (erase_answer (state_of self.old)) }
        ensures kept { OnErr result (state_of self.new ≡ state_of self.old) }
    {
        let line = Vec::from_slice(alloc, b"ok")?;
        self.handle = MemoryHandle::new();
        Ok(line)
    }

    fn value(&self, alloc: Global) -> Result<Vec<u8>, Refusal>
        ensures answer { Replies self.now result (value_answer (state_of self.now)) }
    {
        match self.handle.value() {
            None => Ok(Vec::from_slice(alloc, b"ok none")?),
            Some(value) => Ok(ok_hex(alloc, value)?),
        }
    }

    fn reencode_value(
        &self,
        alloc: Global,
        to: &CodecChain<KnownBytesCodec>,
        value: &[u8],
    ) -> Result<Vec<u8>, Refusal>
        ensures answer { Replies self.now result
            (reencoded_answer (plain_chain to.now) (state_of self.now) value.now) }
    {
        let other = reencode(
            alloc,
            &self.header.chain,
            to,
            value,
            &self.header.shape,
            &self.header.data_type,
            &self.header.fill_value,
        )?;
        Ok(ok_hex(alloc, &other)?)
    }

    fn reencode(&self, alloc: Global, text: &[u8]) -> Result<Vec<u8>, Refusal>
        ensures answer { Replies self.now result (reencode_answer (state_of self.now) text.now) }
    {
        let to = read_codecs(alloc, &KnownMaker::WithSamples, text)?;
        match self.handle.value() {
            None => Ok(Vec::from_slice(alloc, b"ok none")?),
            Some(value) => self.reencode_value(alloc, &to, value),
        }
    }

    /// The answer to a line, without its end. A command that fails leaves what is stored. Errors:
    /// those of the command; `Syntax` where the line is no command; `OutOfMemory`.
    #[tactic(auto, unfolding(crate::specs::Commands::answer_to))]
    pub fn answer(&mut self, alloc: Global, line: &[u8]) -> Result<Vec<u8>, Refusal>
        ensures answer { Replies self.new result (answer_to (state_of self.old) line.now) }
        ensures kept { OnErr result (state_of self.new ≡ state_of self.old) }
    {
        match command_of(line) {
            Command::Encode(text) => self.encode(alloc, text),
            Command::Load(text) => self.load(alloc, text),
            Command::Read(text) => self.read(alloc, text),
            Command::Write(text) => self.write(alloc, text),
            Command::Reencode(text) => self.reencode(alloc, text),
            Command::Decode => self.decode(alloc),
            Command::Erase => self.erase(alloc),
            Command::Value => self.value(alloc),
            Command::Unknown => Err(Refusal::Syntax),
        }
    }
}
