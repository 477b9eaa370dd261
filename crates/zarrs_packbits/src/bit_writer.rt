//! Bits that are put one behind another.
ghost use Rattle.std.specs.Prelude.{◌≡◌, ℕ, ◌+◌, ◌*◌, ◌^◌, ◌<◌, ◌≤◌, List, [], length, replicate, IfOk};
ghost use Rattle.zarrs_packbits.specs.Bits.{low_bits, bits_of, field, bit_of};
ghost use Rattle.zarrs_packbits.specs.BitStream.{stream_of_bytes};
ghost use Rattle.zarrs_packbits.specs.KeptBits.{full_component};
ghost use Rattle.zarrs_packbits.specs.PackedLayout.{IsPackedLayout, layout_components};
ghost use Rattle.zarrs_packbits.specs.Packing.{packing};
ghost use Rattle.zarrs_packbits.specs.WrittenBits.{flags_of, written_bits, IsPartlyFilled, Puts, PutsComponents};

use crate::bit_appends::{
    append_by_words, append_first, append_kept, append_narrow, flush_word, in_range,
    parts_by_words, repeat_bit,
};
use crate::layout::PackedLayout;
use crate::words::{append_bits, gather_flags, read_bits};
use std::alloc::{AllocError, Global};
use std::marker::Model;

/// Bits that are put one behind another, and then handed out in bytes. It is seen as the list of
/// its bits.
#[derive(Drop)]
pub(crate) struct BitWriter {
    out: Vec<u8>,
    word: u64,
    filled: u32,
}

impl Model for BitWriter {
    ghost use Rattle.std.specs.Prelude.{List, ℕ};
    ghost use Rattle.zarrs_packbits.specs.WrittenBits.{written_bits, IsPartlyFilled};

    ghost Value = { List ℕ };

    ghost view = { λ w. written_bits w.out.items w.word w.filled };

    ghost invariant = { λ w. IsPartlyFilled w.word w.filled };
}

impl BitWriter {
    /// No bits yet, with room for as many bytes.
    pub(crate) fn with_capacity(alloc: Global, bytes: usize) -> Result<BitWriter, AllocError>
        ensures made { IfOk result (λ w. w ≡ []) }
    {
        Ok(BitWriter {
            out: Vec::with_capacity(alloc, bytes)?,
            word: 0,
            filled: 0,
        })
    }

    /// Puts the lowest `count` bits of a number behind the others.
    pub(crate) fn put(&mut self, bits: u64, count: u32) -> Result<(), AllocError>
        requires count { count ≤ 64 }
        requires bits_fit { bits < 2 ^ count }
        ensures appended { Puts self.old self.new result (low_bits count bits) }
    {
        let (word, filled) = append_bits(&mut self.out, self.word, self.filled, bits, count)?;
        self.word = word;
        self.filled = filled;
        Ok(())
    }

    /// Puts `count` bits of the bytes, from bit `at` on, a word at a time.
    fn put_field(&mut self, bytes: &[u8], at: u64, count: u64) -> Result<(), AllocError>
        requires inside { at + count ≤ 8 * length bytes.now }
        requires at { at + count < 2 ^ 64 }
        ensures appended { Puts self.old self.new result (field at count (bits_of bytes.now)) }
    {
        let mut done = 0;
        while done < count {
            let more = (count - done).min(64);
            let bits = read_bits(bytes, at + done, more as u32);
            self.put(bits, more as u32)?;
            done += more;
        }
        Ok(())
    }

    /// Puts one bit so many times, a word at a time.
    fn put_repeated(&mut self, bit: bool, count: u64) -> Result<(), AllocError>
        ensures appended { Puts self.old self.new result (replicate count (bit_of bit)) }
    {
        let mut done = 0;
        while done < count {
            let more = (count - done).min(64);
            self.put(repeat_bit(bit, more), more as u32)?;
            done += more;
        }
        Ok(())
    }

    /// Puts a component whose kept bits stand in the bytes from bit `at` on: zeros below
    /// them, and above them zeros, or copies of the last one where the type has a sign.
    fn put_component(
        &mut self,
        layout: &PackedLayout,
        bytes: &[u8],
        at: u64,
    ) -> Result<(), AllocError>
        requires some { 0 < layout.now.count }
        requires inside { at + layout.now.count ≤ 8 * length bytes.now }
        requires at { at + layout.now.count < 2 ^ 64 }
        ensures appended { Puts self.old self.new result (full_component layout.now.first
            layout.now.above layout.now.sign (field at layout.now.count (bits_of bytes.now))) }
    {
        self.put_repeated(false, layout.first)?;
        self.put_field(bytes, at, layout.count)?;
        let top = layout.sign && read_bits(bytes, at + (layout.count - 1), 1) == 1;
        self.put_repeated(top, layout.above)
    }

    /// Puts one bit of each of these bytes, 64 bytes at a time.
    fn put_flags(&mut self, bytes: &[u8], bit: u64) -> Result<(), AllocError>
        requires bit { bit < 8 }
        ensures appended { Puts self.old self.new result (flags_of bit bytes.now) }
    {
        let mut done = 0;
        while done < bytes.len() {
            let more = (bytes.len() - done).min(64);
            let flags = gather_flags(&bytes[done..done + more], bit);
            self.put(flags, more as u32)?;
            done += more;
        }
        Ok(())
    }

    /// Puts the kept bits of all components of a chunk. Where one bit of each byte is kept, they go
    /// through a word together.
    pub(crate) fn put_stream(
        &mut self,
        layout: &PackedLayout,
        bytes: &[u8],
    ) -> Result<(), AllocError>
        requires layout { IsPackedLayout layout.now }
        requires last_fits { layout.now.first + layout.now.count < 2 ^ 64 }
        requires len { length bytes.now ≡ layout_components layout.now * layout.now.size }
        ensures appended { Puts self.old self.new result (stream_of_bytes layout.now bytes.now) }
    {
        if layout.size == 1 && layout.count == 1 {
            return self.put_flags(bytes, layout.first);
        }
        if layout.count <= 64 {
            return self.put_kept(layout, bytes);
        }
        for part in 0..layout.elements * layout.group {
            let start = (part * layout.size) as usize;
            self.put_field(&bytes[start..], layout.first, layout.count)?;
        }
        Ok(())
    }

    /// The same where a word holds the kept bits of a component.
    fn put_kept(&mut self, layout: &PackedLayout, bytes: &[u8]) -> Result<(), AllocError>
        requires layout { IsPackedLayout layout.now }
        requires last_fits { layout.now.first + layout.now.count < 2 ^ 64 }
        requires count { layout.now.count ≤ 64 }
        requires len { length bytes.now ≡ layout_components layout.now * layout.now.size }
        ensures appended { Puts self.old self.new result (stream_of_bytes layout.now bytes.now) }
    {
        let (part, reached, begin) = append_first(
            &mut self.out,
            self.word,
            self.filled,
            layout,
            bytes,
        )?;
        let end = parts_by_words(layout, bytes.len(), begin);
        let (part, reached) = append_by_words(
            &mut self.out,
            part,
            reached,
            layout,
            bytes,
            begin,
            end,
        )?;
        let (word, filled) = append_kept(&mut self.out, part, reached, layout, bytes, end)?;
        self.word = word;
        self.filled = filled;
        Ok(())
    }

    /// Puts so many components of up to 64 bits, whose kept bits stand in the bytes from bit `at` on.
    fn put_narrow(
        &mut self,
        layout: &PackedLayout,
        bytes: &[u8],
        at: u64,
        parts: u64,
    ) -> Result<(), AllocError>
        requires some { 0 < layout.now.count }
        requires fits { layout.now.first + layout.now.count + layout.now.above ≤ 64 }
        requires inside { at + parts * layout.now.count ≤ 8 * length bytes.now }
        requires at { at + parts * layout.now.count < 2 ^ 64 }
        ensures appended { PutsComponents layout.now at parts bytes.now self.old self.new result }
    {
        let (word, filled) = append_narrow(
            &mut self.out,
            self.word,
            self.filled,
            layout,
            bytes,
            at,
            parts,
        )?;
        self.word = word;
        self.filled = filled;
        Ok(())
    }

    /// Puts so many components, whose kept bits stand in the bytes from bit `at` on.
    pub(crate) fn put_components(
        &mut self,
        layout: &PackedLayout,
        bytes: &[u8],
        at: u64,
        parts: u64,
    ) -> Result<(), AllocError>
        requires some { 0 < layout.now.count }
        requires inside { at + parts * layout.now.count ≤ 8 * length bytes.now }
        requires at { at + parts * layout.now.count < 2 ^ 64 }
        ensures appended { PutsComponents layout.now at parts bytes.now self.old self.new result }
    {
        if layout.is_narrow() {
            return self.put_narrow(layout, bytes, at, parts);
        }
        for part in 0..parts {
            self.put_component(layout, bytes, at + part * layout.count)?;
        }
        Ok(())
    }

    /// The bits in bytes, and zeros in what is left of the last one.
    pub(crate) fn finish(self) -> Result<Vec<u8>, AllocError>
        ensures value { IfOk result (λ v. v.items ≡ packing self) }
    {
        let BitWriter { out, word, filled } = self;
        let bytes = in_range(flush_word(out, word, filled)?);
        Ok(bytes)
    }
}
