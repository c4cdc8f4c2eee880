//! The containers of JSON documents: their keys and values, found in the bytes.

ghost use Rattle.std.specs.Prelude.{◌≡◌, ◌≤◌, ◌<◌, IfOk, Ok, Err, false, length, take, drop};
ghost use Rattle.byteorder.specs.Endian.{little_number};
ghost use Rattle.wire_buf.specs.Encoding.{AreBytes};
ghost use Rattle.rows_jsonb.specs.JsonbTypes.{jsonb_type_of};
ghost use Rattle.rows_jsonb.specs.JsonbLayout.{format, offset_size, key_entry_offset, value_entry_offset, header_size};
ghost use Rattle.rows_jsonb.specs.JsonbValues.{container_at, elem_in, object_key};

use byteorder::{ByteOrder, LittleEndian};
use std::alloc::AllocError;

/// The text can't be written directly from the bytes: their document is unusual or malformed, or out of memory.
#[derive(Clone, Copy, Debug, PartialEq, Eq)]
pub struct NotDirect;

impl From<AllocError> for NotDirect {
    fn from(_error: AllocError) -> NotDirect {
        NotDirect
    }
}

/// An array or an object, whose element count and header have been checked.
#[derive(Clone, Copy)]
pub struct Container<'a> {
    pub(crate) is_large: bool,
    /// Whether it is an array; else it is an object.
    pub is_array: bool,
    /// How many elements or members it has.
    pub count: u32,
    /// Its bytes: its header, its entries, and what they refer to.
    pub bytes: &'a [u8],
    ghost header: { header_size (format is_large is_array) count ≤ length bytes.now },
    ghost are_bytes: { AreBytes bytes.now },
}

/// Returns the size of an offset in bytes.
#[inline(always)]
fn offset_len(is_large: bool) -> usize
    ensures { result ≡ offset_size is_large }
{
    if is_large { 4 } else { 2 }
}

/// Returns the offset that the bytes begin with.
#[inline(always)]
fn read_offset(bytes: &[u8], is_large: bool) -> u32
    requires { offset_size is_large ≤ length bytes.now }
    ensures { result ≡ little_number (offset_size is_large) bytes.now }
{
    if is_large {
        return LittleEndian::read_u32(bytes);
    }
    u32::from(LittleEndian::read_u16(bytes))
}

/// Returns the offset of the entry of key number `pos`.
#[inline(always)]
fn key_entry_at(is_large: bool, pos: u32) -> usize
    ensures { result ≡ key_entry_offset is_large pos }
{
    if is_large {
        return 8 + 6 * pos as usize;
    }
    4 + 4 * pos as usize
}

/// Returns the offset of the entry of value number `pos`.
#[inline(always)]
fn value_entry_at(is_large: bool, is_array: bool, count: u32, pos: u32) -> usize
    ensures { result ≡ value_entry_offset (format is_large is_array) count pos }
{
    match (is_large, is_array) {
        (false, false) => 4 + 4 * count as usize + 3 * pos as usize,
        (false, true) => 4 + 3 * pos as usize,
        (true, false) => 8 + 6 * count as usize + 5 * pos as usize,
        (true, true) => 8 + 5 * pos as usize,
    }
}

impl<'a> Container<'a> {
    ghost use Rattle.feed_text.specs.Containers.{value_of, typed, inlined};
    ghost use Rattle.feed_text.specs.KeyOrder.{IsFound};

    /// Returns whether a value with this type byte is inlined in its entry.
    #[inline(always)]
    fn is_inlined(type_byte: u8, is_large: bool) -> bool
        ensures { result ≡ inlined is_large (jsonb_type_of type_byte) }
    {
        match type_byte {
            4 | 5 | 6 => true,
            7 | 8 => is_large,
            _ => false,
        }
    }

    /// Reads the container with this type byte that the bytes begin with.
    pub fn of_type(type_byte: u8, bytes: &'a [u8]) -> Result<Container<'a>, NotDirect>
        ensures { IfOk result (λ c. typed type_byte bytes.now ≡ Ok (value_of c)) }
    {
        match type_byte {
            0 => Container::read(false, false, bytes),
            1 => Container::read(true, false, bytes),
            2 => Container::read(false, true, bytes),
            3 => Container::read(true, true, bytes),
            _ => Err(NotDirect),
        }
    }

    /// Reads the container in this format that the bytes begin with.
    #[inline(always)]
    #[tactic(auto, using(rows_values::proofs::UnpackedLemmas::take_bytes))]
    pub fn read(is_large: bool, is_array: bool, bytes: &'a [u8]) -> Result<Container<'a>, NotDirect>
        ensures large { IfOk result (λ c. c.is_large ≡ is_large) }
        ensures array { IfOk result (λ c. c.is_array ≡ is_array) }
        ensures value { IfOk result (λ c. container_at (format is_large is_array) bytes.now ≡ Ok (value_of c)) }
    {
        let offset_len = offset_len(is_large);
        if bytes.len() < 2 * offset_len {
            return Err(NotDirect);
        }
        let count = read_offset(bytes, is_large);
        let size = read_offset(&bytes[offset_len..], is_large) as usize;
        if bytes.len() < size || size < value_entry_at(is_large, is_array, count, count) {
            return Err(NotDirect);
        }
        Ok(Container {
            is_large,
            is_array,
            count,
            bytes: &bytes[..size],
        })
    }

    /// Finds value number `pos`: its type byte, and bytes that begin with it.
    #[inline(always)]
    #[tactic(auto, using(rows_jsonb::proofs::FormatLemmas::entry_within, rows_jsonb::proofs::FormatLemmas::offset_least))]
    pub fn value_at(&self, pos: u32) -> Result<(u8, &'a [u8]), NotDirect>
        requires { pos < self.now.count }
        ensures { IfOk result (λ v. elem_in (value_of self.now) pos ≡ typed v.0 v.1.now) }
    {
        let at = value_entry_at(self.is_large, self.is_array, self.count, pos);
        let type_byte = self.bytes[at];
        let entry = &self.bytes[at + 1..];
        let offset_len = offset_len(self.is_large);
        if Container::is_inlined(type_byte, self.is_large) {
            return Ok((type_byte, &entry[..offset_len]));
        }
        let offset = read_offset(entry, self.is_large) as usize;
        if self.bytes.len() < offset || offset < at + 1 + offset_len {
            return Err(NotDirect);
        }
        Ok((type_byte, &self.bytes[offset..]))
    }

    /// Finds key number `pos` of an object: bytes that begin with it, and its length.
    #[inline(always)]
    #[tactic(auto, using(rows_jsonb::proofs::FormatLemmas::key_entry_within, rows_jsonb::proofs::FormatLemmas::offset_least))]
    pub fn key_at(&self, pos: u32) -> Result<(&'a [u8], usize), NotDirect>
        requires object { self.now.is_array ≡ false }
        requires below { pos < self.now.count }
        ensures within { IfOk result (λ k. k.1 ≤ length k.0.now) }
        ensures key { IfOk result (λ k. object_key (value_of self.now) pos ≡ Ok (take k.1 k.0.now)) }
    {
        let entry = &self.bytes[key_entry_at(self.is_large, pos)..];
        let offset = read_offset(entry, self.is_large) as usize;
        let len = usize::from(LittleEndian::read_u16(&entry[offset_len(self.is_large)..]));
        if offset < value_entry_at(self.is_large, self.is_array, self.count, self.count)
            || self.bytes.len() < offset + len
        {
            return Err(NotDirect);
        }
        Ok((&self.bytes[offset..], len))
    }

    /// Finds key number `pos` of an object, as [`Container::key_at`] does, without the tests that it passed.
    #[inline(always)]
    #[tactic(auto, using(rows_jsonb::proofs::FormatLemmas::key_entry_within, rows_jsonb::proofs::FormatLemmas::offset_least))]
    pub fn known_key_at(&self, pos: u32) -> (&'a [u8], usize)
        requires object { self.now.is_array ≡ false }
        requires below { pos < self.now.count }
        requires known { IsFound (object_key (value_of self.now) pos) }
        ensures within { result.1 ≤ length result.0.now }
        ensures key { object_key (value_of self.now) pos ≡ Ok (take result.1 result.0.now) }
    {
        let entry = &self.bytes[key_entry_at(self.is_large, pos)..];
        let offset = read_offset(entry, self.is_large) as usize;
        let len = usize::from(LittleEndian::read_u16(&entry[offset_len(self.is_large)..]));
        (&self.bytes[offset..], len)
    }
}
