//! The layout of containers.

ghost use Rattle.std.specs.Prelude.{◌≡◌, ◌≤◌, ℕ, Bool, true, false, length, drop, refl};
ghost use Rattle.byteorder.specs.Endian.{little_number};
ghost use Rattle.rows_jsonb.specs.JsonbLayout.{format, offset_size, key_entry_size, value_entry_size, header_size as header, value_entry_offset as value_entry};

use wire_buf::ParseBuf;

/// The size of the offsets in a container: two bytes or four.
pub trait StorageFormat {
    const IS_LARGE: bool;

    ghost IS_LARGE: { Bool };

    /// The size of an offset, of a count and of a size field, in bytes.
    const OFFSET_SIZE: u8;

    ghost OFFSET_SIZE: { ℕ };

    /// The size of a key entry: an offset, and a length in two bytes.
    const KEY_ENTRY_SIZE: u8;

    ghost KEY_ENTRY_SIZE: { ℕ };

    /// The size of a value entry: a type byte, and an offset or an inlined value.
    const VALUE_ENTRY_SIZE: u8;

    ghost VALUE_ENTRY_SIZE: { ℕ };

    /// Consumes one offset; the bytes must be there.
    fn eat_offset(buf: &mut ParseBuf<'_>) -> u32
        requires { offset_size IS_LARGE ≤ length buf.old.0.now }
        ensures value { result ≡ little_number (offset_size IS_LARGE) buf.old.0.now }
        ensures rest { buf.new.0.now ≡ drop (offset_size IS_LARGE) buf.old.0.now };

    /// The sizes are those of the format.
    ghost offset_sized: { OFFSET_SIZE ≡ offset_size IS_LARGE };

    ghost key_sized: { KEY_ENTRY_SIZE ≡ key_entry_size IS_LARGE };

    ghost value_sized: { VALUE_ENTRY_SIZE ≡ value_entry_size IS_LARGE };
}

/// Offsets of two bytes.
#[derive(Clone, Copy, Debug, PartialEq, Eq, Hash)]
pub struct Small;

impl StorageFormat for Small {
    const IS_LARGE: bool = false;

    ghost IS_LARGE = { false };

    const OFFSET_SIZE: u8 = 2;

    ghost OFFSET_SIZE = { 2 };

    const KEY_ENTRY_SIZE: u8 = 4;

    ghost KEY_ENTRY_SIZE = { 4 };

    const VALUE_ENTRY_SIZE: u8 = 3;

    ghost VALUE_ENTRY_SIZE = { 3 };

    fn eat_offset(buf: &mut ParseBuf<'_>) -> u32 {
        u32::from(buf.eat_u16_le())
    }

    ghost offset_sized = { refl };

    ghost key_sized = { refl };

    ghost value_sized = { refl };
}

/// Offsets of four bytes.
#[derive(Clone, Copy, Debug, PartialEq, Eq, Hash)]
pub struct Large;

impl StorageFormat for Large {
    const IS_LARGE: bool = true;

    ghost IS_LARGE = { true };

    const OFFSET_SIZE: u8 = 4;

    ghost OFFSET_SIZE = { 4 };

    const KEY_ENTRY_SIZE: u8 = 6;

    ghost KEY_ENTRY_SIZE = { 6 };

    const VALUE_ENTRY_SIZE: u8 = 5;

    ghost VALUE_ENTRY_SIZE = { 5 };

    fn eat_offset(buf: &mut ParseBuf<'_>) -> u32 {
        buf.eat_u32_le()
    }

    ghost offset_sized = { refl };

    ghost key_sized = { refl };

    ghost value_sized = { refl };
}

/// Arrays and objects.
pub trait ComplexType {
    const IS_ARRAY: bool;

    ghost IS_ARRAY: { Bool };

    /// Returns the number of bytes before the first key or value: count, size and entries.
    fn header_size<T: StorageFormat>(element_count: u32) -> usize
        ensures { result ≡ header (format T.IS_LARGE IS_ARRAY) element_count };

    /// Returns the offset of the entry of value number `pos`.
    fn value_entry_offset<T: StorageFormat>(element_count: u32, pos: u32) -> usize
        ensures { result ≡ value_entry (format T.IS_LARGE IS_ARRAY) element_count pos };
}

/// A container whose values have keys.
#[derive(Clone, Copy, Debug, PartialEq, Eq, Hash)]
pub struct Object;

impl ComplexType for Object {
    const IS_ARRAY: bool = false;

    ghost IS_ARRAY = { false };

    fn header_size<T: StorageFormat>(element_count: u32) -> usize {
        Object::value_entry_offset::<T>(element_count, element_count)
    }

    fn value_entry_offset<T: StorageFormat>(element_count: u32, pos: u32) -> usize {
        2 * usize::from(T::OFFSET_SIZE)
            + usize::from(T::KEY_ENTRY_SIZE) * element_count as usize
            + usize::from(T::VALUE_ENTRY_SIZE) * pos as usize
    }
}

/// A container whose values have no keys.
#[derive(Clone, Copy, Debug, PartialEq, Eq, Hash)]
pub struct Array;

impl ComplexType for Array {
    const IS_ARRAY: bool = true;

    ghost IS_ARRAY = { true };

    fn header_size<T: StorageFormat>(element_count: u32) -> usize {
        Array::value_entry_offset::<T>(element_count, element_count)
    }

    fn value_entry_offset<T: StorageFormat>(_element_count: u32, pos: u32) -> usize {
        2 * usize::from(T::OFFSET_SIZE) + usize::from(T::VALUE_ENTRY_SIZE) * pos as usize
    }
}
