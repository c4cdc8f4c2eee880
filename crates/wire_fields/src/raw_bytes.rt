//! Byte strings as fields.

ghost use Rattle.std.specs.Prelude.{◌≡◌, ◌⊎◌, ◌↔◌, List, ℕ, [], length, IfOk, IfErr, IsOkAnd, IsTrue, Some, None};
ghost use Rattle.std.specs.Cow.{cow_slice_items, cow_str_bytes, IsOwnedSlice, IsBorrowedSlice, IsBorrowedStr};
ghost use Rattle.std.specs.Str.{IsUtf8};
ghost use Rattle.std.specs.Str.Lossy.{utf8_lossy};
ghost use Rattle.wire_buf.specs.Encoding.{Reads, Lacks, HasRoom};
ghost use Rattle.wire_buf.specs.declared.fault.WireFault.TheVariants.{Memory};
ghost use Rattle.wire_fields.specs.RawTexts.{raw_string};

use crate::bytes_repr::{BytesRepr, InnerBytes};
use std::alloc::{AllocError, Allocator, Global};
use std::borrow::{CowSlice, CowStr};
use std::marker::PhantomData;
use std::str;
use wire_buf::{Inner, MyDeserialize, MySerialize, ParseBuf, WireFault};

/// A byte string in the representation `T`, as a field: borrowed from its source, or owned.
#[derive(Drop)]
#[derive_where(PartialEq, Eq, Hash, Debug)]
pub struct RawBytes<'a, T: BytesRepr>(pub CowSlice<'a, u8>, PhantomData<T>);

impl<'a, T: BytesRepr> RawBytes<'a, T> {
    /// Returns a field that holds `text`.
    pub fn new(text: CowSlice<'a, u8>) -> RawBytes<'a, T>
        ensures { result.0 ≡ text.entry }
    {
        RawBytes(text, PhantomData)
    }

    /// Returns the number of bytes of the string.
    pub fn len(&self) -> usize
        ensures { result ≡ length (raw_string self.now) }
    {
        self.0.len()
    }

    /// Returns whether the string is empty.
    pub fn is_empty(&self) -> bool
        ensures { IsTrue result ↔ (raw_string self.now ≡ []) }
    {
        self.0.is_empty()
    }

    /// Returns the string's bytes.
    pub fn as_bytes(&self) -> &[u8]
        ensures { result.now ≡ raw_string self.now }
    {
        &self.0
    }

    /// Returns the string as text: borrowed and unchanged if it is UTF-8, else with replacement characters.
    pub fn as_str(&self, alloc: Global) -> Result<CowStr<'_>, AllocError>
        ensures text { IfOk result
            (λ t. IsUtf8 (raw_string self.now) → cow_str_bytes t ≡ raw_string self.now) }
        ensures lossy { IfOk result
            (λ t. cow_str_bytes t ≡ utf8_lossy (raw_string self.now)) }
        ensures borrowed { IsUtf8 (raw_string self.now)
            → IsOkAnd result (λ t. IsBorrowedStr t) }
    {
        match str::from_utf8(self.as_bytes()) {
            Ok(text) => Ok(CowStr::Borrowed(text)),
            Err(_) => Ok(CowStr::Owned(String::from_utf8_lossy(alloc, self.as_bytes())?)),
        }
    }

    /// Returns whether the string has exactly these bytes.
    pub fn eq_bytes(&self, bytes: &[u8]) -> bool
        ensures { IsTrue result ↔ (raw_string self.now ≡ bytes.now) }
    {
        self.as_bytes() == bytes
    }

    /// Returns an owned copy of the string.
    pub fn clone(&self, alloc: Global) -> Result<RawBytes<'static, T>, AllocError>
        ensures text { IfOk result (λ t. raw_string t ≡ raw_string self.now) }
        ensures owned { IfOk result (λ t. IsOwnedSlice t.0) }
    {
        let text = CowSlice::Borrowed(self.as_bytes()).into_owned(alloc)?;
        Ok(RawBytes(CowSlice::Owned(text), PhantomData))
    }

    /// Returns the string, owned.
    pub fn into_owned(self, alloc: Global) -> Result<RawBytes<'static, T>, AllocError>
        ensures text { IfOk result (λ t. raw_string t ≡ raw_string self.entry) }
        ensures owned { IfOk result (λ t. IsOwnedSlice t.0) }
    {
        Ok(RawBytes(CowSlice::Owned(self.0.into_owned(alloc)?), PhantomData))
    }
}

impl<'a, T: BytesRepr> From<CowSlice<'a, u8>> for RawBytes<'a, T> {
    ghost from_gives = { λ text raw. raw_string raw ≡ cow_slice_items text };

    fn from(text: CowSlice<'a, u8>) -> RawBytes<'a, T> {
        RawBytes::new(text)
    }
}

impl<'a, T: BytesRepr> From<&'a [u8]> for RawBytes<'a, T> {
    ghost from_gives = { λ text raw. raw_string raw ≡ text.now };

    fn from(text: &'a [u8]) -> RawBytes<'a, T> {
        RawBytes::new(CowSlice::Borrowed(text))
    }
}

impl<'a, T: BytesRepr> From<Vec<u8>> for RawBytes<'a, T> {
    ghost from_gives = { λ text raw. raw_string raw ≡ text.items };

    fn from(text: Vec<u8>) -> RawBytes<'a, T> {
        RawBytes::new(CowSlice::Owned(text))
    }
}

impl<'de, T: BytesRepr> MyDeserialize<'de> for RawBytes<'de, T> {
    const SIZE: Option<usize> = T::SIZE;

    type Size = T::Size;

    type Ctx = T::Ctx;

    type Fault = WireFault;

    ghost View = { List ℕ };

    ghost view = { raw_string };

    ghost encodes = { T.encodes };

    ghost fails_with = { λ ctx x e. Lacks (T.encodes ctx) x × T.is_fault x e };

    /// Reads the string as a part of the source.
    fn deserialize(
        _alloc: Global,
        ctx: T::Ctx,
        buf: &mut ParseBuf<'de>,
    ) -> Result<RawBytes<'de, T>, WireFault>
        requires { HasRoom T.Size.SIZE (length buf.old.0.now) }
        ensures ok { IfOk result
            (λ v. Reads (T.encodes ctx) (raw_string v) buf.old.0.now buf.new.0.now) }
        ensures borrowed { IfOk result (λ v. IsBorrowedSlice v.0) }
        ensures err { IfErr result
            (λ e. e ≡ Memory ⊎ Lacks (T.encodes ctx) buf.old.0.now) }
        ensures why { IfErr result
            (λ e. Lacks (T.encodes ctx) buf.old.0.now × T.is_fault buf.old.0.now e) }
    {
        let text = T::deserialize(ctx, buf)?;
        Ok(RawBytes::new(text))
    }

    ghost sized = { T.sized };
}

impl<'a, T: BytesRepr> MySerialize for RawBytes<'a, T> {
    ghost View = { List ℕ };

    ghost view = { λ v. T.kept (raw_string v) };

    ghost encoding = { λ v. T.encodes (T.context v) v };

    ghost encoded = { λ v. Some (T.encoded v) };

    ghost allows_rest = { T.allows_rest };

    fn serialize<A: Allocator>(&self, buf: &mut Vec<u8, A>) -> Result<(), WireFault> {
        T::serialize(self.as_bytes(), buf)
    }
}

impl<'a, T: InnerBytes> Inner for RawBytes<'a, T> {
    ghost before_any = { T.before_any };
}
