//! Sequences of numbers, for constants.

ghost use Rattle.std.specs.Prelude.{◌≡◌, ◌⊎◌, ◌↔◌, ⊤, List, [], length, map, slice_get, option_map, IfOk, IfErr, IfSome, IfNone, OnOk, OnErr, IsTrue};
ghost use Rattle.std.specs.Cow.{cow_slice_items, IsOwnedSlice};
ghost use Rattle.wire_buf.specs.Encoding.{Reads, Lacks, Alone, IsSequence};
ghost use Rattle.wire_buf.specs.Writing.{WritesField, WriteFails};
ghost use Rattle.wire_buf.specs.declared.fault.WireFault.TheVariants.{Memory};
ghost use Rattle.wire_fields_extra.specs.Sequences.{IsSequenceOf, joined_encoded, NumberFails, NumbersFail};

use std::alloc::{AllocError, Allocator, Global};
use std::borrow::CowSlice;
use std::marker::PhantomData;
use wire_buf::{
    AnySize, Inner, MyDeserialize, MySerialize, ParseBuf, WireFault, WireSize, truncate_on_error,
};
use wire_fields::{IntRepr, RawConst};

/// Numbers in the representation `T` in sequence, for constants of type `U`. The context is their count.
#[derive(Drop)]
#[derive_where(PartialEq, Eq, Debug; T::Primitive)]
pub struct RawSeq<'a, T: IntRepr, U>(pub CowSlice<'a, T::Primitive>, PhantomData<U>);

impl<'a, T: IntRepr, U> RawSeq<'a, T, U> {
    /// Returns a field that holds `numbers`.
    pub fn new(numbers: CowSlice<'a, T::Primitive>) -> RawSeq<'a, T, U>
        ensures { result.0 ≡ numbers.entry }
    {
        RawSeq(numbers, PhantomData)
    }

    /// Returns how many numbers there are.
    pub fn len(&self) -> usize
        ensures { result ≡ length (cow_slice_items self.now.0) }
    {
        self.0.len()
    }

    /// Returns whether there are no numbers.
    pub fn is_empty(&self) -> bool
        ensures { IsTrue result ↔ (cow_slice_items self.now.0 ≡ []) }
    {
        self.0.is_empty()
    }
}

impl<'a, T: IntRepr, U> RawSeq<'a, T, U> {
    /// Returns the number at `index` as a raw constant, or None if `index` is out of range.
    pub fn get(&self, index: usize) -> Option<RawConst<T, U>>
        ensures { option_map (λ raw. raw.0) result ≡ slice_get (cow_slice_items self.now.0) index }
    {
        let number = self.0.as_slice().get(index)?;
        Some(RawConst::new(*number))
    }
}

impl<'a, T: IntRepr, U> RawSeq<'a, T, U>
where
    T::Primitive: Clone,
{
    /// Returns the same numbers, owned. Clones of the numbers must equal them.
    pub fn into_owned(self, alloc: Global) -> Result<RawSeq<'a, T, U>, AllocError>
        requires { (x y : T.Primitive) → T.Primitive.is_clone x y → y ≡ x }
        ensures items { IfOk result (λ s. cow_slice_items s.0 ≡ cow_slice_items self.entry.0) }
        ensures owned { IfOk result (λ s. IsOwnedSlice s.0) }
    {
        Ok(RawSeq(CowSlice::Owned(self.0.into_owned(alloc)?), PhantomData))
    }

    /// Returns an owned copy. Clones of the numbers must equal them.
    pub fn clone(&self, alloc: Global) -> Result<RawSeq<'a, T, U>, AllocError>
        requires { (x y : T.Primitive) → T.Primitive.is_clone x y → y ≡ x }
        ensures items { IfOk result (λ s. cow_slice_items s.0 ≡ cow_slice_items self.now.0) }
        ensures owned { IfOk result (λ s. IsOwnedSlice s.0) }
    {
        let numbers = CowSlice::Borrowed(self.0.as_slice()).into_owned(alloc)?;
        Ok(RawSeq(CowSlice::Owned(numbers), PhantomData))
    }
}

impl<'de, T: IntRepr, U> MyDeserialize<'de> for RawSeq<'de, T, U> {
    const SIZE: Option<usize> = None;

    type Size = AnySize;

    type Ctx = usize;

    type Fault = WireFault;

    ghost View = { List T.Primitive };

    ghost view = { λ v. cow_slice_items v.0 };

    ghost encodes = { λ ctx. IsSequence ctx (Alone T.encodes) };

    ghost fails_with = { λ ctx. NumbersFail ctx T.Size.SIZE T.encodes T.fault_at };

    fn deserialize(
        alloc: Global,
        ctx: usize,
        buf: &mut ParseBuf<'de>,
    ) -> Result<RawSeq<'de, T, U>, WireFault> {
        let numbers = take_numbers::<T>(alloc, ctx, buf)?;
        Ok(RawSeq::new(numbers))
    }

    ghost sized = { λ ctx v bytes rest h. tt };
}

impl<'a, T: IntRepr, U> MySerialize for RawSeq<'a, T, U> {
    ghost View = { List T.Primitive };

    ghost view = { λ v. map T.kept (cow_slice_items v.0) };

    ghost encoding = { IsSequenceOf (Alone T.encodes) };

    ghost encoded = { joined_encoded T.encoded };

    fn serialize<A: Allocator>(&self, buf: &mut Vec<u8, A>) -> Result<(), WireFault> {
        write_numbers::<T, A>(self.0.as_slice(), buf)
    }
}

impl<'a, T: IntRepr, U> Inner for RawSeq<'a, T, U> {
    ghost before_any = { λ rest. tt };
}

/// Appends the bytes of the numbers; nothing if one of them returns an error.
fn write_numbers<T: IntRepr, A: Allocator>(
    numbers: &[T::Primitive],
    buf: &mut Vec<u8, A>,
) -> Result<(), WireFault>
    ensures ok { OnOk result (WritesField (joined_encoded T.encoded) (IsSequenceOf (Alone T.encodes)) (λ rest. ⊤)
        (map T.kept numbers.now) buf.old.items buf.new.items) }
    ensures err { IfErr result (λ e. WriteFails (joined_encoded T.encoded) (map T.kept numbers.now) e
        buf.old.items buf.new.items) }
{
    if let Some(bytes) = T::as_bytes(numbers) {
        buf.extend_from_slice(bytes)?;
        return Ok(());
    }
    let start = buf.len();
    for number in numbers {
        if let Err(fault) = T::serialize(*number, buf) {
            return truncate_on_error(Err(fault), start, buf);
        }
    }
    Ok(())
}

/// Reads `count` numbers: as a part of the source if each of them is one byte and all are there, else one by
/// one.
fn take_numbers<'de, T: IntRepr>(
    alloc: Global,
    count: usize,
    buf: &mut ParseBuf<'de>,
) -> Result<CowSlice<'de, T::Primitive>, WireFault>
    ensures ok { IfOk result (λ v. Reads (IsSequence count (Alone T.encodes))
        (cow_slice_items v) buf.old.0.now buf.new.0.now) }
    ensures err { IfErr result (λ e. (e ≡ Memory)
        ⊎ Lacks (IsSequence count (Alone T.encodes)) buf.old.0.now) }
    ensures why { IfErr result
        (NumbersFail count T.Size.SIZE T.encodes T.fault_at buf.old.0.now) }
{
    if let Some(numbers) = borrow_numbers::<T>(count, buf) {
        return Ok(CowSlice::Borrowed(numbers));
    }
    let numbers = read_numbers::<T>(alloc, count, buf)?;
    Ok(CowSlice::Owned(numbers))
}

/// Returns the next `count` numbers as a part of the source if each of them is one byte and all are there;
/// else None, and takes nothing.
fn borrow_numbers<'de, T: IntRepr>(
    count: usize,
    buf: &mut ParseBuf<'de>,
) -> Option<&'de [T::Primitive]>
    ensures some { IfSome result (λ numbers. Reads (IsSequence count (Alone T.encodes))
        numbers.now buf.old.0.now buf.new.0.now) }
    ensures none { IfNone result (buf.new.0.now ≡ buf.old.0.now) }
{
    let mut rest = *buf;
    let bytes = rest.checked_eat(count)?;
    let numbers = T::from_bytes(bytes)?;
    *buf = rest;
    Some(numbers)
}

/// Reads `count` numbers. Memory grows with the numbers that are read.
fn read_numbers<T: IntRepr>(
    alloc: Global,
    count: usize,
    buf: &mut ParseBuf<'_>,
) -> Result<Vec<T::Primitive>, WireFault>
    ensures ok { IfOk result (λ v. Reads (IsSequence count (Alone T.encodes)) v.items
        buf.old.0.now buf.new.0.now) }
    ensures err { IfErr result (λ e. (e ≡ Memory)
        ⊎ Lacks (IsSequence count (Alone T.encodes)) buf.old.0.now) }
    ensures why { IfErr result
        (NumbersFail count T.Size.SIZE T.encodes T.fault_at buf.old.0.now) }
{
    let mut numbers = Vec::new(alloc);
    for _ in 0..count {
        let number = read_number::<T>(buf)?;
        let Ok(()) = numbers.push(number) else {
            return Err(WireFault::Memory);
        };
    }
    Ok(numbers)
}

/// Reads a number. Returns an error if bytes of it are missing.
fn read_number<T: IntRepr>(buf: &mut ParseBuf<'_>) -> Result<T::Primitive, WireFault>
    ensures ok { IfOk result
        (λ v. Reads (Alone T.encodes) v buf.old.0.now buf.new.0.now) }
    ensures err { OnErr result (Lacks (Alone T.encodes) buf.old.0.now) }
    ensures why { IfErr result (NumberFails T.Size.SIZE T.encodes T.fault_at buf.old.0.now) }
{
    if let Some(size) = <T::Size as WireSize>::SIZE {
        if buf.len() < size {
            return Err(WireFault::Eof);
        }
    }
    T::deserialize(buf)
}
