//! Sequences of elements after their count.

ghost use Rattle.std.specs.Prelude.{◌≡◌, ◌↔◌, ◌++◌, ◌∷◌, List, [], length, map, take, OnOk, OnErr, IfOk, IsTrue};
ghost use Rattle.std.specs.Cow.{cow_slice_items, IsOwnedSlice};
ghost use Rattle.wire_fields_extra.specs.Sequences.{IsCountedSequence, sequence_encoded, ItemsFail, SequenceFails};
ghost use Rattle.wire_buf.specs.ReadErrors.{ParseFails};
ghost use Rattle.wire_buf.specs.declared.fault.WireFault.TheVariants.{Eof, Memory};

use crate::items::{read_items, write_items};
use crate::seq_repr::SeqRepr;
use std::alloc::{AllocError, Allocator, Global};
use std::borrow::CowSlice;
use std::marker::PhantomData;
use std::ops::DerefSlice;
use wire_buf::{
    AnySize, Inner, MyDeserialize, MySerialize, ParseBuf, WireFault, truncate_on_error,
};

/// A sequence of elements, whose count is encoded by `U`.
#[derive(Drop)]
#[derive_where(PartialEq, Eq, Debug; T)]
pub struct Seq<'a, T, U>(pub CowSlice<'a, T>, PhantomData<U>);

impl<'a, T, U> Seq<'a, T, U> {
    /// Returns a field that holds `items`.
    pub fn new(items: CowSlice<'a, T>) -> Seq<'a, T, U>
        ensures { result.0 ≡ items.entry }
    {
        Seq(items, PhantomData)
    }

    /// Returns an empty sequence.
    pub fn empty() -> Seq<'static, T, U>
        ensures { cow_slice_items result.0 ≡ [] }
    {
        Seq(CowSlice::Borrowed(&[]), PhantomData)
    }

    /// Returns how many elements there are.
    pub fn len(&self) -> usize
        ensures { result ≡ length (cow_slice_items self.now.0) }
    {
        self.0.len()
    }

    /// Returns whether there are no elements.
    pub fn is_empty(&self) -> bool
        ensures { IsTrue result ↔ (cow_slice_items self.now.0 ≡ []) }
    {
        self.0.is_empty()
    }
}

impl<'a, T: Clone, U> Seq<'a, T, U> {
    /// Appends an element. Borrowed elements are cloned first, and their clones must equal them. An error
    /// (out of memory) leaves the elements unchanged.
    pub fn push(&mut self, alloc: Global, element: T) -> Result<(), AllocError>
        requires { (x y : T) → T.is_clone x y → y ≡ x }
        ensures ok { OnOk result
            (cow_slice_items self.new.0 ≡ cow_slice_items self.old.0 ++ (element ∷ [])) }
        ensures err { OnErr result (cow_slice_items self.new.0 ≡ cow_slice_items self.old.0) }
    {
        if let CowSlice::Borrowed(items) = &self.0 {
            self.0 = CowSlice::Owned(CowSlice::Borrowed(*items).into_owned(alloc)?);
        }
        if let CowSlice::Owned(items) = &mut self.0 {
            items.push(element)?;
        }
        Ok(())
    }

    /// Returns the same elements, owned. Borrowed elements are cloned, and their clones must equal them.
    pub fn into_owned(self, alloc: Global) -> Result<Seq<'a, T, U>, AllocError>
        requires { (x y : T) → T.is_clone x y → y ≡ x }
        ensures items { IfOk result (λ s. cow_slice_items s.0 ≡ cow_slice_items self.entry.0) }
        ensures owned { IfOk result (λ s. IsOwnedSlice s.0) }
    {
        Ok(Seq(CowSlice::Owned(self.0.into_owned(alloc)?), PhantomData))
    }

    /// Returns an owned copy. Clones of the elements must equal them.
    pub fn clone(&self, alloc: Global) -> Result<Seq<'a, T, U>, AllocError>
        requires { (x y : T) → T.is_clone x y → y ≡ x }
        ensures items { IfOk result (λ s. cow_slice_items s.0 ≡ cow_slice_items self.now.0) }
        ensures owned { IfOk result (λ s. IsOwnedSlice s.0) }
    {
        let items = CowSlice::Borrowed(self.0.as_slice()).into_owned(alloc)?;
        Ok(Seq(CowSlice::Owned(items), PhantomData))
    }
}

impl<'a, T, U> DerefSlice for Seq<'a, T, U> {
    type Elem = T;

    ghost deref_gives = { λ s items. items ≡ cow_slice_items s.0 };

    fn deref(&self) -> &[T] {
        self.0.as_slice()
    }
}

impl<'a, T, U> Default for Seq<'a, T, U> {
    ghost is_default = { λ s. cow_slice_items s.0 ≡ [] };

    fn default() -> Seq<'a, T, U> {
        Seq(CowSlice::Borrowed(&[]), PhantomData)
    }
}

impl<'de, T: MyDeserialize<'de, Ctx = ()> + Drop, U: SeqRepr> MyDeserialize<'de>
    for Seq<'de, T, U> {
    const SIZE: Option<usize> = None;

    type Size = AnySize;

    type Ctx = U::Ctx;

    type Fault = T::Fault;

    ghost View = { List T.View };

    ghost view = { λ v. map T.view (cow_slice_items v.0) };

    ghost encodes = { λ ctx. IsCountedSequence (U.counts ctx) (T.encodes tt) };

    ghost fails_with = { λ ctx. SequenceFails (U.counts ctx) (T.Fault.from_gives Eof) (λ n. ItemsFail n (T.encodes tt) (ParseFails T.Size.SIZE (T.fails_with tt) (T.Fault.from_gives Eof)) (T.Fault.from_gives Memory)) };

    fn deserialize(
        alloc: Global,
        ctx: U::Ctx,
        buf: &mut ParseBuf<'de>,
    ) -> Result<Seq<'de, T, U>, T::Fault> {
        let count = U::read_count(ctx, buf)?;
        let items = read_items(alloc, count, buf)?;
        Ok(Seq::new(CowSlice::Owned(items)))
    }

    ghost sized = { λ ctx v bytes rest h. tt };
}

impl<'a, T: Inner, U: SeqRepr> MySerialize for Seq<'a, T, U> {
    ghost View = { List T.View };

    ghost view = { λ v. map T.view (take U.MAX_LEN (cow_slice_items v.0)) };

    ghost encoding = { λ vs. IsCountedSequence (U.counts (U.context (length vs))) T.encoding vs };

    ghost encoded = { sequence_encoded U.count_encoded T.encoded };

    fn serialize<A: Allocator>(&self, buf: &mut Vec<u8, A>) -> Result<(), WireFault> {
        let start = buf.len();
        let items = &self.0[..self.0.len().min(U::MAX_LEN)];
        U::write_count(items.len(), buf)?;
        let written = write_items(items, buf);
        truncate_on_error(written, start, buf)
    }
}

impl<'a, T: Inner, U: SeqRepr> Inner for Seq<'a, T, U> {
    ghost before_any = { λ rest. tt };
}
