//! A field after a field, and a field by reference.

ghost use Rattle.std.specs.Prelude.{None};
ghost use Rattle.wire_buf.specs.Encoding.{Both, both};
ghost use Rattle.wire_buf.specs.Writing.{both_encoded};
ghost use Rattle.wire_buf.specs.ReadErrors.{PairFails, ParseFails};
ghost use Rattle.wire_buf.specs.declared.fault.WireFault.TheVariants.{Eof};

use crate::fault::WireFault;
use crate::parse_buf::ParseBuf;
use crate::traits::{Inner, MyDeserialize, MySerialize, WireSize};
use crate::undo::truncate_on_error;
use std::alloc::{Allocator, Global};
use std::marker::PhantomData;

/// The size of a pair: not given, even if both fields have one.
pub struct PairSize<A, B>(PhantomData<A>, PhantomData<B>);

impl<A, B> WireSize for PairSize<A, B> {
    const SIZE: Option<usize> = None;

    ghost SIZE = { None };
}

/// Reads the first field, then the second, each in its context.
impl<'de, A: MyDeserialize<'de> + Drop, B: MyDeserialize<'de, Fault = A::Fault>> MyDeserialize<'de>
    for (A, B) {
    const SIZE: Option<usize> = None;

    type Size = PairSize<A::Size, B::Size>;

    type Ctx = (A::Ctx, B::Ctx);

    type Fault = A::Fault;

    ghost View = { A.View × B.View };

    ghost view = { both A.view B.view };

    ghost encodes = { λ ctx. Both (A.encodes ctx.0) (B.encodes ctx.1) };

    ghost fails_with = { λ ctx. PairFails (A.encodes ctx.0)
        (ParseFails A.Size.SIZE (A.fails_with ctx.0) (A.Fault.from_gives Eof))
        (ParseFails B.Size.SIZE (B.fails_with ctx.1) (A.Fault.from_gives Eof)) };

    fn deserialize(
        alloc: Global,
        ctx: (A::Ctx, B::Ctx),
        buf: &mut ParseBuf<'de>,
    ) -> Result<(A, B), A::Fault> {
        let (first_ctx, second_ctx) = ctx;
        let first = buf.parse::<A>(alloc, first_ctx)?;
        let second = buf.parse::<B>(alloc, second_ctx)?;
        Ok((first, second))
    }

    ghost sized = { λ ctx v bytes rest h. tt };
}

/// Writes the first field, then the second; nothing if one of them returns an error.
impl<A: Inner, B: MySerialize> MySerialize for (A, B) {
    ghost View = { A.View × B.View };

    ghost view = { both A.view B.view };

    ghost encoding = { Both A.encoding B.encoding };

    ghost encoded = { both_encoded A.encoded B.encoded };

    ghost allows_rest = { B.allows_rest };

    fn serialize<M: Allocator>(&self, buf: &mut Vec<u8, M>) -> Result<(), WireFault> {
        let start = buf.len();
        self.0.serialize(buf)?;
        let written = self.1.serialize(buf);
        truncate_on_error(written, start, buf)
    }
}

impl<A: Inner, B: Inner> Inner for (A, B) {
    ghost before_any = { B.before_any };
}

impl<T: MySerialize> MySerialize for &T {
    ghost View = { T.View };

    ghost view = { λ v. T.view v.now };

    ghost encoding = { T.encoding };

    ghost encoded = { T.encoded };

    ghost allows_rest = { T.allows_rest };

    fn serialize<M: Allocator>(&self, buf: &mut Vec<u8, M>) -> Result<(), WireFault> {
        (**self).serialize(buf)
    }
}

impl<T: Inner> Inner for &T {
    ghost before_any = { T.before_any };
}
