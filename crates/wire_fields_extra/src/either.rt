//! A field of one of two formats.

ghost use Rattle.std.specs.Prelude.{◌≡◌, ◌⊎◌, IfOk, IfErr};
ghost use Rattle.wire_buf.specs.Encoding.{Reads, Lacks};
ghost use Rattle.wire_fields_extra.specs.Eithers.{IsEither, IsSide, either_view, either_encoded, IsLeft, IsRight, EitherFails};
ghost use Rattle.wire_buf.specs.ReadErrors.{ParseFails};
ghost use Rattle.wire_buf.specs.declared.fault.WireFault.TheVariants.{Eof};
ghost use Rattle.wire_fields_extra.specs.declared.either.Either.{Either as Sides};
ghost use Rattle.wire_fields_extra.specs.declared.either.Either.TheVariants as side;

use std::alloc::{Allocator, Global};
use wire_buf::{Inner, MyDeserialize, MySerialize, PairSize, ParseBuf, WireFault};

/// A field that has one of two formats.
#[derive(Clone, Copy, Debug, PartialEq, Eq, Hash, Drop)]
pub enum Either<L, R> {
    /// In the first format.
    Left(L),
    /// In the second format.
    Right(R),
}

impl<L: Drop, R: Drop> Either<L, R> {
    /// Returns the left value. The value must be on the left.
    pub fn unwrap_left(self) -> L
        requires { IsLeft self }
        ensures { self ≡ side.Left result }
    {
        match self {
            Either::Left(value) => value,
            Either::Right(_) => unreachable!(),
        }
    }

    /// Returns the right value. The value must be on the right.
    pub fn unwrap_right(self) -> R
        requires { IsRight self }
        ensures { self ≡ side.Right result }
    {
        match self {
            Either::Left(_) => unreachable!(),
            Either::Right(value) => value,
        }
    }
}

/// Reads the side that the context names, in that side's context.
impl<'de, L: MyDeserialize<'de>, R: MyDeserialize<'de, Fault = L::Fault>> MyDeserialize<'de>
    for Either<L, R> {
    const SIZE: Option<usize> = None;

    type Size = PairSize<L::Size, R::Size>;

    type Ctx = Either<L::Ctx, R::Ctx>;

    type Fault = L::Fault;

    ghost View = { Sides L.View R.View };

    ghost view = { either_view L.view R.view };

    ghost encodes = { IsEither L.encodes R.encodes };

    ghost fails_with = { EitherFails
        (λ c. ParseFails L.Size.SIZE (L.fails_with c) (L.Fault.from_gives Eof))
        (λ d. ParseFails R.Size.SIZE (R.fails_with d) (L.Fault.from_gives Eof)) };

    fn deserialize(
        alloc: Global,
        ctx: Either<L::Ctx, R::Ctx>,
        buf: &mut ParseBuf<'de>,
    ) -> Result<Either<L, R>, L::Fault> {
        match ctx {
            Either::Left(ctx) => {
                let value = buf.parse::<L>(alloc, ctx)?;
                Ok(Either::Left(value))
            }
            Either::Right(ctx) => {
                let value = buf.parse::<R>(alloc, ctx)?;
                Ok(Either::Right(value))
            }
        }
    }

    ghost sized = { λ ctx v bytes rest h. tt };
}

impl<L: MySerialize, R: MySerialize> MySerialize for Either<L, R> {
    ghost View = { Sides L.View R.View };

    ghost view = { either_view L.view R.view };

    ghost encoding = { IsSide L.encoding R.encoding };

    ghost encoded = { either_encoded L.encoded R.encoded };

    ghost allows_rest = { λ rest. L.allows_rest rest × R.allows_rest rest };

    fn serialize<A: Allocator>(&self, buf: &mut Vec<u8, A>) -> Result<(), WireFault> {
        match self {
            Either::Left(value) => value.serialize(buf),
            Either::Right(value) => value.serialize(buf),
        }
    }
}

impl<L: Inner, R: Inner> Inner for Either<L, R> {
    ghost before_any = { λ rest. (L.before_any rest, R.before_any rest) };
}
