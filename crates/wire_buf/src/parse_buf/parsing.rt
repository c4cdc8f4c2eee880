//! Reads whole values of any type that implements `MyDeserialize`.

ghost use Rattle.std.specs.Prelude.{◌⊎◌, length, IfOk, IfErr, IsErrAnd};
ghost use Rattle.wire_buf.specs.Encoding.{Reads, Lacks, HasRoom, IfShort, EatsSize};
ghost use Rattle.wire_buf.specs.ReadErrors.{ParseFails};
ghost use Rattle.wire_buf.specs.declared.fault.WireFault.TheVariants.{Eof};

use super::ParseBuf;
use crate::fault::WireFault;
use crate::traits::{MyDeserialize, WireSize};
use std::alloc::Global;

impl<'a> ParseBuf<'a> {
    /// Reads a value. If its type has a `SIZE`, at least so many bytes must remain.
    pub fn parse_unchecked<T: MyDeserialize<'a>>(
        &mut self,
        alloc: Global,
        ctx: T::Ctx,
    ) -> Result<T, T::Fault>
        requires { HasRoom T.Size.SIZE (length self.old.0.now) }
        ensures ok { IfOk result
            (λ v. Reads (T.encodes ctx) (T.view v) self.old.0.now self.new.0.now) }
        ensures err { IfErr result (λ e. T.Fault.is_memory e ⊎ Lacks (T.encodes ctx) self.old.0.now) }
        ensures why { IfErr result (λ e. T.fails_with ctx self.old.0.now e) }
    {
        T::deserialize(alloc, ctx, self)
    }

    /// Reads a value. If its type has a `SIZE`, exactly so many bytes are taken, even at an error; if fewer
    /// remain, none is taken and the error is `Eof`.
    pub fn parse<T: MyDeserialize<'a>>(&mut self, alloc: Global, ctx: T::Ctx) -> Result<T, T::Fault>
        ensures ok { IfOk result
            (λ v. Reads (T.encodes ctx) (T.view v) self.old.0.now self.new.0.now) }
        ensures err { IfErr result (λ e. T.Fault.is_memory e ⊎ Lacks (T.encodes ctx) self.old.0.now) }
        ensures why { IfErr result (ParseFails T.Size.SIZE (T.fails_with ctx)
            (T.Fault.from_gives Eof) self.old.0.now) }
        ensures short { IfShort T.Size.SIZE (length self.old.0.now)
            (IsErrAnd result (λ e. T.Fault.from_gives Eof e)) }
        ensures sized { EatsSize T.Size.SIZE self.old.0.now self.new.0.now }
    {
        let Some(size) = <T::Size as WireSize>::SIZE else {
            return T::deserialize(alloc, ctx, self);
        };
        if self.0.len() < size {
            return Err(T::Fault::from(WireFault::Eof));
        }
        let rest = &self.0[size..];
        let value = T::deserialize(alloc, ctx, self);
        self.0 = rest;
        value
    }
}
