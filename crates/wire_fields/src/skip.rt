//! Bytes without meaning.

ghost use Rattle.std.specs.Prelude.{replicate, Some};
ghost use Rattle.wire_buf.specs.ReadErrors.{EndsBefore};
ghost use Rattle.wire_fields.specs.ByteStrings.{IsSkipped};

use crate::plain_bytes::append_zeros;
use std::alloc::{Allocator, Global};
use wire_buf::{FixedSize, Inner, MyDeserialize, MySerialize, ParseBuf, WireFault};

/// `LEN` bytes without meaning. They are skipped when read, and written as zeros.
#[derive(Clone, Copy, Debug, Default, PartialEq, Eq, Hash)]
pub struct Skip<const LEN: usize>;

impl<'de, const LEN: usize> MyDeserialize<'de> for Skip<LEN> {
    const SIZE: Option<usize> = Some(LEN);

    type Size = FixedSize<LEN>;

    type Ctx = ();

    type Fault = WireFault;

    ghost View = { Unit {0} };

    ghost view = { λ v. tt };

    ghost encodes = { λ ctx v. IsSkipped LEN };

    ghost fails_with = { λ ctx. EndsBefore LEN };

    fn deserialize(
        _alloc: Global,
        _ctx: (),
        buf: &mut ParseBuf<'de>,
    ) -> Result<Skip<LEN>, WireFault> {
        buf.skip(LEN);
        Ok(Skip)
    }

    ghost sized = { λ ctx v bytes rest h. h };
}

impl<const LEN: usize> MySerialize for Skip<LEN> {
    ghost View = { Unit {0} };

    ghost view = { λ v. tt };

    ghost encoding = { λ v. IsSkipped LEN };

    ghost encoded = { λ v. Some (replicate LEN 0) };

    #[tactic(auto, using(crate::proofs::ShortestLemmas::zeros_written))]
    fn serialize<A: Allocator>(&self, buf: &mut Vec<u8, A>) -> Result<(), WireFault> {
        append_zeros(LEN, buf)
    }
}

impl<const LEN: usize> Inner for Skip<LEN> {
    ghost before_any = { λ rest. tt };
}
