//! The encodings of an element count. A count before the elements is at most the largest number of its width.

ghost use Rattle.std.specs.Prelude.{◌≡◌, ◌^◌, ◌-◌, []};
ghost use Rattle.std.proofs.Common.{refl, sym};
ghost use Rattle.byteorder.specs.Endian.{little_bytes};
ghost use Rattle.wire_buf.specs.Numbers.{IsLittle};
ghost use Rattle.wire_fields_extra.specs.Counts.{IsCount, max_count_of};

use crate::seq_repr::SeqRepr;
use byteorder::ByteOrder;
use std::alloc::Allocator;
use wire_buf::{ParseBuf, WireFault};
use wire_fields::{Fixed, InBytes, Unsigned};

/// No count is written: the context gives the number of elements.
pub struct Unknown;

impl SeqRepr for Unknown {
    const MAX_LEN: usize = usize::MAX;

    ghost MAX_LEN = { 2 ^ 64 - 1 };

    type Ctx = usize;

    ghost counts = { λ ctx count bytes. (count ≡ ctx) × (bytes ≡ []) };

    ghost count_encoded = { λ count. [] };

    ghost context = { λ count. count };

    fn read_count(ctx: usize, _buf: &mut ParseBuf<'_>) -> Result<usize, WireFault> {
        Ok(ctx)
    }

    fn write_count<A: Allocator>(_count: usize, _buf: &mut Vec<u8, A>) -> Result<(), WireFault> {
        Ok(())
    }

    ghost one_context = { λ ctx count bytes h. sym h.0 };
}

/// A count in one byte.
impl SeqRepr for u8 {
    const MAX_LEN: usize = 255;

    ghost MAX_LEN = { 256 ^ 1 - 1 };

    type Ctx = ();

    ghost counts = { λ ctx. IsLittle 1 };

    ghost count_encoded = { little_bytes 1 };

    ghost context = { λ count. tt };

    fn read_count(_ctx: (), buf: &mut ParseBuf<'_>) -> Result<usize, WireFault> {
        let Some(count) = buf.checked_eat_u8() else {
            return Err(WireFault::Eof);
        };
        Ok(usize::from(count))
    }

    fn write_count<A: Allocator>(count: usize, buf: &mut Vec<u8, A>) -> Result<(), WireFault> {
        buf.extend_from_slice(&count.to_le_bytes()[..1])?;
        Ok(())
    }

    ghost one_context = { λ ctx count bytes h. refl };
}

/// Returns the largest count in `size` bytes, or the largest length if `size` is 8 or more.
const fn max_count(size: usize) -> usize
    ensures { result ≡ max_count_of size }
{
    if size < 8 {
        (1usize << (8 * size)) - 1
    } else {
        usize::MAX
    }
}

/// A count in `N` bytes of byte order `O`. If `N` is more than eight, a number of more than 64 bits is no
/// count.
impl<P: Unsigned + InBytes<N>, O: ByteOrder, const N: usize> SeqRepr for Fixed<P, O, N> {
    const MAX_LEN: usize = max_count(N);

    ghost MAX_LEN = { max_count_of N };

    type Ctx = ();

    ghost counts = { λ ctx. IsCount (O.number_of N) N };

    ghost count_encoded = { O.bytes_of N };

    ghost context = { λ count. tt };

    fn read_count(_ctx: (), buf: &mut ParseBuf<'_>) -> Result<usize, WireFault> {
        if buf.len() < N {
            return Err(WireFault::Eof);
        }
        let count = O::read_uint128(buf.0, N);
        if count >= 1u128 << 64 {
            return Err(WireFault::Eof);
        }
        buf.skip(N);
        Ok(count as usize)
    }

    fn write_count<A: Allocator>(count: usize, buf: &mut Vec<u8, A>) -> Result<(), WireFault> {
        let mut bytes = [0u8; N];
        O::write_uint128(&mut bytes, count as u128, N);
        buf.extend_from_slice(&bytes)?;
        Ok(())
    }

    ghost one_context = { λ ctx count bytes h. refl };
}
