//! Zero, copies, and the packed size of a decimal.

ghost use Rattle.std.specs.Prelude.{◌≡◌, IfOk, length};
ghost use Rattle.rows_values.specs.Decimals.{decimal_parts, zero_value, packed_encoding};

use crate::digits::side_size;
use crate::fields::Decimal;
use std::alloc::{AllocError, Global};

impl Decimal {
    /// Returns zero: one digit, no sign. The error is out of memory.
    pub fn zero(alloc: Global) -> Result<Decimal, AllocError>
        ensures { IfOk result (λ d. decimal_parts d ≡ zero_value) }
    {
        let before = vec![in alloc; 0]?;
        let after = Vec::new(alloc);
        Ok(Decimal {
            negative: false,
            before,
            after,
        })
    }

    /// Returns an owned copy. The error is out of memory.
    pub fn clone(&self, alloc: Global) -> Result<Decimal, AllocError>
        ensures { IfOk result (λ d. decimal_parts d ≡ decimal_parts self.now) }
    {
        Ok(Decimal {
            negative: self.negative,
            before: Vec::from_slice(alloc, &self.before)?,
            after: Vec::from_slice(alloc, &self.after)?,
        })
    }

    /// Returns the number of bytes of the packed format.
    pub fn bin_size(&self) -> usize
        ensures { result ≡ length (packed_encoding (decimal_parts self.now)) }
    {
        side_size(self.before.len()) + side_size(self.after.len())
    }
}
