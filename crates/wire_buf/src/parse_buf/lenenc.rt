//! Length-encoded integers.

ghost use Rattle.std.specs.Prelude.{◌≡◌, IfSome, IfNone};
ghost use Rattle.wire_buf.specs.Encoding.{Reads, Lacks, BeginsWith, Alone};
ghost use Rattle.wire_buf.specs.Numbers.{IsLenenc};

use super::ParseBuf;
use wire_lenenc::split_lenenc_int;

impl<'a> ParseBuf<'a> {
    /// Reads a length-encoded integer. The buffer must begin with one.
    pub fn eat_lenenc_int(&mut self) -> u64
        requires { BeginsWith (Alone IsLenenc) self.old.0.now }
        ensures { Reads (Alone IsLenenc) result self.old.0.now self.new.0.now }
    {
        self.checked_eat_lenenc_int().unwrap()
    }

    /// Reads a length-encoded integer, or returns None if bytes are missing or the first is 251 or 255. An
    /// encoding longer than needed is accepted.
    ///
    /// MySQL's manual: Protocol::LengthEncodedInteger.
    pub fn checked_eat_lenenc_int(&mut self) -> Option<u64>
        ensures some { IfSome result
            (λ v. Reads (Alone IsLenenc) v self.old.0.now self.new.0.now) }
        ensures none { IfNone result
            (Lacks (Alone IsLenenc) self.old.0.now × (self.new.0.now ≡ self.old.0.now)) }
    {
        let (value, rest) = split_lenenc_int(self.0)?;
        self.0 = rest;
        Some(value)
    }
}
