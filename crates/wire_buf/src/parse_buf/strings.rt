//! Strings with a length prefix, and strings that a zero byte ends.

ghost use Rattle.std.specs.Prelude.{◌≡◌, IfSome, IfNone};
ghost use Rattle.wire_buf.specs.Encoding.{Reads, Lacks, BeginsWith, Alone};
ghost use Rattle.wire_buf.specs.Numbers.{IsLenencString, IsShortString, IsLongString};
ghost use Rattle.wire_buf.specs.Eating.{TakesToZero};

use super::ParseBuf;
use memchr::memchr;

impl<'a> ParseBuf<'a> {
    /// Reads a length-encoded string. The buffer must begin with one.
    pub fn eat_lenenc_str(&mut self) -> &'a [u8]
        requires { BeginsWith (Alone IsLenencString) self.old.0.now }
        ensures { Reads (Alone IsLenencString) result.now self.old.0.now self.new.0.now }
    {
        self.checked_eat_lenenc_str().unwrap()
    }

    /// Reads a length-encoded string (its length as a length-encoded integer, then its bytes), or returns
    /// None if bytes are missing or the length is ill-formed.
    pub fn checked_eat_lenenc_str(&mut self) -> Option<&'a [u8]>
        ensures some { IfSome result
            (λ s. Reads (Alone IsLenencString) s.now self.old.0.now self.new.0.now) }
        ensures none { IfNone result
            (Lacks (Alone IsLenencString) self.old.0.now × (self.new.0.now ≡ self.old.0.now)) }
    {
        let mut rest = *self;
        let length = rest.checked_eat_lenenc_int()?;
        let bytes = rest.checked_eat(length as usize)?;
        *self = rest;
        Some(bytes)
    }

    /// Reads a string whose length is its first byte. The buffer must begin with one.
    pub fn eat_u8_str(&mut self) -> &'a [u8]
        requires { BeginsWith (Alone IsShortString) self.old.0.now }
        ensures { Reads (Alone IsShortString) result.now self.old.0.now self.new.0.now }
    {
        self.checked_eat_u8_str().unwrap()
    }

    /// Reads a string whose length is its first byte, or returns None if bytes are missing.
    pub fn checked_eat_u8_str(&mut self) -> Option<&'a [u8]>
        ensures some { IfSome result
            (λ s. Reads (Alone IsShortString) s.now self.old.0.now self.new.0.now) }
        ensures none { IfNone result
            (Lacks (Alone IsShortString) self.old.0.now × (self.new.0.now ≡ self.old.0.now)) }
    {
        let mut rest = *self;
        let length = rest.checked_eat_u8()?;
        let bytes = rest.checked_eat(usize::from(length))?;
        *self = rest;
        Some(bytes)
    }

    /// Reads a string with a 4-byte little-endian length before it. The buffer must begin with one.
    pub fn eat_u32_str(&mut self) -> &'a [u8]
        requires { BeginsWith (Alone IsLongString) self.old.0.now }
        ensures { Reads (Alone IsLongString) result.now self.old.0.now self.new.0.now }
    {
        self.checked_eat_u32_str().unwrap()
    }

    /// Reads a string with a 4-byte little-endian length before it, or returns None if bytes are missing.
    pub fn checked_eat_u32_str(&mut self) -> Option<&'a [u8]>
        ensures some { IfSome result
            (λ s. Reads (Alone IsLongString) s.now self.old.0.now self.new.0.now) }
        ensures none { IfNone result
            (Lacks (Alone IsLongString) self.old.0.now × (self.new.0.now ≡ self.old.0.now)) }
    {
        let mut rest = *self;
        let length = rest.checked_eat_u32_le()?;
        let bytes = rest.checked_eat(length as usize)?;
        *self = rest;
        Some(bytes)
    }

    /// Returns the bytes before the first zero byte, which is skipped; all remaining bytes if there is no
    /// zero.
    pub fn eat_null_str(&mut self) -> &'a [u8]
        ensures { TakesToZero result.now self.old.0.now self.new.0.now }
    {
        match memchr(0, self.0) {
            Some(at) => {
                let bytes = self.eat(at);
                self.skip(1);
                bytes
            }
            None => self.eat_all(),
        }
    }
}
