//! The remaining bytes of a source, and the calls that read from their start.

ghost use Rattle.std.specs.Prelude.{◌≡◌, ◌≤◌, ◌<◌, ◌↔◌, [], length, take, drop, IfSome, IfNone, IsTrue, slice_index};
ghost use Rattle.wire_buf.specs.Numbers.{little_signed};
ghost use Rattle.wire_buf.specs.Eating.{Eats, IsShort};

mod big_endian;
mod lenenc;
mod little_endian;
mod parsing;
mod reading;
mod strings;

/// The remaining bytes of a source. Every slice and buffer that it returns is a part of that source.
///
/// A call `eat_..` requires that its bytes are there and well-formed (`eat_all` and `eat_null_str` take any
/// bytes). Its `checked_eat_..` returns None if they aren't, and then leaves the buffer unchanged.
#[derive(Clone, Copy, Debug, PartialEq, Eq, Hash)]
pub struct ParseBuf<'a>(pub &'a [u8]);

impl<'a> ParseBuf<'a> {
    /// Returns whether no byte remains.
    pub fn is_empty(&self) -> bool
        ensures { IsTrue result ↔ (self.now.0.now ≡ []) }
    {
        self.0.is_empty()
    }

    /// Returns the number of remaining bytes.
    pub fn len(&self) -> usize
        ensures { result ≡ length self.now.0.now }
    {
        self.0.len()
    }

    /// Skips the next `n` bytes.
    pub fn skip(&mut self, n: usize)
        requires { n ≤ length self.old.0.now }
        ensures { self.new.0.now ≡ drop n self.old.0.now }
    {
        self.0 = &self.0[n..];
    }

    /// Skips the next `n` bytes and returns true, or returns false if fewer remain.
    pub fn checked_skip(&mut self, n: usize) -> bool
        ensures room { IsTrue result ↔ (n ≤ length self.old.0.now) }
        ensures skipped { IsTrue result → self.new.0.now ≡ drop n self.old.0.now }
        ensures short { length self.old.0.now < n → self.new.0.now ≡ self.old.0.now }
    {
        if self.0.len() < n {
            return false;
        }
        self.skip(n);
        true
    }

    /// Returns the next `n` bytes.
    pub fn eat(&mut self, n: usize) -> &'a [u8]
        requires { n ≤ length self.old.0.now }
        ensures value { result.now ≡ take n self.old.0.now }
        ensures rest { self.new.0.now ≡ drop n self.old.0.now }
    {
        let (prefix, rest) = self.0.split_at(n);
        self.0 = rest;
        prefix
    }

    /// Returns the next `n` bytes, or None if fewer remain.
    pub fn checked_eat(&mut self, n: usize) -> Option<&'a [u8]>
        ensures some { IfSome result (λ s. Eats (take n) n s.now self.old.0.now self.new.0.now) }
        ensures none { IfNone result (IsShort n self.old.0.now self.new.0.now) }
    {
        if self.0.len() < n {
            return None;
        }
        Some(self.eat(n))
    }

    /// Returns the next `n` bytes as a buffer.
    pub fn eat_buf(&mut self, n: usize) -> ParseBuf<'a>
        requires { n ≤ length self.old.0.now }
        ensures value { result.0.now ≡ take n self.old.0.now }
        ensures rest { self.new.0.now ≡ drop n self.old.0.now }
    {
        ParseBuf(self.eat(n))
    }

    /// Returns the next `n` bytes as a buffer, or None if fewer remain.
    pub fn checked_eat_buf(&mut self, n: usize) -> Option<ParseBuf<'a>>
        ensures some { IfSome result (λ b. Eats (take n) n b.0.now self.old.0.now self.new.0.now) }
        ensures none { IfNone result (IsShort n self.old.0.now self.new.0.now) }
    {
        let bytes = self.checked_eat(n)?;
        Some(ParseBuf(bytes))
    }

    /// Returns all remaining bytes.
    pub fn eat_all(&mut self) -> &'a [u8]
        ensures value { result.now ≡ self.old.0.now }
        ensures rest { self.new.0.now ≡ [] }
    {
        let bytes = self.0;
        self.0 = &[];
        bytes
    }

    /// Reads an unsigned 1-byte integer.
    pub fn eat_u8(&mut self) -> u8
        requires { 1 ≤ length self.old.0.now }
        ensures value { result ≡ slice_index self.old.0.now 0 }
        ensures rest { self.new.0.now ≡ drop 1 self.old.0.now }
    {
        let value = self.0[0];
        self.0 = &self.0[1..];
        value
    }

    /// Reads an unsigned 1-byte integer, or returns None if no byte remains.
    pub fn checked_eat_u8(&mut self) -> Option<u8>
        ensures some { IfSome result
            (λ v. Eats (λ x. slice_index x 0) 1 v self.old.0.now self.new.0.now) }
        ensures none { IfNone result (IsShort 1 self.old.0.now self.new.0.now) }
    {
        if self.0.is_empty() {
            return None;
        }
        Some(self.eat_u8())
    }

    /// Reads a signed 1-byte integer.
    pub fn eat_i8(&mut self) -> i8
        requires { 1 ≤ length self.old.0.now }
        ensures value { result ≡ little_signed 1 self.old.0.now }
        ensures rest { self.new.0.now ≡ drop 1 self.old.0.now }
    {
        self.eat_u8().cast_signed()
    }

    /// Reads a signed 1-byte integer, or returns None if no byte remains.
    pub fn checked_eat_i8(&mut self) -> Option<i8>
        ensures some { IfSome result
            (λ v. Eats (little_signed 1) 1 v self.old.0.now self.new.0.now) }
        ensures none { IfNone result (IsShort 1 self.old.0.now self.new.0.now) }
    {
        if self.0.is_empty() {
            return None;
        }
        Some(self.eat_i8())
    }
}
