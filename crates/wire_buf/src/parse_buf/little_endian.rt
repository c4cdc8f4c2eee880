//! Little-endian integers of 2 to 8 and 16 bytes.

ghost use Rattle.std.specs.Prelude.{◌≡◌, ◌≤◌, length, drop, IfSome, IfNone};
ghost use Rattle.byteorder.specs.Endian.{little_number};
ghost use Rattle.wire_buf.specs.Eating.{Eats, IsShort};
ghost use Rattle.wire_buf.specs.Numbers.{little_signed};

use super::ParseBuf;
use byteorder::{ByteOrder, LittleEndian};

impl ParseBuf<'_> {
    /// Reads an unsigned 2-byte little-endian integer.
    pub fn eat_u16_le(&mut self) -> u16
        requires { 2 ≤ length self.old.0.now }
        ensures value { result ≡ little_number 2 self.old.0.now }
        ensures rest { self.new.0.now ≡ drop 2 self.old.0.now }
    {
        let value = LittleEndian::read_u16(self.0);
        self.0 = &self.0[2..];
        value
    }

    /// Reads an unsigned 2-byte little-endian integer, or returns None if fewer bytes remain.
    pub fn checked_eat_u16_le(&mut self) -> Option<u16>
        ensures some { IfSome result
            (λ v. Eats (little_number 2) 2 v self.old.0.now self.new.0.now) }
        ensures none { IfNone result (IsShort 2 self.old.0.now self.new.0.now) }
    {
        if self.0.len() < 2 {
            return None;
        }
        Some(self.eat_u16_le())
    }

    /// Reads a signed 2-byte little-endian integer.
    pub fn eat_i16_le(&mut self) -> i16
        requires { 2 ≤ length self.old.0.now }
        ensures value { result ≡ little_signed 2 self.old.0.now }
        ensures rest { self.new.0.now ≡ drop 2 self.old.0.now }
    {
        self.eat_u16_le().cast_signed()
    }

    /// Reads a signed 2-byte little-endian integer, or returns None if fewer bytes remain.
    pub fn checked_eat_i16_le(&mut self) -> Option<i16>
        ensures some { IfSome result
            (λ v. Eats (little_signed 2) 2 v self.old.0.now self.new.0.now) }
        ensures none { IfNone result (IsShort 2 self.old.0.now self.new.0.now) }
    {
        if self.0.len() < 2 {
            return None;
        }
        Some(self.eat_i16_le())
    }

    /// Reads an unsigned 3-byte little-endian integer.
    pub fn eat_u24_le(&mut self) -> u32
        requires { 3 ≤ length self.old.0.now }
        ensures value { result ≡ little_number 3 self.old.0.now }
        ensures rest { self.new.0.now ≡ drop 3 self.old.0.now }
    {
        let value = LittleEndian::read_u24(self.0);
        self.0 = &self.0[3..];
        value
    }

    /// Reads an unsigned 3-byte little-endian integer, or returns None if fewer bytes remain.
    pub fn checked_eat_u24_le(&mut self) -> Option<u32>
        ensures some { IfSome result
            (λ v. Eats (little_number 3) 3 v self.old.0.now self.new.0.now) }
        ensures none { IfNone result (IsShort 3 self.old.0.now self.new.0.now) }
    {
        if self.0.len() < 3 {
            return None;
        }
        Some(self.eat_u24_le())
    }

    /// Reads a signed 3-byte little-endian integer.
    pub fn eat_i24_le(&mut self) -> i32
        requires { 3 ≤ length self.old.0.now }
        ensures value { result ≡ little_signed 3 self.old.0.now }
        ensures rest { self.new.0.now ≡ drop 3 self.old.0.now }
    {
        let value = LittleEndian::read_i24(self.0);
        self.0 = &self.0[3..];
        value
    }

    /// Reads a signed 3-byte little-endian integer, or returns None if fewer bytes remain.
    pub fn checked_eat_i24_le(&mut self) -> Option<i32>
        ensures some { IfSome result
            (λ v. Eats (little_signed 3) 3 v self.old.0.now self.new.0.now) }
        ensures none { IfNone result (IsShort 3 self.old.0.now self.new.0.now) }
    {
        if self.0.len() < 3 {
            return None;
        }
        Some(self.eat_i24_le())
    }

    /// Reads an unsigned 4-byte little-endian integer.
    pub fn eat_u32_le(&mut self) -> u32
        requires { 4 ≤ length self.old.0.now }
        ensures value { result ≡ little_number 4 self.old.0.now }
        ensures rest { self.new.0.now ≡ drop 4 self.old.0.now }
    {
        let value = LittleEndian::read_u32(self.0);
        self.0 = &self.0[4..];
        value
    }

    /// Reads an unsigned 4-byte little-endian integer, or returns None if fewer bytes remain.
    pub fn checked_eat_u32_le(&mut self) -> Option<u32>
        ensures some { IfSome result
            (λ v. Eats (little_number 4) 4 v self.old.0.now self.new.0.now) }
        ensures none { IfNone result (IsShort 4 self.old.0.now self.new.0.now) }
    {
        if self.0.len() < 4 {
            return None;
        }
        Some(self.eat_u32_le())
    }

    /// Reads a signed 4-byte little-endian integer.
    pub fn eat_i32_le(&mut self) -> i32
        requires { 4 ≤ length self.old.0.now }
        ensures value { result ≡ little_signed 4 self.old.0.now }
        ensures rest { self.new.0.now ≡ drop 4 self.old.0.now }
    {
        self.eat_u32_le().cast_signed()
    }

    /// Reads a signed 4-byte little-endian integer, or returns None if fewer bytes remain.
    pub fn checked_eat_i32_le(&mut self) -> Option<i32>
        ensures some { IfSome result
            (λ v. Eats (little_signed 4) 4 v self.old.0.now self.new.0.now) }
        ensures none { IfNone result (IsShort 4 self.old.0.now self.new.0.now) }
    {
        if self.0.len() < 4 {
            return None;
        }
        Some(self.eat_i32_le())
    }

    /// Reads an unsigned 5-byte little-endian integer.
    pub fn eat_u40_le(&mut self) -> u64
        requires { 5 ≤ length self.old.0.now }
        ensures value { result ≡ little_number 5 self.old.0.now }
        ensures rest { self.new.0.now ≡ drop 5 self.old.0.now }
    {
        let value = LittleEndian::read_uint(self.0, 5);
        self.0 = &self.0[5..];
        value
    }

    /// Reads an unsigned 5-byte little-endian integer, or returns None if fewer bytes remain.
    pub fn checked_eat_u40_le(&mut self) -> Option<u64>
        ensures some { IfSome result
            (λ v. Eats (little_number 5) 5 v self.old.0.now self.new.0.now) }
        ensures none { IfNone result (IsShort 5 self.old.0.now self.new.0.now) }
    {
        if self.0.len() < 5 {
            return None;
        }
        Some(self.eat_u40_le())
    }

    /// Reads a signed 5-byte little-endian integer.
    pub fn eat_i40_le(&mut self) -> i64
        requires { 5 ≤ length self.old.0.now }
        ensures value { result ≡ little_signed 5 self.old.0.now }
        ensures rest { self.new.0.now ≡ drop 5 self.old.0.now }
    {
        let value = LittleEndian::read_int(self.0, 5);
        self.0 = &self.0[5..];
        value
    }

    /// Reads a signed 5-byte little-endian integer, or returns None if fewer bytes remain.
    pub fn checked_eat_i40_le(&mut self) -> Option<i64>
        ensures some { IfSome result
            (λ v. Eats (little_signed 5) 5 v self.old.0.now self.new.0.now) }
        ensures none { IfNone result (IsShort 5 self.old.0.now self.new.0.now) }
    {
        if self.0.len() < 5 {
            return None;
        }
        Some(self.eat_i40_le())
    }

    /// Reads an unsigned 6-byte little-endian integer.
    pub fn eat_u48_le(&mut self) -> u64
        requires { 6 ≤ length self.old.0.now }
        ensures value { result ≡ little_number 6 self.old.0.now }
        ensures rest { self.new.0.now ≡ drop 6 self.old.0.now }
    {
        let value = LittleEndian::read_u48(self.0);
        self.0 = &self.0[6..];
        value
    }

    /// Reads an unsigned 6-byte little-endian integer, or returns None if fewer bytes remain.
    pub fn checked_eat_u48_le(&mut self) -> Option<u64>
        ensures some { IfSome result
            (λ v. Eats (little_number 6) 6 v self.old.0.now self.new.0.now) }
        ensures none { IfNone result (IsShort 6 self.old.0.now self.new.0.now) }
    {
        if self.0.len() < 6 {
            return None;
        }
        Some(self.eat_u48_le())
    }

    /// Reads a signed 6-byte little-endian integer.
    pub fn eat_i48_le(&mut self) -> i64
        requires { 6 ≤ length self.old.0.now }
        ensures value { result ≡ little_signed 6 self.old.0.now }
        ensures rest { self.new.0.now ≡ drop 6 self.old.0.now }
    {
        let value = LittleEndian::read_i48(self.0);
        self.0 = &self.0[6..];
        value
    }

    /// Reads a signed 6-byte little-endian integer, or returns None if fewer bytes remain.
    pub fn checked_eat_i48_le(&mut self) -> Option<i64>
        ensures some { IfSome result
            (λ v. Eats (little_signed 6) 6 v self.old.0.now self.new.0.now) }
        ensures none { IfNone result (IsShort 6 self.old.0.now self.new.0.now) }
    {
        if self.0.len() < 6 {
            return None;
        }
        Some(self.eat_i48_le())
    }

    /// Reads an unsigned 7-byte little-endian integer.
    pub fn eat_u56_le(&mut self) -> u64
        requires { 7 ≤ length self.old.0.now }
        ensures value { result ≡ little_number 7 self.old.0.now }
        ensures rest { self.new.0.now ≡ drop 7 self.old.0.now }
    {
        let value = LittleEndian::read_uint(self.0, 7);
        self.0 = &self.0[7..];
        value
    }

    /// Reads an unsigned 7-byte little-endian integer, or returns None if fewer bytes remain.
    pub fn checked_eat_u56_le(&mut self) -> Option<u64>
        ensures some { IfSome result
            (λ v. Eats (little_number 7) 7 v self.old.0.now self.new.0.now) }
        ensures none { IfNone result (IsShort 7 self.old.0.now self.new.0.now) }
    {
        if self.0.len() < 7 {
            return None;
        }
        Some(self.eat_u56_le())
    }

    /// Reads a signed 7-byte little-endian integer.
    pub fn eat_i56_le(&mut self) -> i64
        requires { 7 ≤ length self.old.0.now }
        ensures value { result ≡ little_signed 7 self.old.0.now }
        ensures rest { self.new.0.now ≡ drop 7 self.old.0.now }
    {
        let value = LittleEndian::read_int(self.0, 7);
        self.0 = &self.0[7..];
        value
    }

    /// Reads a signed 7-byte little-endian integer, or returns None if fewer bytes remain.
    pub fn checked_eat_i56_le(&mut self) -> Option<i64>
        ensures some { IfSome result
            (λ v. Eats (little_signed 7) 7 v self.old.0.now self.new.0.now) }
        ensures none { IfNone result (IsShort 7 self.old.0.now self.new.0.now) }
    {
        if self.0.len() < 7 {
            return None;
        }
        Some(self.eat_i56_le())
    }

    /// Reads an unsigned 8-byte little-endian integer.
    pub fn eat_u64_le(&mut self) -> u64
        requires { 8 ≤ length self.old.0.now }
        ensures value { result ≡ little_number 8 self.old.0.now }
        ensures rest { self.new.0.now ≡ drop 8 self.old.0.now }
    {
        let value = LittleEndian::read_u64(self.0);
        self.0 = &self.0[8..];
        value
    }

    /// Reads an unsigned 8-byte little-endian integer, or returns None if fewer bytes remain.
    pub fn checked_eat_u64_le(&mut self) -> Option<u64>
        ensures some { IfSome result
            (λ v. Eats (little_number 8) 8 v self.old.0.now self.new.0.now) }
        ensures none { IfNone result (IsShort 8 self.old.0.now self.new.0.now) }
    {
        if self.0.len() < 8 {
            return None;
        }
        Some(self.eat_u64_le())
    }

    /// Reads a signed 8-byte little-endian integer.
    pub fn eat_i64_le(&mut self) -> i64
        requires { 8 ≤ length self.old.0.now }
        ensures value { result ≡ little_signed 8 self.old.0.now }
        ensures rest { self.new.0.now ≡ drop 8 self.old.0.now }
    {
        self.eat_u64_le().cast_signed()
    }

    /// Reads a signed 8-byte little-endian integer, or returns None if fewer bytes remain.
    pub fn checked_eat_i64_le(&mut self) -> Option<i64>
        ensures some { IfSome result
            (λ v. Eats (little_signed 8) 8 v self.old.0.now self.new.0.now) }
        ensures none { IfNone result (IsShort 8 self.old.0.now self.new.0.now) }
    {
        if self.0.len() < 8 {
            return None;
        }
        Some(self.eat_i64_le())
    }

    /// Reads an unsigned 16-byte little-endian integer.
    pub fn eat_u128_le(&mut self) -> u128
        requires { 16 ≤ length self.old.0.now }
        ensures value { result ≡ little_number 16 self.old.0.now }
        ensures rest { self.new.0.now ≡ drop 16 self.old.0.now }
    {
        let value = LittleEndian::read_u128(self.0);
        self.0 = &self.0[16..];
        value
    }

    /// Reads an unsigned 16-byte little-endian integer, or returns None if fewer bytes remain.
    pub fn checked_eat_u128_le(&mut self) -> Option<u128>
        ensures some { IfSome result
            (λ v. Eats (little_number 16) 16 v self.old.0.now self.new.0.now) }
        ensures none { IfNone result (IsShort 16 self.old.0.now self.new.0.now) }
    {
        if self.0.len() < 16 {
            return None;
        }
        Some(self.eat_u128_le())
    }

    /// Reads a signed 16-byte little-endian integer.
    pub fn eat_i128_le(&mut self) -> i128
        requires { 16 ≤ length self.old.0.now }
        ensures value { result ≡ little_signed 16 self.old.0.now }
        ensures rest { self.new.0.now ≡ drop 16 self.old.0.now }
    {
        self.eat_u128_le().cast_signed()
    }

    /// Reads a signed 16-byte little-endian integer, or returns None if fewer bytes remain.
    pub fn checked_eat_i128_le(&mut self) -> Option<i128>
        ensures some { IfSome result
            (λ v. Eats (little_signed 16) 16 v self.old.0.now self.new.0.now) }
        ensures none { IfNone result (IsShort 16 self.old.0.now self.new.0.now) }
    {
        if self.0.len() < 16 {
            return None;
        }
        Some(self.eat_i128_le())
    }
}
