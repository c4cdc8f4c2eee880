//! A cell that borrows from the bytes of a rows event.

/// The value of a cell, in the representation of its bytes. Slow conversions, such as the fields of a date or the digits of a
/// decimal, are left to the caller.
#[derive(Clone, Copy, Debug)]
pub enum CellRef<'a> {
    /// SQL NULL.
    Null,
    /// An integer of up to 8 bytes, or an unsigned one of up to 4.
    Int(i64),
    /// An unsigned integer of 8 bytes.
    UInt(u64),
    /// The bits of a float of 4 bytes.
    Float(u32),
    /// The bits of a float of 8 bytes.
    Double(u64),
    /// Bytes, or text.
    Bytes(&'a [u8]),
    /// Years since 1900.
    Year(u8),
    /// A NEWDATE: the day in 5 bits, the month in 4, the year above them.
    NewDate(u32),
    /// The decimal digits `hhmmss` of an old-format TIME, with its sign.
    OldTime(i32),
    /// The decimal digits `YYYYMMDDhhmmss` of an old-format DATETIME.
    OldDatetime(u64),
    /// Seconds since 1970 (UTC), and microseconds.
    Timestamp(i32, i32),
    /// A packed date and time.
    Datetime(i64),
    /// A packed TIME.
    Time(i64),
    /// A decimal: its precision, its scale (digits after the point), and the bytes that pack it.
    Decimal(u8, u8, &'a [u8]),
    /// A JSON document.
    Json(&'a [u8]),
    /// JSON diffs, in sequence to the end of the bytes.
    JsonDiffs(&'a [u8]),
}
