//! Members of ENUM and SET columns.

ghost use Rattle.std.specs.Prelude.{◌≡◌, ◌++◌, ◌∷◌, [], OnOk, map, if◌then◌else◌};
ghost use Rattle.feed_text.specs.Buffers.{text_in};
ghost use Rattle.changes_formats.specs.EnvelopeMembers.{content_of as string_content, enum_text, item_in, items_in, number_string, set_text};
ghost use Rattle.changes_commands.specs.declared.format_options.Format.TheVariants.{Canal, Maxwell};

use changes_commands::Format;
use feed_text::TextBuffer;
use std::alloc::{AllocError, Global};

/// The bits of a SET.
const BITS: u32 = 64;

/// Appends a number as a string: that of a member that the column doesn't have.
fn put_number_string(number: u64, out: &mut TextBuffer<Global>) -> Result<(), AllocError>
    ensures { OnOk result (text_in out.new ≡ text_in out.old ++ number_string number) }
{
    out.put(b'"')?;
    out.put_number(number)?;
    out.put(b'"')
}

/// Appends the member of an ENUM: an empty string for 0, and the number of a member that the column doesn't have.
pub(crate) fn put_member(
    members: &[Vec<u8>],
    number: u64,
    out: &mut TextBuffer<Global>,
) -> Result<(), AllocError>
    ensures { OnOk result (text_in out.new ≡ text_in out.old ++ enum_text (map (λ m. m.items) members.now) number) }
{
    if number == 0 {
        return out.put_text(b"\"\"");
    }
    match members.get((number - 1) as usize) {
        Some(member) => out.put_text(member),
        None => put_number_string(number, out),
    }
}

/// The content of a member that is a string; none of another.
pub(crate) fn content_of(member: &[u8]) -> &[u8]
    ensures { result.now ≡ string_content member.now }
{
    if member.len() < 2 || member[0] != b'"' {
        return &[];
    }
    &member[1..member.len() - 1]
}

/// Appends a member of a SET as an item of a list.
fn put_listed(members: &[Vec<u8>], bit: u32, out: &mut TextBuffer<Global>) -> Result<(), AllocError>
    ensures { OnOk result (text_in out.new ≡ text_in out.old ++ item_in Maxwell (map (λ m. m.items) members.now) bit) }
{
    match members.get(bit as usize) {
        Some(member) => out.put_text(member),
        None => put_number_string(u64::from(bit) + 1, out),
    }
}

/// Appends a member of a SET as a part of a string.
fn put_part(members: &[Vec<u8>], bit: u32, out: &mut TextBuffer<Global>) -> Result<(), AllocError>
    ensures { OnOk result (text_in out.new ≡ text_in out.old ++ item_in Canal (map (λ m. m.items) members.now) bit) }
{
    match members.get(bit as usize) {
        Some(member) => out.put_text(content_of(member)),
        None => out.put_number(u64::from(bit) + 1),
    }
}

/// Appends a member of a SET, after a comma unless it is the first.
fn put_item(
    format: Format,
    is_first: bool,
    members: &[Vec<u8>],
    bit: u32,
    out: &mut TextBuffer<Global>,
) -> Result<(), AllocError>
    ensures { OnOk result (text_in out.new ≡ text_in out.old ++ ((if is_first then [] else 44 ∷ []) ++ item_in format (map (λ m. m.items) members.now) bit)) }
{
    if !is_first {
        out.put(b',')?;
    }
    match format {
        Format::Maxwell => put_listed(members, bit, out),
        Format::Debezium | Format::Canal => put_part(members, bit, out),
    }
}

/// Appends the members of a SET whose bits a number has, with commas between them.
fn put_items(
    format: Format,
    members: &[Vec<u8>],
    number: u64,
    out: &mut TextBuffer<Global>,
) -> Result<(), AllocError>
    ensures { OnOk result (text_in out.new ≡ text_in out.old ++ items_in format (map (λ m. m.items) members.now) number) }
{
    let mut is_first = true;
    for bit in 0..BITS {
        if (number >> bit) % 2 == 1 {
            put_item(format, is_first, members, bit, out)?;
            is_first = false;
        }
    }
    Ok(())
}

/// Appends the members of a SET whose bits a number has, with commas between them, and a byte before and after them.
fn put_enclosed(
    format: Format,
    ends: (u8, u8),
    members: &[Vec<u8>],
    number: u64,
    out: &mut TextBuffer<Global>,
) -> Result<(), AllocError>
    ensures { OnOk result (text_in out.new ≡ text_in out.old ++ (ends.0 ∷ items_in format (map (λ m. m.items) members.now) number ++ ends.1 ∷ [])) }
{
    out.put(ends.0)?;
    put_items(format, members, number, out)?;
    out.put(ends.1)?;
    Ok(())
}

/// Appends the members of a SET whose bits a number has: Maxwell as a list of strings, the others as a string with commas between them.
/// Of a member that the column doesn't have it is the number, counted from 1.
pub(crate) fn put_members(
    format: Format,
    members: &[Vec<u8>],
    number: u64,
    out: &mut TextBuffer<Global>,
) -> Result<(), AllocError>
    ensures { OnOk result (text_in out.new ≡ text_in out.old ++ set_text format (map (λ m. m.items) members.now) number) }
{
    match format {
        Format::Maxwell => put_enclosed(format, (b'[', b']'), members, number, out),
        Format::Debezium | Format::Canal => {
            put_enclosed(format, (b'"', b'"'), members, number, out)
        }
    }
}
