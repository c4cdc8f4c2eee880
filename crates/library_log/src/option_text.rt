//! The text of options: lines, each with a name, `=` and a value.

/// What ends the name of a table's database.
const POINT: u8 = b'.';

/// Whether a byte ends a line.
pub(crate) fn is_line_feed(byte: &u8) -> bool {
    *byte == b'\n'
}

/// The bytes before the first that is this one, and those after it. None: it isn't there.
fn split_at_byte(bytes: &[u8], byte: u8) -> Option<(&[u8], &[u8])> {
    let at = bytes.iter().position(|other| *other == byte)?;
    let (before, rest) = bytes.split_at(at);
    let (_, after) = rest.split_first()?;
    Some((before, after))
}

/// The name and the value of a line, which is empty without a `=`.
pub(crate) fn option_in(line: &[u8]) -> (&[u8], &[u8]) {
    match split_at_byte(line, b'=') {
        Some(option) => option,
        None => (line, &[]),
    }
}

/// The names of a database and a table, with a point between them; None if one is missing.
pub(crate) fn parts_of(name: &[u8]) -> Option<(&[u8], &[u8])> {
    let (database, table) = split_at_byte(name, POINT)?;
    if database.is_empty() || table.is_empty() {
        return None;
    }
    Some((database, table))
}
