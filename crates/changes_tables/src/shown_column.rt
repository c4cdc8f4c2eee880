//! A column of a table, and the bytes of its key that are written at once.

ghost use Rattle.std.specs.Prelude.{◌≡◌, ◌≤◌, length, take};

use crate::columns::Shown;

/// The length of a column's label in bytes.
pub const LABEL_LEN: usize = 32;

/// A column of a table.
#[derive(Drop)]
pub struct ShownColumn {
    /// Its name as a JSON string, and a colon.
    pub key: Vec<u8>,
    /// The key and zeros, if it isn't longer than that, so that it is written at once.
    pub label: [u8; LABEL_LEN],
    pub shown: Shown,
    /// The members of an ENUM or a SET, each as JSON; none if they aren't known.
    pub members: Vec<Vec<u8>>,
    ghost label_is: { length key.items ≤ 32 → take (length key.items) label ≡ key.items },
}

/// Returns a key and zeros, if it isn't longer than a label.
fn label_of(key: &[u8]) -> [u8; LABEL_LEN]
    ensures { length key.now ≤ 32 → take (length key.now) result ≡ key.now }
{
    let mut label = [0; LABEL_LEN];
    if key.len() <= LABEL_LEN {
        label[..key.len()].copy_from_slice(key);
    }
    label
}

impl ShownColumn {
    /// Returns a column with this key: its name as a JSON string, and a colon.
    pub fn new(key: Vec<u8>, shown: Shown, members: Vec<Vec<u8>>) -> ShownColumn
        ensures key { result.key ≡ key }
        ensures shown { result.shown ≡ shown }
        ensures members { result.members ≡ members }
    {
        ShownColumn {
            label: label_of(&key),
            key,
            shown,
            members,
        }
    }
}
