//! The complete transactions of truncated output.

ghost use Rattle.std.specs.Prelude.{◌≡◌, ℕ, List, length, min, take};
ghost use Rattle.changes_resume.specs.FoundJson.{IsKeptJson};
ghost use Rattle.feed_resume.specs.Kept.{kept as kept_of};
ghost use Rattle.cuvragyen.specs.KeptTexts.{FindsJson, HasPosition};

use crate::numbers::{BAD_VALUE, MEMORY, OK};
use changes_resume::{KeptJson, KeptJsonError, ResumePoint, kept_json};
use feed_resume::kept;
use std::alloc::Global;
use wire_buf::Watched;

/// How much of truncated output is complete transactions.
#[repr(C)]
#[derive(Drop)]
pub struct KeptText {
    /// The length of the complete transactions in bytes.
    pub len: u64,
    /// The length of the name of the log of the last one, as far as there was room.
    pub file_len: u64,
    /// The position after the last one.
    pub position: u32,
    /// Whether there is one.
    pub has_position: bool,
}

/// What is kept up to a position, if there is one.
fn kept_up_to(len: u64, position: Option<u32>) -> KeptText
    ensures { HasPosition result len position }
{
    KeptText {
        len,
        file_len: 0,
        position: position.unwrap_or(0),
        has_position: position.is_some(),
    }
}

/// Writes as much of a name as there is room for, and returns its length.
fn put_name(name: &[u8], room: &mut [u8]) -> usize
    ensures len { result ≡ min (length name.now) (length room.new) }
    ensures copied { take result room.new ≡ take result name.now }
{
    let len = name.len().min(room.len());
    room[..len].copy_from_slice(&name[..len]);
    len
}

/// What is kept, with the name of the log of the last transaction.
fn kept_with_name(found: KeptJson, file: &mut [u8]) -> KeptText
    ensures { (text : List ℕ) → IsKeptJson text found → FindsJson text result file.new }
{
    let KeptJson { len, resume_point } = found;
    let Some(point) = resume_point else {
        return kept_up_to(len, None);
    };
    let ResumePoint {
        file: name,
        position,
    } = point;
    let file_len = put_name(&name, file) as u64;
    KeptText {
        len,
        file_len,
        position,
        has_position: true,
    }
}

/// Finds the complete transactions of JSON lines.
#[unsafe(no_mangle)]
pub extern "C" fn cuvragyen_kept_json(
    alloc: Global,
    lines: &[u8],
    found: &mut KeptText,
    file: &mut [u8],
) -> u32
    ensures found { result ≡ 0 → FindsJson lines.now found.new file.new }
    ensures kept { (result ≡ 0 → ⊥) → (found.new ≡ found.old) × (file.new ≡ file.old) }
{
    let mut reader = Watched::new(lines);
    match kept_json(alloc, &mut reader) {
        Ok(kept) => {
            *found = kept_with_name(kept, file);
            OK
        }
        Err(KeptJsonError::Line) => BAD_VALUE,
        Err(_) => MEMORY,
    }
}

/// Finds the complete transactions of the feed's text.
#[unsafe(no_mangle)]
pub extern "C" fn cuvragyen_kept_text(text: &[u8], found: &mut KeptText)
    ensures { HasPosition found.new (kept_of text.now).0 (kept_of text.now).1 }
{
    let (len, position) = kept(text);
    *found = kept_up_to(len as u64, position);
}
