//! The fields of an XA_PREPARE_LOG_EVENT.

ghost use Rattle.std.specs.Prelude.{◌≡◌, false, IfOk, IfSome, IfNone};
ghost use Rattle.events_replaced.specs.XaIdentifiers.{is_prepare, xid_text};
ghost use Rattle.events_replaced.specs.ReadPrepares.{ReadsPrepared};

use byteorder::{ByteOrder, LittleEndian};
use itoa::Buffer;
use std::alloc::{AllocError, Global};

/// The offsets of the fields of an XA_PREPARE_LOG_EVENT after its header: whether it commits in one phase, the format of the XID, the
/// lengths of its two parts, and these parts.
const ONE_PHASE_OFFSET: usize = 19;

const FORMAT_OFFSET: usize = 20;

const FIRST_LEN_OFFSET: usize = 24;

const SECOND_LEN_OFFSET: usize = 28;

const PARTS_OFFSET: usize = 32;

/// What an XA_PREPARE_LOG_EVENT has.
#[derive(Clone, Copy)]
pub struct PreparedXid<'e> {
    /// Whether the transaction is committed by it.
    pub is_one_phase: bool,
    /// The format of the XID.
    pub format: u32,
    /// The global transaction's part of the XID, and the branch's.
    pub global: &'e [u8],
    pub branch: &'e [u8],
}

/// Reads an XA_PREPARE_LOG_EVENT without its checksum. Returns None if its parts don't end where it does.
pub fn read_prepared(event: &[u8]) -> Option<PreparedXid<'_>>
    ensures some { IfSome result (ReadsPrepared event.now) }
    ensures none { IfNone result (is_prepare event.now ≡ false) }
{
    if event.len() < PARTS_OFFSET {
        return None;
    }
    let first = LittleEndian::read_u32(&event[FIRST_LEN_OFFSET..]) as usize;
    let second = LittleEndian::read_u32(&event[SECOND_LEN_OFFSET..]) as usize;
    if event.len() != PARTS_OFFSET + first + second {
        return None;
    }
    let (_, parts) = event.split_at(PARTS_OFFSET);
    let (global, branch) = parts.split_at(first);
    Some(PreparedXid {
        is_one_phase: event[ONE_PHASE_OFFSET] != 0,
        format: LittleEndian::read_u32(&event[FORMAT_OFFSET..]),
        global,
        branch,
    })
}

/// An XID as servers write it in XA COMMIT: `X'..',X'..',1`, both parts in hexadecimal digits, and the format. `AllocError`: out of
/// memory.
pub fn xid_text(
    alloc: Global,
    format: u32,
    global: &[u8],
    branch: &[u8],
) -> Result<Vec<u8>, AllocError>
    ensures { IfOk result (λ text. text.items ≡ xid_text format global.now branch.now) }
{
    let mut text = Vec::from_slice(alloc, b"X'")?;
    text.extend_from_slice(hex::encode(alloc, global)?.as_bytes())?;
    text.extend_from_slice(b"',X'")?;
    text.extend_from_slice(hex::encode(alloc, branch)?.as_bytes())?;
    text.extend_from_slice(b"',")?;
    let mut digits = Buffer::new();
    text.extend_from_slice(digits.format(format).as_bytes())?;
    Ok(text)
}
