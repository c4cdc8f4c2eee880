//! Where a transaction comes from: its GTID, its file and its position.

ghost use Rattle.std.specs.Prelude.{OnOk};
ghost use Rattle.feed_transactions.specs.KeptGtids.{kept_gtid};
ghost use Rattle.feed_text.specs.Buffers.{text_in};
ghost use Rattle.changes_lines.specs.Origins.{AppendsOrigin};

use crate::recorder::JsonRecorder;
use changes_origins::put_utf8;
use feed_text::TextBuffer;
use std::alloc::{AllocError, Allocator};

/// Appends the members that all lines of a transaction have, each after a comma: its GTID, its file and its position.
#[inline(always)]
pub(crate) fn put_origin<A: Allocator>(
    transaction: &JsonRecorder<'_>,
    file: &[u8],
    position: u32,
    text: &mut TextBuffer<A>,
) -> Result<(), AllocError>
    ensures { OnOk result (AppendsOrigin (kept_gtid transaction.now.gtid) file.now position (text_in text.old) (text_in text.new)) }
{
    text.put_text(b",\"gtid\":")?;
    transaction.put_gtid(text)?;
    text.put_text(b",\"file\":")?;
    put_utf8(file, text)?;
    text.put_text(b",\"position\":")?;
    text.put_number(u64::from(position))
}
