//! How a log ended that has begun.

ghost use Rattle.std.specs.Prelude.{◌≡◌, option_map};
ghost use Rattle.events_frames.specs.Headers.{event_header_of};
ghost use Rattle.feed_checks.specs.declared.verdict.Verdict.TheVariants.{End};
ghost use Rattle.feed_change_log.specs.Stops.{header_in};
ghost use Rattle.library_log.specs.LibrarySources.{unread_in};
ghost use Rattle.library_log.specs.ReadLogs.{CountsUnread};

use crate::log_source::LogSource;
use events_frames::{BinlogEventHeader, header_of};
use feed_change_log::Stop;
use feed_checks::Verdict;

/// The header that bytes begin with, if they are long enough.
fn header_in(bytes: &[u8]) -> Option<BinlogEventHeader>
    ensures { option_map event_header_of result ≡ header_in bytes.now }
{
    if bytes.len() < BinlogEventHeader::LEN {
        return None;
    }
    Some(header_of(bytes))
}

/// Sets where in the log it ended, by the offset among the bytes that its source gave; and for a log without a fault, what was read of
/// it and isn't taken.
pub(crate) fn set_end(stop: &mut Stop, source: &LogSource<'_>)
    ensures unread { stop.old.verdict ≡ End → CountsUnread stop.new (unread_in source.now) }
    ensures kept { stop.new ≡ record stop.old { offset = stop.new.offset; header = stop.new.header; remaining = stop.new.remaining; is_cut = stop.new.is_cut } }
{
    stop.offset = source.own_offset(stop.offset);
    if !matches!(stop.verdict, Verdict::End) {
        return;
    }
    let unread = source.unread();
    stop.header = header_in(unread);
    stop.remaining = unread.len();
    stop.is_cut = !unread.is_empty();
}
