//! What has to be known to read a rows event.

ghost use Rattle.std.specs.Prelude.{◌≡◌};

use crate::rows_event_type::RowsEventType;

/// What has to be known to read a rows event.
#[derive(Clone, Copy, Debug, PartialEq, Eq, Hash)]
pub struct RowsEventCtx {
    /// The event's type.
    pub event_type: RowsEventType,
    /// The post-header length of this type. If it is 6, the table id has four bytes, otherwise six.
    pub post_header_len: usize,
    /// The post-header length of `WRITE_ROWS_EVENT`. Events whose type has the same length have extra data.
    pub write_post_header_len: usize,
}

impl RowsEventCtx {
    ghost use Rattle.rows_event_body.specs.RowsEventFields.{only_if};
    ghost use Rattle.rows_event_body.specs.RowsEvents.{has_extra};

    /// Returns the context of the extra data, if the event has it.
    pub(crate) fn extra_data(&self) -> Option<()>
        ensures { result ≡ only_if (has_extra self.now) (tt {0}) }
    {
        (self.post_header_len == self.write_post_header_len).then_some(())
    }
}
