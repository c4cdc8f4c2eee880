//! Whether XA transactions are prepared that are neither committed nor rolled back.

ghost use Rattle.std.specs.Prelude.{◌≡◌, Bool};

use crate::log_events::LogEvents;

/// A source of events that may keep those of XA transactions until they are committed.
pub trait PreparedSource {
    /// Whether it keeps none.
    ghost clear_in: { Self → Bool };

    /// Whether no XA transaction is prepared, by the events so far.
    fn is_clear(&self) -> bool
        ensures { result ≡ clear_in self.now };
}

impl PreparedSource for LogEvents<'_> {
    ghost use Rattle.events_replaced.specs.XaEventStates.{clear_of};
    ghost use Rattle.changes_walks.specs.LogSources.{with_xa_in};

    ghost clear_in = { λ s. clear_of (with_xa_in s) };

    fn is_clear(&self) -> bool {
        self.events.source().is_clear()
    }
}
