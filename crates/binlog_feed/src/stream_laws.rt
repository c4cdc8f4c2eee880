//! A law of streams, stated as the contract of a function that does nothing.

ghost use Rattle.std.specs.Prelude.{◌≡◌, true};
ghost use Rattle.events_frames.specs.Events.{IsWholeEvent};
ghost use Rattle.feed_checks.specs.EventFields.{Event};
ghost use Rattle.feed_replication.specs.declared.format.PayloadFormat.{PayloadFormat as Format};
ghost use Rattle.feed_replication.specs.Streams.{holds_event, event_in, payload_of};

/// The payload made of a whole event holds an event, and it is that one.
pub fn payloads_are_of_their_events()
    ensures holds { (format : Format) (e : Event) → IsWholeEvent e → holds_event format (payload_of format e) ≡ true }
    ensures event { (format : Format) (e : Event) → event_in format (payload_of format e) ≡ e }
{}
