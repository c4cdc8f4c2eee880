//! Laws, each stated as the contract of a function that does nothing.

ghost use Rattle.std.specs.Prelude.{◌≡◌, ◌≤◌, ◌+◌, length};
ghost use Rattle.events_frames.specs.Events.{header_size_field};
ghost use Rattle.events_frames.specs.EventParts.{Parts, IsEvent, Describes, min_content_after};
ghost use Rattle.events_frames.specs.Descriptions.{Description};
ghost use Rattle.events_frames.specs.Footers.{ChecksumSettings};
ghost use Rattle.feed_checks.specs.EventFields.{Event, header_of, content, parts, description_by};

/// The computed parts of an event are those that its format states. Bytes are an event if they are as long as their header says
/// and long enough for their fields.
pub fn parts_are_those_of_events()
    ensures one { (f : ChecksumSettings) (e : Event) (p : Parts) → IsEvent f p e → p ≡ parts f e }
    ensures whole { (f : ChecksumSettings) (e : Event) → header_size_field e ≡ length e → 19 + min_content_after f (header_of e) (content e) ≤ length e → IsEvent f (parts f e) e }
{}

/// The computed fields of a format description are those that its format states.
pub fn descriptions_are_read()
    ensures { (d : Description) (p : Parts) → Describes d p → d ≡ description_by p }
{}
