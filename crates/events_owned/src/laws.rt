//! Laws about the events that a reader accepts and about their bodies. Each is a function without code; its contract is the law.

ghost use Rattle.std.specs.Prelude.{◌≡◌, ◌↔◌, ◌≤◌, ◌+◌, ◌*◌, ℕ, List, length, Some, true};
ghost use Rattle.events_frames.specs.EventParts.{Parts, IsSplitError};
ghost use Rattle.events_frames.specs.Events.{IsWholeEvent};
ghost use Rattle.events_frames.specs.Footers.{ChecksumSettings};
ghost use Rattle.events_frames.specs.declared.event_error.EventError.TheVariants.{Frame};
ghost use Rattle.events_frames.specs.declared.event_error.EventError.{EventError};
ghost use Rattle.events_owned.specs.DataEncodings.{HaveSameContents};
ghost use Rattle.events_owned.specs.contracts.event_data.EventDataPartialEq.TheImpl.{ghosts as data_equality};
ghost use Rattle.events_owned.specs.Files.{File, ReturnsEvent, ReturnsError, ReturnsNothing, ReturnsItems};

use crate::event_data::EventData;
use events_frames::EventError;

/// The error of a whole event that can't be split is `Frame`: it is too short for its checksum, or for a format description's
/// fields.
pub fn whole_events_fail_only_as_too_short()
    ensures { (in_force : ChecksumSettings) (event : List ℕ) (fault : EventError) → IsWholeEvent event → IsSplitError in_force event fault → fault ≡ Frame }
{}

/// Unless reading fails or memory runs out, a file returns at most one item for each 19 bytes after its magic number.
pub fn files_give_few_items()
    ensures { (first last : File) (count : ℕ) (bytes remaining : List ℕ) → first.remaining ≡ Some bytes → last.remaining ≡ Some remaining → ReturnsItems first count last → 19 * count + length remaining ≤ length bytes }
{}

/// Nothing follows the end of a file, and nothing follows an error.
pub fn files_end_once()
    ensures end { (old new after : File) (p : Parts) → ReturnsNothing old new → ReturnsEvent new after p → ⊥ }
    ensures end_without_fault { (old new after : File) (error : EventError) → ReturnsNothing old new → ReturnsError new after error → ⊥ }
    ensures fault { (old new after : File) (p : Parts) (error : EventError) → ReturnsError old new error → ReturnsEvent new after p → ⊥ }
    ensures one_fault { (old new after : File) (error again : EventError) → ReturnsError old new error → ReturnsError new after again → ⊥ }
{}

/// Bodies of any type are equal by `==` exactly if their formats and their contents are.
pub fn equal_bodies_say_the_same()
    ensures { (a b : EventData) → (data_equality.eq a b ≡ true) ↔ HaveSameContents a b }
{}
