//! Event types as text.

ghost use Rattle.changes_commands.specs.GrowingTexts.{Grows};

use crate::text::Text;
use events_replaced::MariadbType;
use rows_constants::EventType;

/// Appends the name of an event type, or its number if it has none: `WRITE_ROWS_EVENT`, `type 200`.
#[tactic(auto, using(crate::proofs::GrowingLemmas::grows_by))]
pub fn put_type(number: u8, out: &mut Text)
    ensures { Grows out.old out.new }
{
    match (EventType::try_from(number), MariadbType::of(number)) {
        (Ok(event_type), _) => out.debug(&event_type),
        (Err(_), Some(mariadb_type)) => out.debug(&mariadb_type),
        (Err(_), None) => {
            out.words("type ");
            out.unsigned(u64::from(number));
        }
    }
}
