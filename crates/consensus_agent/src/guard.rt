// What is asked of events before they go on.
ghost use Rattle.std.specs.Prelude.{◌≡◌, true};
ghost use Rattle.sbe_events.specs.Spelling.{HasSpelling, IsNumber};

use cl_base::limits::{CHANNEL_LIMIT, NUMBER_LIMIT, PAYLOAD_LIMIT};
use sbe_events::Event;

/// Whether a term, a position or a stamp is in its range.
pub fn is_number(number: &i64) -> bool
    ensures { result ≡ true → IsNumber number.now }
{
    *number >= 0 && *number <= NUMBER_LIMIT as i64
}

/// Whether an event that a client or an operator asks for has its fields in their ranges.
pub fn is_admissible(event: &Event) -> bool
    ensures { result ≡ true → HasSpelling event.now }
{
    match event {
        Event::Opened {
            term,
            corr,
            session,
            stamp,
            stream,
            channel,
        } => {
            let _range = (*corr, *stream);
            is_number(term) && *session >= 1 && is_number(stamp) && channel.len() <= CHANNEL_LIMIT
        }
        Event::Message {
            term,
            session,
            stamp,
            payload,
        } => {
            is_number(term) && *session >= 1 && is_number(stamp) && payload.len() <= PAYLOAD_LIMIT
        }
        Event::Closed {
            term,
            session,
            stamp,
            reason,
        } => is_number(term) && *session >= 1 && is_number(stamp) && *reason <= 2,
        Event::Snapshot {
            term,
            position,
            stamp,
        } => is_number(term) && is_number(position) && is_number(stamp),
        _ => false,
    }
}
