// Where entries end, in bytes from the log's beginning.
ghost use Rattle.std.specs.Prelude.{◌≡◌, ◌+◌, ◌^◌, ◌<◌, ◌≤◌, All, length};
ghost use Rattle.entry_log.specs.Log.{end_after, frames_len, place};

use cl_base::Entry;
use cl_base::limits::{FRAME_HEADER, FRAME_PAYLOAD, SEGMENT_BYTES};

/// The bytes of the frames of an event of `event_len` bytes.
fn frames_len(event_len: u64) -> u64
    requires { event_len ≤ 32768 }
    ensures value { result ≡ frames_len event_len }
    ensures below_a_segment { result < 65536 }
{
    let rest = event_len % FRAME_PAYLOAD;
    let whole = event_len / FRAME_PAYLOAD * (FRAME_HEADER + FRAME_PAYLOAD);
    if rest == 0 {
        whole
    } else {
        whole + (FRAME_HEADER + rest).next_multiple_of(FRAME_HEADER)
    }
}

#[tactic(auto, using(std::proofs::lemmas::Bool::Decides::nat_tests), unfolding(crate::specs::Log::end_after))]
/// The place (bytes, at most 2^62) at which an event of `event_len` bytes (at most 32,768) ends that is appended at
/// `place`.
pub fn end_after(place: u64, event_len: u64) -> u64
    requires place { place ≤ 2 ^ 62 }
    requires event_len { event_len ≤ 32768 }
    ensures end { result ≡ end_after place event_len }
    ensures bound { result < place + 131072 }
{
    let room = SEGMENT_BYTES - place % SEGMENT_BYTES;
    let frames = frames_len(event_len);
    if frames <= room {
        place + frames
    } else {
        place + room + frames
    }
}

/// The place of a log, in bytes. Its events have at most 32,768 bytes each, and it has fewer than 2^32 entries.
pub fn place(entries: &[Entry]) -> u64
    requires count { length entries.now < 2 ^ 32 }
    requires events { All (λ e. length e.bytes ≤ 32768) entries.now }
    ensures { result ≡ place entries.now }
{
    let mut place: u64 = 0;
    for entry in entries {
        place = end_after(place, entry.bytes.len() as u64);
    }
    place
}
