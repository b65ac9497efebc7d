// A batch as the bytes of its frames.
ghost use Rattle.std.specs.Prelude.{◌≡◌, ◌+◌, ◌-◌, ◌%◌, ◌*◌, ◌<◌, ◌≤◌, ◌++◌, All, false, IsTrue, OnOk, IfOk, length, take, drop};
ghost use Rattle.wire_prims.specs.Header.{aligned_to};
ghost use Rattle.wire_prims.specs.Frames.{frame, are_flags};
ghost use Rattle.entry_log.specs.Log.{frames_len};
ghost use Rattle.log_segment.specs.Segment.{entry_frames, later_frames};
ghost use Rattle.log_segment.specs.Batch.{IsBatch, frames_of};

use cl_base::{Entry, NoMemory};
use entry_log::end_after;
use std::alloc::Global;
use wire_prims::{FIRST_FLAGS, LAST_FLAGS, OPEN_GATE, WHOLE_FLAGS, aligned, write_frame};

/// The bytes of an event that one frame carries, but for the last frame of an entry.
const PAYLOAD: usize = 1_376;

/// The bytes of a frame that carries so many.
const FRAME: u64 = 1_408;

/// The flags of a frame that is neither an entry's first nor its last.
const MIDDLE_FLAGS: u8 = 0;

/// Puts a frame of data, its gate open, behind the bytes. Where there is no memory, what the bytes are is left open.
fn push_frame(out: &mut Vec<u8>, position: u64, flags: u8, body: &[u8]) -> Result<(), NoMemory>
    requires flags { IsTrue (are_flags flags) }
    requires body { length body.now ≤ 1376 }
    requires place { position % 32 ≡ 0 }
    requires below { position < 16777216 }
    requires within { position % 65536 + aligned_to (32 + length body.now) ≤ 65536 }
    ensures { OnOk result (out.new.items ≡ out.old.items ++ frame position 0x5A flags false body.now) }
{
    let mut bytes: [u8; 1408] = [0; 1408];
    let size = aligned((32 + body.len()) as u64) as usize;
    write_frame(&mut bytes[..size], position, OPEN_GATE, flags, false, body);
    out.extend_from_slice(&bytes[..size])?;
    Ok(())
}

/// Puts a frame with the first `size` bytes of an event behind the bytes.
fn push_front(
    out: &mut Vec<u8>,
    position: u64,
    flags: u8,
    event: &[u8],
    size: usize,
) -> Result<(), NoMemory>
    requires flags { IsTrue (are_flags flags) }
    requires body { size ≤ 1376 }
    requires there { size ≤ length event.now }
    requires place { position % 32 ≡ 0 }
    requires below { position < 16777216 }
    requires within { position % 65536 + aligned_to (32 + size) ≤ 65536 }
    ensures { OnOk result (out.new.items ≡ out.old.items ++ frame position 0x5A flags false (take size event.now)) }
{
    push_frame(out, position, flags, &event[..size])
}

/// Puts an event's frames from byte `from` on, of which there are at most `more` and one, behind the bytes.
fn push_later(
    out: &mut Vec<u8>,
    more: usize,
    position: u64,
    event: &[u8],
    from: usize,
) -> Result<(), NoMemory>
    requires some { from < length event.now }
    requires few { length event.now - from ≤ 1376 * (more + 1) }
    requires place { position % 32 ≡ 0 }
    requires below { position < 16777216 }
    requires within { position % 65536 + frames_len (length event.now - from) ≤ 65536 }
    ensures { OnOk result (out.new.items ≡ out.old.items ++ later_frames more position (drop from event.now)) }
{
    let rest = &event[from..];
    if more == 0 || rest.len() <= PAYLOAD {
        return push_frame(out, position, LAST_FLAGS, rest);
    }
    push_front(out, position, MIDDLE_FLAGS, rest, PAYLOAD)?;
    push_later(out, more - 1, position + FRAME, event, from + PAYLOAD)
}

/// Puts an event's frames behind the bytes.
pub fn push_event(out: &mut Vec<u8>, position: u64, event: &[u8]) -> Result<(), NoMemory>
    requires some { 0 < length event.now }
    requires small { length event.now ≤ 32768 }
    requires place { position % 32 ≡ 0 }
    requires below { position < 16777216 }
    requires within { position % 65536 + frames_len (length event.now) ≤ 65536 }
    ensures { OnOk result (out.new.items ≡ out.old.items ++ entry_frames position event.now) }
{
    if event.len() <= PAYLOAD {
        return push_frame(out, position, WHOLE_FLAGS, event);
    }
    push_front(out, position, FIRST_FLAGS, event, PAYLOAD)?;
    push_later(out, event.len(), position + FRAME, event, PAYLOAD)
}

/// The frames of a batch from a place on, all gates open: in one segment, with no pad.
pub fn spell_batch(alloc: Global, position: u64, entries: &[Entry]) -> Result<Vec<u8>, NoMemory>
    requires some { All (λ e. 0 < length e.bytes) entries.now }
    requires small { All (λ e. length e.bytes ≤ 32768) entries.now }
    requires place { position % 32 ≡ 0 }
    requires below { position < 16777216 }
    requires within { position % 65536 + frames_of entries.now ≤ 65536 }
    ensures spells { IfOk result (λ v. IsBatch position entries.now v.items) }
    ensures size { IfOk result (λ v. length v.items ≡ frames_of entries.now) }
{
    let mut out = Vec::new(alloc);
    let mut at = position;
    for entry in entries {
        let event = entry.bytes.as_slice();
        push_event(&mut out, at, event)?;
        at = end_after(at, event.len() as u64);
    }
    Ok(out)
}
