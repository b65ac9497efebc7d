// A batch that is spelled, and the calls that write it.
ghost use Rattle.std.specs.Prelude.{◌≡◌, ◌+◌, ◌-◌, ◌/◌, ◌%◌, ◌<◌, ◌≤◌, ◌++◌, ◌⊎◌, ◌&&◌, nat_lt, ℕ, IsTrue, IfOk, OnOk, All, length, take, drop, replicate};
ghost use Rattle.cl_base.specs.Counts.{HasCause};
ghost use Rattle.cl_base.specs.Disk.{LeavesOnly};
ghost use Rattle.cl_base.specs.Fuse.{FuseEnds};
ghost use Rattle.cl_base.specs.Runs.{EachImage};
ghost use Rattle.entry_log.specs.Log.{Log, place, place_from};
ghost use Rattle.log_segment.specs.Segment.{LogIs};
ghost use Rattle.log_segment.specs.Batch.{IsBatchAt, first_len};
ghost use Rattle.log_segment.specs.Held.{IsEventEntry, IsHeld};
ghost use Rattle.log_segment.specs.Whole.{IsApart, LogIsOne, LogLeft};
ghost use Rattle.log_segment.specs.declared.batch.Batch.{Batch};
ghost use Rattle.log_segment.specs.Spelled.{IsSpelled, CanWrite, write_calls, zeros_behind};

use crate::read::begin_of;
use crate::spell::spell_batch;
use crate::whole::{append_in, append_to_end, append_with_pad};
use cl_base::limits::SEGMENT_BYTES;
use cl_base::{Disk, Entry, NoMemory, Trouble};
use std::alloc::Global;
use wire_prims::{OPEN_GATE, WHOLE_FLAGS, write_frame};

/// The place of the gate in a frame.
const GATE: usize = 31;

/// The bytes before a gate.
fn before(bytes: &[u8], gate: usize) -> &[u8]
    requires { gate ≤ length bytes.now }
    ensures { result.now ≡ take gate bytes.now }
{
    &bytes[..gate]
}

/// The bytes behind a gate.
fn behind(bytes: &[u8], gate: usize) -> &[u8]
    requires { gate < length bytes.now }
    ensures { result.now ≡ drop (gate + 1) bytes.now }
{
    &bytes[gate + 1..]
}

/// Puts a closed gate behind a batch that doesn't end its segment.
fn close(bytes: &mut Vec<u8>, fills: bool) -> Result<(), NoMemory>
    ensures { OnOk result (bytes.new.items ≡ bytes.old.items ++ replicate (zeros_behind fills) 0) }
{
    if !fills {
        bytes.extend_from_slice(&[0; 32])?;
    }
    Ok(())
}

/// The bytes of the first event of a batch.
pub fn first_len(entries: &[Entry]) -> usize
    ensures { result ≡ first_len entries.now }
{
    match entries {
        [first, ..] => first.bytes.len(),
        [] => 0,
    }
}

/// A batch that is to stand behind a log: its frames with open gates, and a closed gate behind them.
#[derive(Drop)]
pub struct Batch {
    /// The log's place before it, in bytes.
    place: u64,
    /// Where its frames begin: the place, or the next segment's front, before which a pad stands.
    begin: u64,
    /// Its frames, and 32 zeros where they don't end their segment.
    bytes: Vec<u8>,
    /// It ends its segment.
    fills: bool,
}

impl Batch {
    /// The frames of entries that are written at a place, of which `first` is the bytes of the first one's event.
    pub fn spell(
        alloc: Global,
        place: u64,
        first: usize,
        entries: &[Entry],
    ) -> Result<Batch, NoMemory>
        requires place { place % 32 ≡ 0 }
        requires first { first ≡ first_len entries.now }
        requires batch { IsBatchAt place entries.now }
        requires events { All IsEventEntry entries.now }
        requires room { place_from place entries.now ≤ 16777216 }
        ensures { IfOk result (IsSpelled place entries.now) }
    {
        let begin = begin_of(place, first);
        let mut bytes = spell_batch(alloc, begin, entries)?;
        let fills = begin % SEGMENT_BYTES + bytes.len() as u64 == SEGMENT_BYTES;
        close(&mut bytes, fills)?;
        Ok(Batch {
            place,
            begin,
            bytes,
            fills,
        })
    }

    /// It ends a segment behind which there is another.
    fn rolls(&self) -> bool
        ensures { result ≡ (self.now.fills && nat_lt (self.now.place / 65536) 255) }
    {
        self.fills && self.place / SEGMENT_BYTES < 255
    }

    /// Writes it.
    pub fn write<D: Disk>(&self, disk: &mut D) -> Result<(), Trouble>
        requires spelled { (p : ℕ) × (entries : Log) × IsSpelled p entries self.now }
        requires room { IsTrue (D.tells disk.old) → self.now.place % 65536 + 32 ≤ length ((D.state disk.old).files (2 + self.now.place / 65536)).reads }
        ensures cause { HasCause (D.fault_count disk.old) (D.fault_count disk.new) result }
        ensures tells { D.tells disk.new ≡ D.tells disk.old }
        ensures honest { D.is_honest disk.new ≡ D.is_honest disk.old }
        ensures others { IsTrue (D.tells disk.old) → (g : ℕ) → (g < 2) ⊎ (258 ≤ g) → (D.state disk.new).files g ≡ (D.state disk.old).files g }
        ensures apart { IsTrue (D.is_honest disk.old) → LeavesOnly D.moment D.left_since disk.old disk.new (IsApart (D.state disk.old).files) }

        // On a disk that tells, what is read stands for the log with the batch then.
        ensures reads { IsTrue (D.tells disk.old) → (log entries : Log) → IsHeld log → IsSpelled (place log) entries self.now → LogIs log (λ f. ((D.state disk.old).files f).reads)
            → OnOk result (LogIs (log ++ entries) (λ f. ((D.state disk.new).files f).reads)) }

        // And so does each image; at any moment of the call each stands for the log before or after.
        ensures done { IsTrue (D.is_honest disk.old) → (log entries : Log) → CanWrite log entries self.now (D.state disk.old).files → OnOk result (EachImage (LogIs (log ++ entries)) (D.state disk.new).files) }
        ensures each { IsTrue (D.is_honest disk.old) → (log entries : Log) → CanWrite log entries self.now (D.state disk.old).files → EachImage (LogIsOne log (log ++ entries)) (D.state disk.new).files }
        ensures cut_well { IsTrue (D.is_honest disk.old) → (log entries : Log) → CanWrite log entries self.now (D.state disk.old).files → LeavesOnly D.moment D.left_since disk.old disk.new (LogIsOne log (log ++ entries)) }
        ensures fuse { IsTrue (D.is_honest disk.old) → (log entries : Log) → CanWrite log entries self.now (D.state disk.old).files
            → FuseEnds (write_calls self.now) Trouble.Failed (LogLeft (write_calls self.now - 1) log (log ++ entries)) (D.state disk.old) (D.state disk.new) result }
    {
        let segment = (self.place / SEGMENT_BYTES) as u32;
        let at = self.place % SEGMENT_BYTES;
        if self.begin != self.place {
            let mut pad = [0; 32];
            write_frame(&mut pad, self.place, OPEN_GATE, WHOLE_FLAGS, true, &[]);
            return append_with_pad(disk, segment, at, before(&pad, GATE), &self.bytes);
        }
        let head = before(&self.bytes, GATE);
        let tail = behind(&self.bytes, GATE);
        if self.rolls() {
            append_to_end(disk, segment, at, head, tail)
        } else {
            append_in(disk, segment, at, head, tail)
        }
    }
}
