// Events of a packet as entries, and whether these can go behind a log.
ghost use Rattle.std.specs.Prelude.{◌≡◌, ◌<◌, ◌≤◌, ◌↔◌, ◌-◌, [], All, IsTrue, IfOk, drop, length, unsigned_abs};
ghost use Rattle.entry_log.specs.Log.{Log, RisesFrom};
ghost use Rattle.entry_log.specs.Shape.{shape_of};
ghost use Rattle.log_segment.specs.Held.{AreRanged};
ghost use Rattle.cluster_backup.specs.Spelling.{IsPart, AreParts};
ghost use Rattle.cluster_backup.specs.Taking.{Fits, AreBehind, entry_of as entry_in, entries_of as each_entry};
ghost use Rattle.cluster_backup.specs.declared.part.Part.TheVariants as part;

use cl_base::{Bytes, Entry, List, NoMemory};
use entry_log::{LogIndex, end_within, is_one_batch};
use sbe_events::term_of;
use std::alloc::Global;

/// The entry of bytes that spell an event.
fn entry_of(alloc: Global, bytes: &[u8]) -> Result<Entry, NoMemory>
    requires { IsPart part.Event bytes.now }
    ensures { IfOk result (λ e. e ≡ entry_in bytes.now) }
{
    let copy = Bytes::of(alloc, bytes)?;
    Ok(Entry {
        term: term_of(bytes),
        bytes: copy,
    })
}

/// The entries of these events.
fn entries_of(alloc: Global, events: &[Bytes]) -> Result<List<Entry>, NoMemory>
    requires { All (IsPart part.Event) events.now }
    ensures { IfOk result (λ es. es ≡ each_entry events.now) }
{
    let mut entries = List::new(alloc);
    for event in events {
        let entry = entry_of(alloc, event.as_slice())?;
        entries.push(entry)?;
    }
    Ok(entries)
}

/// The events past so many entries of a packet's that begin at an entry. None where it begins past that many.
#[tactic(auto, using(std::proofs::lemmas::List::drop_all))]
fn past(events: &[Bytes], start: i64, count: u64) -> &[Bytes]
    ensures reached { unsigned_abs start ≤ count → result.now ≡ drop (count - unsigned_abs start) events.now }
    ensures gap { count < unsigned_abs start → result.now ≡ [] }
{
    let start = start.unsigned_abs();
    if start > count || count - start >= events.len() as u64 {
        return &[];
    }
    &events[(count - start) as usize..]
}

/// Whether the terms of these entries don't fall from this one on.
fn are_rising(low: &i64, entries: &[Entry]) -> bool
    ensures { IsTrue result ↔ RisesFrom low.now entries.now }
{
    let Some((first, rest)) = entries.split_first() else {
        return true;
    };
    *low <= first.term && are_rising(&first.term, rest)
}

/// Whether these entries can go behind a log that ends at a place (bytes) in a term: they are one batch there, which
/// ends within the log's end, and no term falls.
#[tactic(auto, using(crate::proofs::Events::batch_at, crate::proofs::Events::at_batch))]
fn fit(place: u64, last: &i64, entries: &[Entry]) -> bool
    requires place { place ≤ 16777216 }
    requires events { All (λ e. length e.bytes ≤ 32768) entries.now }
    ensures { IsTrue result ↔ Fits place last.now entries.now }
{
    !entries.is_empty()
        && is_one_batch(place, entries)
        && end_within(place, entries).is_some()
        && are_rising(last, entries)
}

/// The entries of a packet that go behind a log, by its index: those past its own. None where there are none, or where
/// they can't.
pub fn behind(
    alloc: Global,
    index: &LogIndex,
    start: i64,
    events: &[Bytes],
) -> Result<List<Entry>, NoMemory>
    requires ranged { AreRanged index.now }
    requires events { AreParts part.Event events.now }
    ensures { (log : Log) → index.now ≡ shape_of log → IfOk result (AreBehind log start events.now) }
{
    let entries = entries_of(alloc, past(events, start, index.entries()))?;
    if !fit(index.place(), &index.last_term(), entries.as_slice()) {
        return Ok(List::new(alloc));
    }
    Ok(entries)
}
