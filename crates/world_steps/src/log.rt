// Logs as plain lists.
ghost use Rattle.std.specs.Prelude.{◌≡◌, ◌++◌, ◌≤◌, ◌≤ℤ◌, ◌^◌, [], ◌∷◌, length, take, drop, IfOk, OnOk};
ghost use Rattle.consensus_core.specs.Member.{entries_in};
ghost use Rattle.entry_log.specs.Shape.{end_of, entry_shape, last_term_of, shape_of};
ghost use Rattle.world_steps.specs.Fit.{LogFits};
ghost use Rattle.world_steps.specs.Steps.{listed};

use cl_base::{Entry, List, NoMemory};
use entry_log::LogIndex;
use std::alloc::Global;

/// Puts an item behind the others.
pub fn put<T: Drop>(items: &mut Vec<T>, item: T) -> Result<(), NoMemory>
    ensures { OnOk result (items.new.items ≡ items.old.items ++ item ∷ []) }
{
    match items.push(item) {
        Ok(()) => Ok(()),
        Err(_) => Err(NoMemory),
    }
}

/// Puts an item before the others.
pub fn put_first<T: Drop>(items: &mut Vec<T>, item: T) -> Result<(), NoMemory>
    ensures { OnOk result (items.new.items ≡ item ∷ items.old.items) }
{
    match items.insert(0, item) {
        Ok(()) => Ok(()),
        Err(_) => Err(NoMemory),
    }
}

/// Puts an item behind the others, where there is one.
pub fn put_if<T: Drop>(items: &mut Vec<T>, item: Option<T>) -> Result<(), NoMemory>
    ensures { OnOk result (items.new.items ≡ items.old.items ++ listed item) }
{
    match item {
        Some(item) => put(items, item),
        None => Ok(()),
    }
}

/// Puts these items behind the others.
pub fn put_all<T: Drop>(items: &mut Vec<T>, more: List<T>) -> Result<(), NoMemory>
    ensures { OnOk result (items.new.items ≡ items.old.items ++ more) }
{
    for item in more.into_vec() {
        put(items, item)?;
    }
    Ok(())
}

/// Puts copies of these entries behind the others.
pub fn extend(log: &mut Vec<Entry>, entries: &[Entry]) -> Result<(), NoMemory>
    ensures { OnOk result (log.new.items ≡ log.old.items ++ entries.now) }
{
    for entry in entries {
        put(log, entry.copy()?)?;
    }
    Ok(())
}

/// The same entries again.
pub fn copies(alloc: Global, entries: &[Entry]) -> Result<List<Entry>, NoMemory>
    ensures { IfOk result (λ xs. xs ≡ entries.now) }
{
    let mut copies = Vec::new(alloc);
    extend(&mut copies, entries)?;
    Ok(List::from_vec(copies))
}

/// One entry more is in the index.
fn push(index: &mut LogIndex, entry: &Entry) -> Result<(), NoMemory>
    requires place { end_of index.old ≤ 2 ^ 62 }
    requires term { last_term_of index.old ≤ℤ entry.now.term }
    requires len { length entry.now.bytes ≤ 32768 }
    ensures { OnOk result (index.new ≡ index.old ++ entry_shape entry.now ∷ []) }
{
    index.push(entry.term, entry.bytes.len() as u64)
}

/// The index of a log.
pub fn index_of(alloc: Global, log: &[Entry]) -> Result<LogIndex, NoMemory>
    requires { LogFits log.now }
    ensures { IfOk result (λ x. x ≡ shape_of log.now) }
{
    let mut index = LogIndex::new(alloc);
    for entry in log {
        push(&mut index, entry)?;
    }
    Ok(index)
}

/// So many of the entries from the first on, as far as there are any.
fn range(log: &[Entry], first: u64, count: u64) -> &[Entry]
    ensures { result.now ≡ take count (drop first log.now) }
{
    let first = (first as usize).min(log.len());
    let rest = &log[first..];
    let count = (count as usize).min(rest.len());
    &rest[..count]
}

/// The entries of these ranges, each of a first entry and a number of entries, one range after the other.
pub fn entries_in(
    alloc: Global,
    ranges: &[(u64, u64)],
    log: &[Entry],
) -> Result<List<Entry>, NoMemory>
    ensures { IfOk result (λ xs. xs ≡ entries_in ranges.now log.now) }
{
    let mut found = Vec::new(alloc);
    for of in ranges {
        extend(&mut found, range(log, of.0, of.1))?;
    }
    Ok(List::from_vec(found))
}
