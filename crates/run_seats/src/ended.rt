// What a service of an ended run consumed.
ghost use Rattle.std.specs.Prelude.{◌≡◌, ◌+◌, ◌<◌, ◌≤◌, ◌^◌, IfOk, length};

use cl_base::{Entry, List, NoMemory};
use std::alloc::Global;

/// What one run of a service consumed.
#[derive(Drop)]
pub struct ServiceRun {
    /// The service's number, 0 to 2.
    pub service: u8,
    /// The run's number among the member's runs, from 1.
    pub run: u64,
    /// The entries of the snapshot from which it began.
    pub from: u64,
    /// What it consumed, in order.
    pub inputs: List<Entry>,
    ghost numbered: { from + length inputs < 2 ^ 64 },
}

/// The number of the first of so many entries: this one, or a lower one where the last would have no number below 2^64.
pub fn first_number(first: u64, count: usize) -> u64
    ensures low { result + count < 2 ^ 64 }
    ensures same { first + count < 2 ^ 64 → result ≡ first }
{
    first.min(u64::MAX - count as u64)
}

/// A copy of these entries.
fn copied(alloc: Global, entries: &[Entry]) -> Result<List<Entry>, NoMemory>
    ensures { IfOk result (λ copies. copies ≡ entries.now) }
{
    let mut copies = List::new(alloc);
    for entry in entries {
        copies.push(entry.copy()?)?;
    }
    Ok(copies)
}

/// What a service consumed in a run that began with so many entries.
pub(crate) fn ended_run(
    alloc: Global,
    service: u8,
    run: u64,
    base: u64,
    entries: &[Entry],
) -> Result<ServiceRun, NoMemory>
    requires { base ≤ 2 ^ 62 }
    ensures from { IfOk result (λ r. r.from ≡ base) }
    ensures inputs { IfOk result (λ r. r.inputs ≡ entries.now) }
{
    let inputs = copied(alloc, entries)?;
    Ok(ServiceRun {
        service,
        run,
        from: first_number(base, entries.len()),
        inputs,
    })
}
