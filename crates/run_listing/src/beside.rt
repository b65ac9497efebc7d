// A member's log beside the printed one.
ghost use Rattle.std.specs.Prelude.{◌≤◌, ◌<◌, ◌+◌, ◌^◌, IfOk, length};

use cl_base::{Disk, Entry, List, MemberFault};
use run_seats::Mounted;
use std::alloc::Global;

/// What a stopped member's log has beside the printed one.
#[derive(Drop)]
pub(crate) struct Beside {
    /// How many entries, from the front, are the same.
    pub(crate) same: u64,
    /// Those behind.
    pub(crate) own: List<Entry>,
}

/// Whether two entries are the same.
fn is_same(a: &Entry, b: &Entry) -> bool {
    a.term == b.term && a.bytes.as_slice() == b.bytes.as_slice()
}

/// How many entries of a log, from its front, are those of another one.
pub(crate) fn common(log: &[Entry], other: &[Entry]) -> usize
    ensures { result ≤ length log.now }
{
    for (index, entry) in log.iter().enumerate() {
        match other.get(index) {
            Some(there) if is_same(entry, there) => {}
            _ => return index,
        }
    }
    log.len()
}

/// Reads a stopped member's log beside the printed one.
pub(crate) fn read_beside<D: Disk>(
    alloc: Global,
    printed: &[Entry],
    mounted: &mut Mounted<D>,
) -> Result<Beside, MemberFault>
    ensures { IfOk result (λ b. b.same + length b.own < 2 ^ 64) }
{
    let mut same = 0;
    let mut own = List::new(alloc);
    let entries = mounted.entries();
    for index in 0..entries {
        let entry = mounted.read(index)?;
        if same == index {
            match printed.get(index as usize) {
                Some(other) if is_same(&entry, other) => {
                    same += 1;
                    continue;
                }
                _ => {}
            }
        }
        if own.push(entry).is_err() {
            return Err(MemberFault::NoMemory);
        }
    }
    Ok(Beside { same, own })
}
