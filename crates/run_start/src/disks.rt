// The disks of a run, before it begins: looked at, and formatted.
ghost use Rattle.std.specs.Prelude.{◌≡◌, ◌≤◌, ℕ, length, IfOk, IfErr, OnOk, IsTrue, None, slice_index_or};
ghost use Rattle.cl_base.specs.Counts.{HasCause};
ghost use Rattle.scenario.specs.Orders.{members_of as members_in};
ghost use Rattle.run_start.specs.Disks.{IsFirstUsed, IsLookedAt, AreUnused};
ghost use Rattle.run_start.specs.Begins.{IfLookFails, IfFails, CannotBegin};
ghost use Rattle.run_start.specs.Needed.{disks_of as disks_in};

use crate::Status;
use crate::needed::{disks_of, members_of};
use cl_base::{Disk, MemberFault, Trouble};
use scenario::Order;

/// The number of a member's files.
const FILES: u32 = 1_282;

/// The first file of a disk that isn't empty, if there is one. Nothing is changed.
fn first_used<D: Disk>(disk: &mut D) -> Result<Option<u32>, Trouble>
    ensures cause { HasCause (D.fault_count disk.old) (D.fault_count disk.new) result }
    ensures tells { D.tells disk.new ≡ D.tells disk.old }
    ensures honest { D.is_honest disk.new ≡ D.is_honest disk.old }
    ensures used { IsTrue (D.tells disk.old) → IfOk result (IsFirstUsed (D.state disk.old).files) }
    ensures state { IsTrue (D.tells disk.old) → OnOk result (D.state disk.new ≡ D.state disk.old) }
{
    for file in 0..FILES {
        match disk.len(file) {
            Ok(0) => {}
            Ok(_) => return Ok(Some(file)),
            Err(trouble) => return Err(trouble),
        }
    }
    Ok(None)
}

/// Why a run can't begin on the first of these disks, in rising order, where a file of one isn't empty or can't be
/// looked at.
fn used<D: Disk>(disks: &mut [D], count: usize) -> Option<Status>
    requires { count ≤ length disks.old }
    ensures why { IfLookFails D.tells D.state D.fault_count count disks.old disks.new result }
    ensures looked { result ≡ None → (k : ℕ) → (d : D) → IsLookedAt D.tells D.is_honest D.state D.fault_count (slice_index_or disks.old k d) (slice_index_or disks.new k d) }
    ensures unused { result ≡ None → AreUnused D.tells D.state disks.old count }
{
    for member in 0..count {
        match first_used(&mut disks[member]) {
            Ok(None) => {}
            Ok(Some(file)) => {
                return Some(Status::Used {
                    member: member as u64,
                    file,
                });
            }
            Err(Trouble::Failed) => {
                return Some(Status::DiskFault {
                    member: member as u64,
                });
            }
            Err(Trouble::NoMemory) => return Some(Status::NoMemory),
        }
    }
    None
}

/// Formats the first disks, in rising order. An answer says why the run can't begin.
fn format_all<D: Disk>(disks: &mut [D], count: usize) -> Option<Status>
    requires { count ≤ length disks.old }
    ensures { IfFails D.fault_count count disks.old disks.new result }
{
    for member in 0..count {
        match member_disk::format(&mut disks[member]) {
            Ok(()) => {}
            Err(MemberFault::NoMemory) => return Some(Status::NoMemory),
            Err(_) => {
                return Some(Status::DiskFault {
                    member: member as u64,
                });
            }
        }
    }
    None
}

/// Looks at the disks that a run of these orders needs, the first of the list, and formats them, or says why the run can't
/// begin: there are fewer, a file of one isn't empty, one failed, or no memory was there.
#[tactic(auto, using(crate::proofs::Beginning::look_begins))]
pub fn prepare<D: Disk>(disks: &mut [D], orders: &[Order]) -> Result<(), Status>
    ensures { IfErr result (CannotBegin D.tells D.state D.fault_count (members_in orders.now) (disks_in orders.now) disks.old disks.new) }
{
    let there = disks.len() as u64;
    let Some(needed) = disks_of(orders, there) else {
        return Err(Status::FewDisks {
            members: members_of(orders),
            disks: there,
        });
    };
    if let Some(status) = used(disks, needed as usize) {
        return Err(status);
    }
    match format_all(disks, needed as usize) {
        Some(status) => Err(status),
        None => Ok(()),
    }
}
