// The disks of a run: taken, given back.
ghost use Rattle.std.specs.Prelude.{◌≤◌};

use crate::cluster::Cluster;
use cl_base::{Disk, NoMemory};
use run_backup::BackupNode;
use run_seats::{MemberId, Seat, Site};
use std::alloc::Global;
use std::mem;
use std::sync::Wait;
use std::thread::Threads;

/// A seat for each of the first disks, which are taken out of the list.
fn seated<D: Disk + Drop>(
    alloc: Global,
    disks: &mut Vec<D>,
    members: u8,
) -> Result<Vec<Seat<D>>, NoMemory>
    requires { members ≤ 5 }
{
    let mut seats = Vec::new(alloc);
    for member in 0..members {
        if disks.is_empty() {
            return Err(NoMemory);
        }
        let disk = disks.remove(0);
        let id = MemberId { member, members };
        if seats.push(Seat::new(alloc, id, disk)).is_err() {
            return Err(NoMemory);
        }
    }
    Ok(seats)
}

/// The backup on the first of the disks that are left, where the run has one.
fn backup_on<D: Disk + Drop>(
    alloc: Global,
    disks: &mut Vec<D>,
    has_backup: bool,
) -> Result<Option<BackupNode<D>>, NoMemory> {
    if !has_backup {
        return Ok(None);
    }
    if disks.is_empty() {
        return Err(NoMemory);
    }
    Ok(Some(BackupNode::new(alloc, disks.remove(0))))
}

/// A disk comes back to its place in the list.
fn put_back<D: Disk + Drop>(disks: &mut Vec<D>, index: usize, disk: D) -> Result<(), NoMemory> {
    if index > disks.len() || disks.insert(index, disk).is_err() {
        return Err(NoMemory);
    }
    Ok(())
}

/// The disks come back to the front of the list, in order: the members', and the backup's.
fn give_back<R: Threads + Wait + Copy + Send + Sync + 'static, D: Disk + Drop>(
    rt: &R,
    seats: Vec<Seat<D>>,
    backup: Option<BackupNode<D>>,
    disks: &mut Vec<D>,
) -> Result<(), NoMemory> {
    let members = seats.len();
    for (index, seat) in seats.into_iter().enumerate() {
        let disk = seat.into_disk(rt)?;
        put_back(disks, index, disk)?;
    }
    match backup {
        Some(node) => put_back(disks, members, node.into_disk()?),
        None => Ok(()),
    }
}

/// The members of a run, and its backup where it has one, each on a disk that is taken out of the list.
pub(crate) fn gather<D: Disk + Drop>(
    site: Site,
    disks: &mut Vec<D>,
    has_backup: bool,
) -> Result<Cluster<D>, NoMemory> {
    let alloc = site.alloc;
    let seats = seated(alloc, disks, site.members)?;
    let backup = backup_on(alloc, disks, has_backup)?;
    Cluster::new(site, seats, backup)
}

/// The run is over, and its disks come back.
pub(crate) fn dissolve<R: Threads + Wait + Copy + Send + Sync + 'static, D: Disk + Drop>(
    rt: &R,
    mut cluster: Cluster<D>,
    disks: &mut Vec<D>,
) -> Result<(), NoMemory> {
    let seats = mem::replace(&mut cluster.seats, Vec::new(cluster.site.alloc));
    let backup = cluster.backup.take();
    give_back(rt, seats, backup, disks)
}
