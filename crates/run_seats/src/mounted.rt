// The disk of a member that is stopped, as it is read.
use crate::site::Site;
use cl_base::{Disk, Entry, MemberFault};
use member_disk::MemberDisk;
use recording_log::SnapshotAt;
use std::marker::Model;

/// The disk of a member that is stopped, mounted. No change of it failed. Contracts see how many entries its log has.
#[derive(Drop)]
pub struct Mounted<D: Disk> {
    disk: MemberDisk<D>,
}

impl<D: Disk> Model for Mounted<D> {
    ghost use Rattle.std.specs.Prelude.{ℕ, IsTrue, length};

    ghost Value = { ℕ };

    ghost view = { λ m. length m.disk.kept.log };

    ghost invariant = { λ m. IsTrue m.disk.whole };
}

impl<D: Disk> Mounted<D> {
    ghost use Rattle.std.specs.Prelude.{◌≡◌, ◌<◌};

    /// Reads what the files of a member of this site stand for. The disk comes back with an error.
    pub(crate) fn mount(site: &Site, disk: D) -> Result<Mounted<D>, (D, MemberFault)> {
        match MemberDisk::mount(site.alloc, disk, site.services()) {
            Ok(disk) => Ok(Mounted { disk }),
            Err(back) => Err(back),
        }
    }

    /// The candidate term, -1 before any.
    pub fn candidate_term(&self) -> i64 {
        self.disk.durable().candidate_term()
    }

    /// The valid snapshot sets, by rising position.
    pub fn sets(&self) -> &[SnapshotAt] {
        self.disk.durable().sets()
    }

    /// How many entries the log has.
    pub fn entries(&self) -> u64
        ensures { result ≡ self.now }
    {
        self.disk.index().entries()
    }

    /// Reads the entry at an index.
    pub fn read(&mut self, index: u64) -> Result<Entry, MemberFault>
        requires { index < self.old }
        ensures { self.new ≡ self.old }
    {
        self.disk.read(index)
    }

    /// Makes the latest valid snapshot set invalid. False where there is none. The disk comes back.
    pub(crate) fn strike(self) -> Result<(D, bool), (D, MemberFault)> {
        let Mounted { disk } = self;
        let mut disk = disk;
        match disk.invalidate() {
            Ok(struck) => Ok((disk.into_disk(), struck)),
            Err(fault) => Err((disk.into_disk(), fault)),
        }
    }

    /// The disk, as it stands.
    pub(crate) fn into_disk(self) -> D {
        let Mounted { disk } = self;
        disk.into_disk()
    }
}
