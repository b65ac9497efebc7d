// A backup whose disk is mounted.
ghost use Rattle.std.specs.Prelude.{◌≡◌, ◌<◌};

use cl_base::{Bytes, Disk, Entry, MemberFault, NoMemory};
use cluster_backup::{Backup, BackupFault};
use entry_log::LogIndex;
use recording_log::SnapshotAt;
use std::alloc::Global;
use std::marker::Model;

/// A backup whose disk is mounted. No change of it failed. Contracts see how many entries its log has.
#[derive(Drop)]
pub(crate) struct Copying<D: Disk> {
    backup: Backup<D>,
}

impl<D: Disk> Model for Copying<D> {
    ghost use Rattle.std.specs.Prelude.{ℕ, IsTrue, length};

    ghost Value = { ℕ };

    ghost view = { λ c. length c.backup.kept.log };

    ghost invariant = { λ c. IsTrue c.backup.whole };
}

impl<D: Disk> Copying<D> {
    /// Reads what the files of a backup with so many services stand for. The disk comes back with an error.
    pub(crate) fn mount(
        alloc: Global,
        disk: D,
        services: u8,
    ) -> Result<Copying<D>, (D, MemberFault)> {
        match Backup::mount(alloc, disk, services) {
            Ok(backup) => Ok(Copying { backup }),
            Err(back) => Err(back),
        }
    }

    /// What it asks.
    pub(crate) fn query(&self) -> Result<Bytes, NoMemory> {
        self.backup.query()
    }

    /// Takes the bytes of an answer. The disk comes back with an error.
    pub(crate) fn take(self, bytes: &[u8]) -> Result<Copying<D>, (D, BackupFault)> {
        let Copying { backup } = self;
        let mut backup = backup;
        match backup.take(bytes) {
            Ok(_) => Ok(Copying { backup }),
            Err(fault) => Err((backup.into_disk(), fault)),
        }
    }

    /// How many entries its log has.
    pub(crate) fn entries(&self) -> u64
        ensures { result ≡ self.now }
    {
        self.backup.index().entries()
    }

    /// The index of its log.
    pub(crate) fn index(&self) -> &LogIndex {
        self.backup.index()
    }

    /// Its valid snapshot sets, by rising position.
    pub(crate) fn sets(&self) -> &[SnapshotAt] {
        self.backup.durable().sets()
    }

    /// Reads the entry at an index.
    pub(crate) fn read(&mut self, index: u64) -> Result<Entry, MemberFault>
        requires { index < self.old }
        ensures { self.new ≡ self.old }
    {
        self.backup.read(index)
    }

    /// The disk, as it stands.
    pub(crate) fn into_disk(self) -> D {
        let Copying { backup } = self;
        backup.into_disk()
    }
}
