// The backup of a run.
use crate::copying::Copying;
use cl_base::{Bytes, Choice, Disk, List, MemberFault, NoMemory};
use cluster_backup::BackupFault;
use ingress::Outcome;
use run_report::Reply;
use run_seats::Site;
use std::alloc::Global;
use std::mem;

/// Where the backup's disk is.
#[derive(Drop)]
pub(crate) enum Home<D: Disk> {
    /// The backup runs.
    Up(Copying<D>),
    /// The backup is stopped.
    Down(D),
    /// For a moment, while it is changed.
    Taken,
}

/// A packet between the backup and a member.
#[derive(Drop)]
pub enum Flight {
    /// To this member.
    Query { member: u64, bytes: Bytes },
    /// From a member.
    Answer(Bytes),
}

/// The backup of a run, with its disk and its packets in flight. It starts stopped, and asks nobody.
#[derive(Drop)]
pub struct BackupNode<D: Disk> {
    alloc: Global,
    home: Home<D>,
    /// The member that it asks, where it asks one.
    target: Option<u64>,
    /// In order of sending.
    flight: List<Flight>,
}

impl<D: Disk + Drop> BackupNode<D> {
    /// A stopped backup on this disk, which asks nobody.
    pub fn new(alloc: Global, disk: D) -> BackupNode<D> {
        BackupNode {
            alloc,
            home: Home::Down(disk),
            target: None,
            flight: List::new(alloc),
        }
    }

    /// The disk is at rest after a crash that keeps all.
    fn rest(&mut self, disk: D) {
        let mut disk = disk;
        disk.crash(Choice::Keep);
        self.home = Home::Down(disk);
    }

    /// Its disk is mounted, where it is stopped.
    fn start(&mut self, services: u8) -> Result<Reply, NoMemory> {
        match mem::replace(&mut self.home, Home::Taken) {
            Home::Down(disk) => match Copying::mount(self.alloc, disk, services) {
                Ok(copying) => {
                    self.home = Home::Up(copying);
                    Ok(Reply::Fine)
                }
                Err((disk, fault)) => self.fall_back(disk, fault),
            },
            home => {
                self.home = home;
                Ok(Reply::Fine)
            }
        }
    }

    /// Its disk couldn't be mounted.
    fn fall_back(&mut self, disk: D, fault: MemberFault) -> Result<Reply, NoMemory> {
        match fault {
            MemberFault::Device | MemberFault::LogFull { .. } => {
                self.rest(disk);
                Ok(Reply::Given(Outcome::Device))
            }
            MemberFault::Damaged { file, place } => {
                self.home = Home::Down(disk);
                Ok(Reply::Damaged { file, place })
            }
            MemberFault::NoMemory => {
                self.home = Home::Down(disk);
                Err(NoMemory)
            }
        }
    }

    /// From now on it asks this member. Where it is stopped its disk is mounted first: Device where the disk fails, and
    /// Damaged where its files are none that a backup leaves; then it stays stopped.
    pub fn ask(&mut self, site: &Site, member: u64) -> Result<Reply, NoMemory> {
        self.target = Some(member);
        self.start(site.services())
    }

    /// From now on it asks nobody.
    pub fn ask_nobody(&mut self) {
        self.target = None;
    }

    /// Its packets in flight vanish.
    pub fn lose(&mut self) {
        self.flight = List::new(self.alloc);
    }

    /// Where it runs and asks a member, its query is in flight then.
    pub fn send_query(&mut self) -> Result<(), NoMemory> {
        let Some(member) = self.target else {
            return Ok(());
        };
        match &self.home {
            Home::Up(copying) => {
                let bytes = copying.query()?;
                self.flight.push(Flight::Query { member, bytes })
            }
            _ => Ok(()),
        }
    }

    /// A member's answers are in flight then.
    pub fn send_answers(&mut self, packets: List<Bytes>) -> Result<(), NoMemory> {
        for bytes in packets.into_vec() {
            self.flight.push(Flight::Answer(bytes))?;
        }
        Ok(())
    }

    /// What is in flight, in order of sending. Nothing is then.
    pub fn take_flight(&mut self) -> List<Flight> {
        mem::replace(&mut self.flight, List::new(self.alloc))
    }

    /// Takes an answer, where it runs. True where its disk failed: then it was stopped.
    pub fn take(&mut self, bytes: &[u8]) -> Result<bool, NoMemory> {
        match mem::replace(&mut self.home, Home::Taken) {
            Home::Up(copying) => match copying.take(bytes) {
                Ok(copying) => {
                    self.home = Home::Up(copying);
                    Ok(false)
                }
                Err((disk, fault)) => self.fail(disk, fault),
            },
            home => {
                self.home = home;
                Ok(false)
            }
        }
    }

    /// It stops. Where memory was wanted, the run is given up.
    fn fail(&mut self, disk: D, fault: BackupFault) -> Result<bool, NoMemory> {
        match fault {
            BackupFault::Device => {
                self.rest(disk);
                Ok(true)
            }
            BackupFault::NoMemory => {
                self.home = Home::Down(disk);
                Err(NoMemory)
            }
        }
    }

    /// The backup, where it runs.
    pub(crate) fn running(&self) -> Option<&Copying<D>> {
        match &self.home {
            Home::Up(copying) => Some(copying),
            _ => None,
        }
    }

    /// Where it is stopped, its disk as it is read. The caller puts it back.
    pub(crate) fn mount(&mut self, services: u8) -> Option<Result<Copying<D>, MemberFault>> {
        match mem::replace(&mut self.home, Home::Taken) {
            Home::Down(disk) => match Copying::mount(self.alloc, disk, services) {
                Ok(copying) => Some(Ok(copying)),
                Err((disk, fault)) => {
                    self.home = Home::Down(disk);
                    Some(Err(fault))
                }
            },
            home => {
                self.home = home;
                None
            }
        }
    }

    /// It is stopped, with the disk that was read.
    pub(crate) fn unmount(&mut self, copying: Copying<D>) {
        self.home = Home::Down(copying.into_disk());
    }

    /// The disk as it stands.
    pub fn into_disk(self) -> Result<D, NoMemory> {
        let BackupNode {
            alloc: _,
            home,
            target: _,
            flight: _,
        } = self;
        match home {
            Home::Up(copying) => Ok(copying.into_disk()),
            Home::Down(disk) => Ok(disk),
            Home::Taken => Err(NoMemory),
        }
    }
}
