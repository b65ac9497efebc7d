// The backup in the run: its orders, its queries, and what members answer.
use crate::cluster::{Cluster, Line};
use cl_base::{Disk, NoMemory};
use run_backup::Flight;
use scenario::Order;
use std::sync::Wait;
use std::thread::Threads;

impl<D: Disk + Drop> Cluster<D> {
    /// From now on the backup asks this member.
    fn aim_backup(&mut self, line: u64, member: u64) -> Result<(), NoMemory> {
        let Some(node) = &mut self.backup else {
            return Ok(());
        };
        let reply = node.ask(&self.site, member)?;
        self.tell(line, reply)
    }

    /// An order of the backup.
    pub(crate) fn backup_step(&mut self, order: &Order) -> Result<(), NoMemory> {
        match order {
            Order::Backup { line, member } => self.aim_backup(*line, *member),
            Order::BackupOff { .. } => {
                self.stop_asking();
                Ok(())
            }
            Order::BackupLose { .. } => {
                self.lose_backup_packets();
                Ok(())
            }
            _ => Ok(()),
        }
    }

    /// From now on the backup asks nobody.
    fn stop_asking(&mut self) {
        if let Some(node) = &mut self.backup {
            node.ask_nobody();
        }
    }

    /// The backup's packets in flight vanish.
    fn lose_backup_packets(&mut self) {
        if let Some(node) = &mut self.backup {
            node.lose();
        }
    }

    /// Between duties and phases the backup asks.
    pub(crate) fn send_query(&mut self) -> Result<(), NoMemory> {
        match &mut self.backup {
            Some(node) => node.send_query(),
            None => Ok(()),
        }
    }

    /// What is in flight between the backup and members is delivered, in order of sending.
    pub(crate) fn take_backup_packets<R: Threads + Wait + Copy + Send + Sync + 'static>(
        &mut self,
        rt: &R,
    ) -> Result<(), NoMemory> {
        let Some(node) = &mut self.backup else {
            return Ok(());
        };
        for packet in node.take_flight().into_vec() {
            match packet {
                Flight::Query { member, bytes } => {
                    self.answer_query(rt, member as usize, bytes.as_slice())?;
                }
                Flight::Answer(bytes) => self.take_answer(bytes.as_slice())?,
            }
        }
        Ok(())
    }

    /// A query reaches a member. One that is stopped drops it.
    fn answer_query<R: Threads + Wait + Copy + Send + Sync + 'static>(
        &mut self,
        rt: &R,
        member: usize,
        bytes: &[u8],
    ) -> Result<(), NoMemory> {
        let alloc = self.alloc();
        let Some(seat) = self.seats.get_mut(member) else {
            return Ok(());
        };
        let (took, packets) = seat.answer(rt, alloc, bytes)?;
        self.took(member, took)?;
        match &mut self.backup {
            Some(node) => node.send_answers(packets),
            None => Ok(()),
        }
    }

    /// An answer reaches the backup.
    fn take_answer(&mut self, bytes: &[u8]) -> Result<(), NoMemory> {
        let Some(node) = &mut self.backup else {
            return Ok(());
        };
        if node.take(bytes)? {
            self.told.push(Line::BackupStopped)?;
        }
        Ok(())
    }
}
