// Rounds: time, packets, duties, phases.
use crate::cluster::Cluster;
use cl_base::{Disk, NoMemory};
use ingress::Outcome;
use run_seats::Asking;
use std::sync::Wait;
use std::thread::Threads;

impl<D: Disk + Drop> Cluster<D> {
    /// So many rounds. A quiet one has no phases, nor has one while phases go on over orders.
    pub(crate) fn run_rounds<R: Threads + Wait + Copy + Send + Sync + 'static>(
        &mut self,
        rt: &R,
        count: u64,
        quiet: bool,
    ) -> Result<(), NoMemory> {
        for _ in 0..count {
            self.clock.tick();
            self.joined_round(rt)?;
            self.take_packets(rt)?;
            self.take_backup_packets(rt)?;
            for member in 0..self.seats.len() {
                self.ask(rt, member, Asking::Duty)?;
            }
            self.send_query()?;
            if !quiet && !self.free {
                for member in 0..self.seats.len() {
                    self.phase(rt, member)?;
                }
            }
        }
        Ok(())
    }

    /// Every packet that is in flight is taken, in order of sending. One to a member that is stopped is lost.
    fn take_packets<R: Threads + Wait + Copy + Send + Sync + 'static>(
        &mut self,
        rt: &R,
    ) -> Result<(), NoMemory> {
        for _ in 0..u64::MAX {
            match self.outside.net.take() {
                Some((_, packet)) => {
                    let bytes = packet.bytes.as_slice();
                    self.ask(rt, packet.to as usize, Asking::Packet(bytes))?;
                }
                None => return Ok(()),
            }
        }
        Ok(())
    }

    /// Asks a member, and tells where it was stopped. A client and an operator get an outcome.
    pub(crate) fn ask<R: Threads + Wait + Copy + Send + Sync + 'static>(
        &mut self,
        rt: &R,
        member: usize,
        asking: Asking<'_>,
    ) -> Result<Option<Outcome>, NoMemory> {
        let now = self.clock.now();
        let Some(seat) = self.seats.get_mut(member) else {
            return Ok(None);
        };
        let took = seat.ask(rt, &mut self.outside, asking, now)?;
        self.took(member, took)
    }

    /// A member that runs has a phase: its services consume what it has committed.
    fn phase<R: Threads + Wait + Copy + Send + Sync + 'static>(
        &mut self,
        rt: &R,
        member: usize,
    ) -> Result<(), NoMemory> {
        let Some(seat) = self.seats.get_mut(member) else {
            return Ok(());
        };
        let took = seat.phase(rt, &mut self.outside)?;
        self.took(member, took)?;
        Ok(())
    }
}
