// Phases that go on over orders.
use crate::cluster::Cluster;
use cl_base::{Disk, NoMemory};
use std::sync::Wait;
use std::thread::Threads;

impl<D: Disk + Drop> Cluster<D> {
    /// Phases go on over the orders that follow.
    pub(crate) fn free_on<R: Threads + Wait + Copy + Send + Sync + 'static>(
        &mut self,
        rt: &R,
    ) -> Result<(), NoMemory> {
        self.free = true;
        for member in 0..self.seats.len() {
            self.begin_free(rt, member)?;
        }
        Ok(())
    }

    /// Phases end with their rounds again.
    pub(crate) fn free_off<R: Threads + Wait + Copy + Send + Sync + 'static>(
        &mut self,
        rt: &R,
    ) -> Result<(), NoMemory> {
        self.free = false;
        for member in 0..self.seats.len() {
            self.end_free(rt, member)?;
        }
        Ok(())
    }

    /// Where phases go on over orders, one of this member begins, unless one goes on.
    pub(crate) fn begin_free<R: Threads + Wait + Copy + Send + Sync + 'static>(
        &mut self,
        rt: &R,
        member: usize,
    ) -> Result<(), NoMemory> {
        if !self.free {
            return Ok(());
        }
        let alloc = self.alloc();
        let Some(seat) = self.seats.get_mut(member) else {
            return Ok(());
        };
        let took = seat.begin(rt, alloc)?;
        self.took(member, took)?;
        Ok(())
    }

    /// A phase of this member that goes on ends, and its records are sent.
    fn end_free<R: Threads + Wait + Copy + Send + Sync + 'static>(
        &mut self,
        rt: &R,
        member: usize,
    ) -> Result<(), NoMemory> {
        let Some(seat) = self.seats.get_mut(member) else {
            return Ok(());
        };
        let took = seat.end(rt, &mut self.outside)?;
        self.took(member, took)?;
        Ok(())
    }
}
