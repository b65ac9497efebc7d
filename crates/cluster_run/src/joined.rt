// Joined clients: each connects, follows its leader, keeps its session alive and reads its stream by itself.
use crate::cluster::Cluster;
use cl_base::{Disk, NoMemory};
use cluster_client::{OfferFault, ToMember};
use ingress::Outcome;
use joined_clients::{Joined, stream_of};
use run_report::Reply;
use run_seats::Asking;
use std::sync::Wait;
use std::thread::Threads;

/// Whether an offer that a client refused ends the run, or what its order is answered.
fn refused(fault: OfferFault) -> Result<Reply, NoMemory> {
    match fault {
        OfferFault::NotOpen => Ok(Reply::NotOpen),
        OfferFault::TooLarge { len } => Ok(Reply::Given(Outcome::TooLarge { bytes: len })),
        OfferFault::NoMemory => Err(NoMemory),
    }
}

impl<D: Disk + Drop> Cluster<D> {
    /// A client joins. Joined clients stand by rising number.
    pub(crate) fn join(&mut self, client: u64) -> Result<(), NoMemory> {
        let alloc = self.alloc();
        let place = self
            .joined
            .iter()
            .position(|other| other.number() > client)
            .unwrap_or(self.joined.len());
        let joined = Joined::new(alloc, client, self.site.members);
        match self.joined.insert(place, joined) {
            Ok(()) => Ok(()),
            Err(_) => Err(NoMemory),
        }
    }

    /// Each joined client is given the new records of its stream, and makes a step.
    pub(crate) fn joined_round<R: Threads + Wait + Copy + Send + Sync + 'static>(
        &mut self,
        rt: &R,
    ) -> Result<(), NoMemory> {
        for place in 0..self.joined.len() {
            if let Some(to) = self.joined_step(place)? {
                self.ask_for_client(rt, &to)?;
            }
        }
        Ok(())
    }

    /// One joined client is given the new records of its stream, and makes a step.
    fn joined_step(&mut self, place: usize) -> Result<Option<ToMember>, NoMemory> {
        let now = self.clock.now();
        let alloc = self.alloc();
        let Some(joined) = self.joined.get_mut(place) else {
            return Ok(None);
        };
        let stream = self.outside.egress.list(stream_of(joined.number()));
        joined.turn(alloc, stream, now)
    }

    /// A joined client's bytes reach their member.
    fn ask_for_client<R: Threads + Wait + Copy + Send + Sync + 'static>(
        &mut self,
        rt: &R,
        to: &ToMember,
    ) -> Result<Option<Outcome>, NoMemory> {
        self.ask(rt, to.member as usize, Asking::Client(to.bytes.as_slice()))
    }

    /// A joined client offers a message: an order of this line.
    pub(crate) fn offer<R: Threads + Wait + Copy + Send + Sync + 'static>(
        &mut self,
        rt: &R,
        line: u64,
        client: u64,
        payload: &[u8],
    ) -> Result<(), NoMemory> {
        match self.offered(client, payload) {
            Ok(to) => {
                let outcome = self.ask_for_client(rt, &to)?;
                self.tell_outcome(line, outcome)
            }
            Err(fault) => {
                let reply = refused(fault)?;
                self.tell(line, reply)
            }
        }
    }

    /// The bytes of a joined client's offer. A client that didn't join isn't open.
    fn offered(&mut self, client: u64, payload: &[u8]) -> Result<ToMember, OfferFault> {
        let now = self.clock.now();
        let alloc = self.alloc();
        match self
            .joined
            .iter_mut()
            .find(|joined| joined.number() == client)
        {
            Some(joined) => joined.offer(alloc, payload, now),
            None => Err(OfferFault::NotOpen),
        }
    }
}
