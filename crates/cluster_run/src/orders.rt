// Orders, one after the other.
use crate::cluster::Cluster;
use cl_base::{Disk, NoMemory};
use ingress::Outcome;
use run_report::Reply;
use run_seats::Asking;
use scenario::Order;
use std::sync::Wait;
use std::thread::Threads;

/// A member's number, 0 to 4.
fn number(member: u64) -> u8 {
    u8::try_from(member).unwrap_or(u8::MAX)
}

/// The line of an order by which a client sends something, and the member that it names.
fn addressed(order: &Order) -> Option<(u64, u64)> {
    match order {
        Order::Connect { line, member, .. }
        | Order::Send { line, member, .. }
        | Order::SendHex { line, member, .. }
        | Order::Close { line, member, .. }
        | Order::KeepAlive { line, member, .. }
        | Order::Raw { line, member, .. } => Some((*line, *member)),
        _ => None,
    }
}

impl<D: Disk + Drop> Cluster<D> {
    /// Every member starts, in rising order.
    pub(crate) fn begin(&mut self) -> Result<(), NoMemory> {
        for member in 0..self.seats.len() {
            let Some(seat) = self.seats.get_mut(member) else {
                return Ok(());
            };
            let number = seat.member();
            match seat.start(&self.site, 0)? {
                Reply::Fine | Reply::Running => {}
                _ => self.tell_stop(number)?,
            }
        }
        Ok(())
    }

    /// One order.
    pub(crate) fn step<R: Threads + Wait + Copy + Send + Sync + 'static>(
        &mut self,
        rt: &R,
        order: &Order,
    ) -> Result<(), NoMemory> {
        match order {
            Order::Members { .. } | Order::Service { .. } => Ok(()),
            Order::Rounds { rounds, .. } => self.run_rounds(rt, *rounds, false),
            Order::Quiet { rounds, .. } => self.run_rounds(rt, *rounds, true),
            Order::FreeOn { .. } => self.free_on(rt),
            Order::FreeOff { .. } => self.free_off(rt),
            Order::Connect { .. }
            | Order::Send { .. }
            | Order::SendHex { .. }
            | Order::Close { .. }
            | Order::KeepAlive { .. }
            | Order::Raw { .. } => self.client_step(rt, order),
            Order::Action { line, member } => self.action(rt, *line, *member as usize),
            Order::Stop { line, member } => self.stop(rt, *line, *member as usize),
            Order::Start { line, member } => self.start(rt, *line, *member as usize),
            Order::Invalidate { line, member } => self.invalidate(*line, *member as usize),
            Order::Fuse { .. }
            | Order::Cut { .. }
            | Order::Heal { .. }
            | Order::Lose { .. }
            | Order::Replay { .. } => self.disturb(order),
            Order::Join { client, .. } => self.join(*client),
            Order::Offer { line, client, text } => {
                self.offer(rt, *line, *client, text.as_slice())
            }
            Order::Backup { .. } | Order::BackupOff { .. } | Order::BackupLose { .. } =>
                self.backup_step(order),
        }
    }

    /// An order by which a client sends something.
    fn client_step<R: Threads + Wait + Copy + Send + Sync + 'static>(
        &mut self,
        rt: &R,
        order: &Order,
    ) -> Result<(), NoMemory> {
        let Some((line, member)) = addressed(order) else {
            return Ok(());
        };
        let bytes = self.bytes_of(order)?;
        self.client(rt, line, member as usize, bytes.as_slice())
    }

    /// A client's message reaches a member.
    fn client<R: Threads + Wait + Copy + Send + Sync + 'static>(
        &mut self,
        rt: &R,
        line: u64,
        member: usize,
        bytes: &[u8],
    ) -> Result<(), NoMemory> {
        let outcome = self.ask(rt, member, Asking::Client(bytes))?;
        self.tell_outcome(line, outcome)
    }

    /// A snapshot action at a member.
    fn action<R: Threads + Wait + Copy + Send + Sync + 'static>(
        &mut self,
        rt: &R,
        line: u64,
        member: usize,
    ) -> Result<(), NoMemory> {
        let outcome = self.ask(rt, member, Asking::Action)?;
        self.tell_outcome(line, outcome)
    }

    /// Tells a client's or an operator's outcome, where there is one.
    pub(crate) fn tell_outcome(
        &mut self,
        line: u64,
        outcome: Option<Outcome>,
    ) -> Result<(), NoMemory> {
        match outcome {
            Some(outcome) => self.tell(line, Reply::Given(outcome)),
            None => Ok(()),
        }
    }

    /// The member stops, at rest.
    fn stop<R: Threads + Wait + Copy + Send + Sync + 'static>(
        &mut self,
        rt: &R,
        line: u64,
        member: usize,
    ) -> Result<(), NoMemory> {
        let alloc = self.alloc();
        let Some(seat) = self.seats.get_mut(member) else {
            return Ok(());
        };
        let reply = if seat.stop(rt, alloc)? {
            Reply::Fine
        } else {
            Reply::Given(Outcome::MemberDown)
        };
        self.tell(line, reply)
    }

    /// The member starts.
    fn start<R: Threads + Wait + Copy + Send + Sync + 'static>(
        &mut self,
        rt: &R,
        line: u64,
        member: usize,
    ) -> Result<(), NoMemory> {
        let now = self.clock.now();
        let Some(seat) = self.seats.get_mut(member) else {
            return Ok(());
        };
        let reply = seat.start(&self.site, now)?;
        if reply == Reply::Fine {
            seat.print(&mut self.outside)?;
        }
        self.tell(line, reply)?;
        match reply {
            Reply::Fine => self.begin_free(rt, member),
            _ => Ok(()),
        }
    }

    /// The latest valid snapshot of a stopped member goes.
    fn invalidate(&mut self, line: u64, member: usize) -> Result<(), NoMemory> {
        let Some(seat) = self.seats.get_mut(member) else {
            return Ok(());
        };
        let reply = seat.invalidate(&self.site)?;
        self.tell(line, reply)
    }

    /// An order that disturbs a disk or a link.
    fn disturb(&mut self, order: &Order) -> Result<(), NoMemory> {
        match order {
            Order::Fuse {
                member,
                calls,
                choice,
                ..
            } => {
                if let Some(seat) = self.seats.get_mut(*member as usize) {
                    seat.set_fuse(*calls, *choice);
                }
            }
            Order::Cut { from, to, .. } => self.outside.net.cut_link(number(*from), number(*to)),
            Order::Heal { from, to, .. } => self.outside.net.heal_link(number(*from), number(*to)),
            Order::Lose { from, to, .. } => self.outside.net.lose(number(*from), number(*to)),
            Order::Replay {
                from,
                to,
                latest,
                ..
            } => self
                .outside
                .net
                .replay(number(*from), number(*to), *latest)?,
            _ => {}
        }
        Ok(())
    }
}
