// The offers of all services.
ghost use Rattle.std.specs.Prelude.{◌≡◌, ◌++◌, ◌∷◌, [], ◌≤◌, ◌<◌, ◌+◌, ◌^◌, OnOk, OnErr, IfOk, length, pos, nat_lt, option_map};
ghost use Rattle.pending_messages.specs.Pending.{first_pending, at_service, offers_at, offered_of, offered, appended_one, next_of, is_waiting, offers_of};

use crate::offers::Offers;
use cl_base::{Bytes, NoMemory};
use std::alloc::Global;
use std::collections::VecDeque;
use std::marker::Model;

/// The messages that services offered and that the log doesn't hold yet. Contracts see a list of offers, one for each
/// service.
#[derive(Drop)]
pub struct Pending {
    services: Vec<Offers>,
}

impl Model for Pending {
    ghost use Rattle.pending_messages.specs.Pending.{PendingTable};

    ghost Value = { PendingTable };

    ghost view = { λ p. p.services.items };
}

impl Pending {
    /// No offers of so many services.
    pub fn new(alloc: Global, services: u8) -> Result<Pending, NoMemory>
        ensures { IfOk result (λ p. p ≡ first_pending services) }
    {
        let mut list = Vec::new(alloc);
        for _ in 0..services {
            match list.push(Offers::new(alloc)) {
                Ok(()) => {}
                Err(_) => return Err(NoMemory),
            }
        }
        Ok(Pending { services: list })
    }

    /// One more service, as a snapshot has it: so many of its messages were appended, and these payloads wait.
    pub fn restore(&mut self, appended: u64, waiting: VecDeque<Bytes>) -> Result<(), NoMemory>
        requires { appended + length waiting.items ≤ 2 ^ 47 }
        ensures ok { OnOk result (self.new ≡ self.old ++ offers_of appended waiting.items ∷ []) }
        ensures err { OnErr result (self.new ≡ self.old) }
    {
        match self.services.push(Offers::restored(appended, waiting)) {
            Ok(()) => Ok(()),
            Err(_) => Err(NoMemory),
        }
    }

    /// How many messages of a service were appended.
    pub fn appended_count(&self, service: u8) -> u64
        requires { service < length self.now }
        ensures { result ≡ (offers_at service self.now).appended }
    {
        self.services[service as usize].appended_count()
    }

    /// The payloads of a service that wait, in order.
    pub fn waiting(&self, service: u8) -> &VecDeque<Bytes>
        requires { service < length self.now }
        ensures { result.now.items ≡ (offers_at service self.now).waiting }
    {
        self.services[service as usize].waiting()
    }

    /// How many services there are.
    pub fn len(&self) -> usize
        ensures { result ≡ length self.now }
    {
        self.services.as_slice().len()
    }

    /// The service offered fewer than 2^47 messages.
    pub fn has_room(&self, service: u8) -> bool
        requires { service < length self.now }
        ensures { result ≡ nat_lt (offered_of (offers_at service self.now)) (2 ^ 47) }
    {
        self.services[service as usize].has_room()
    }

    /// A second list that is equal to this one.
    pub fn copy(&self) -> Result<Pending, NoMemory>
        ensures { IfOk result (λ p. p ≡ self.now) }
    {
        let alloc = *self.services.allocator();
        let mut copies = Vec::new(alloc);
        for offers in self.services.iter() {
            match copies.push(offers.copy(alloc)?) {
                Ok(()) => {}
                Err(_) => return Err(NoMemory),
            }
        }
        Ok(Pending { services: copies })
    }

    /// Takes an offer of a service, and gives its number. Where there is no memory nothing changes.
    pub fn offered(&mut self, service: u8, payload: Bytes) -> Result<i64, NoMemory>
        requires service { service < length self.old }
        requires payload { length payload ≤ 16384 }
        requires room { offered_of (offers_at service self.old) < 2 ^ 47 }
        ensures state { OnOk result (self.new ≡ at_service service (λ o. offered o payload) self.old) }
        ensures number { IfOk result (λ n. n ≡ pos (offered_of (offers_at service self.old) + 1)) }
        ensures err { OnErr result (self.new ≡ self.old) }
    {
        self.services[service as usize].offered(payload)
    }

    /// One more message of a service was appended. True exactly where one was waiting; else nothing changes.
    pub fn appended(&mut self, service: u8) -> bool
        requires { service < length self.old }
        ensures state { self.new ≡ at_service service appended_one self.old }
        ensures told { result ≡ is_waiting (offers_at service self.old) }
    {
        self.services[service as usize].appended()
    }

    /// The first message of a service that waits, with its number. None exactly where every one was appended.
    pub fn next(&self, service: u8) -> Option<(i64, &Bytes)>
        requires { service < length self.now }
        ensures { option_map (λ n. (n.0, n.1.now)) result ≡ next_of (offers_at service self.now) }
    {
        self.services[service as usize].next()
    }
}
