// The offers of one service.
ghost use Rattle.std.specs.Prelude.{◌≡◌, ◌≤◌, ◌<◌, ◌+◌, ◌^◌, ◌≢◌, [], OnOk, OnErr, IfOk, length, pos, not, nat_lt, option_map};
ghost use Rattle.pending_messages.specs.Pending.{no_offers, offered_of, offered, appended_one, next_of, is_waiting, offers_of};

use cl_base::{Bytes, NoMemory};
use std::alloc::Global;
use std::collections::VecDeque;
use std::marker::Model;

/// The most messages that a service may offer.
const OFFERS_LIMIT: u64 = 140_737_488_355_328;

/// How many messages of a service were appended, and the payloads of those offered above that number.
#[derive(Drop)]
pub struct Offers {
    appended: u64,
    waiting: VecDeque<Bytes>,
}

impl Model for Offers {
    ghost use Rattle.pending_messages.specs.Pending.{ServiceOffers, IsWithin, offers_of};

    ghost Value = { ServiceOffers };

    ghost view = { λ o. offers_of o.appended o.waiting.items };

    ghost invariant = { λ o. IsWithin (offers_of o.appended o.waiting.items) };
}

impl Offers {
    pub fn new(alloc: Global) -> Offers
        ensures { result ≡ no_offers }
    {
        Offers {
            appended: 0,
            waiting: VecDeque::new(alloc),
        }
    }

    /// The offers that a snapshot has: so many were appended, and these payloads wait.
    pub fn restored(appended: u64, waiting: VecDeque<Bytes>) -> Offers
        requires { appended + length waiting.items ≤ 2 ^ 47 }
        ensures { result ≡ offers_of appended waiting.items }
    {
        Offers { appended, waiting }
    }

    /// How many were appended.
    pub fn appended_count(&self) -> u64
        ensures { result ≡ self.now.appended }
    {
        self.appended
    }

    /// The payloads that wait, in order.
    pub fn waiting(&self) -> &VecDeque<Bytes>
        ensures { result.now.items ≡ self.now.waiting }
    {
        &self.waiting
    }

    /// Fewer than 2^47 were offered.
    pub fn has_room(&self) -> bool
        ensures { result ≡ nat_lt (offered_of self.now) (2 ^ 47) }
    {
        self.appended + (self.waiting.len() as u64) < OFFERS_LIMIT
    }

    /// Takes an offer, and gives its number.
    pub fn offered(&mut self, payload: Bytes) -> Result<i64, NoMemory>
        requires payload { length payload ≤ 16384 }
        requires room { offered_of self.old < 2 ^ 47 }
        ensures state { OnOk result (self.new ≡ offered self.old payload) }
        ensures number { IfOk result (λ n. n ≡ pos (offered_of self.old + 1)) }
        ensures err { OnErr result (self.new ≡ self.old) }
    {
        match self.waiting.push_back(payload) {
            Ok(()) => Ok((self.appended + self.waiting.len() as u64) as i64),
            Err(_) => Err(NoMemory),
        }
    }

    /// One more was appended. True exactly where one was waiting; else nothing changes.
    pub fn appended(&mut self) -> bool
        ensures state { self.new ≡ appended_one self.old }
        ensures told { result ≡ is_waiting self.old }
    {
        match self.waiting.pop_front() {
            Some(_) => {
                self.appended += 1;
                true
            }
            None => false,
        }
    }

    /// A second value that is equal to this one.
    pub fn copy(&self, alloc: Global) -> Result<Offers, NoMemory>
        ensures { IfOk result (λ o. o ≡ self.now) }
    {
        let waiting = copied(alloc, &self.waiting)?;
        Ok(Offers {
            appended: self.appended,
            waiting,
        })
    }

    /// The first that waits, with its number.
    pub fn next(&self) -> Option<(i64, &Bytes)>
        ensures { option_map (λ n. (n.0, n.1.now)) result ≡ next_of self.now }
    {
        match self.waiting.front() {
            Some(payload) => Some(((self.appended + 1) as i64, payload)),
            None => None,
        }
    }
}

fn copied(alloc: Global, payloads: &VecDeque<Bytes>) -> Result<VecDeque<Bytes>, NoMemory>
    ensures { IfOk result (λ q. q.items ≡ payloads.now.items) }
{
    let mut copies = VecDeque::new(alloc);
    for payload in payloads.iter() {
        match copies.push_back(payload.copy()?) {
            Ok(()) => {}
            Err(_) => return Err(NoMemory),
        }
    }
    Ok(copies)
}
