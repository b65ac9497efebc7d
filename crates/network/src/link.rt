// One way from a member to another.
ghost use Rattle.std.specs.Prelude.{◌≡◌, true, false, OnOk, IfOk, option_copied};
ghost use Rattle.network.specs.Net.{open_link, kept_more, latest_of, with_cut};

use cl_base::limits::REPLAY_LIMIT;
use cl_base::{Bytes, NoMemory};
use std::alloc::Global;
use std::collections::VecDeque;
use std::marker::Model;

/// One way from a member to another: whether its packets are dropped, and the latest that were sent on it.
#[derive(Drop)]
pub struct Link {
    cut: bool,
    kept: VecDeque<Bytes>,
}

impl Model for Link {
    ghost use Rattle.network.specs.Net.{Way};

    ghost Value = { Way };

    ghost view = { λ l. record { cut = l.cut; kept = l.kept.items } };
}

impl Link {
    /// A link that is open, on which nothing was sent. It takes no memory.
    pub fn new(alloc: Global) -> Link
        ensures { result ≡ open_link }
    {
        Link {
            cut: false,
            kept: VecDeque::new(alloc),
        }
    }

    /// Its packets are dropped at delivery.
    pub fn is_cut(&self) -> bool
        ensures { result ≡ self.now.cut }
    {
        self.cut
    }

    /// From now on its packets are dropped at delivery, or no longer.
    pub fn set_cut(&mut self, cut: bool)
        ensures { self.new ≡ with_cut cut self.old }
    {
        self.cut = cut;
    }

    /// Keeps a packet that was sent, and forgets the oldest where 256 are kept.
    pub fn keep(&mut self, bytes: Bytes) -> Result<(), NoMemory>
        ensures { OnOk result (self.new ≡ kept_more bytes self.old) }
    {
        if self.kept.len() as u64 >= REPLAY_LIMIT {
            self.kept.pop_front();
        }
        match self.kept.push_back(bytes) {
            Ok(()) => Ok(()),
            Err(_) => Err(NoMemory),
        }
    }

    /// The `back`-th latest packet that is kept, 1 being the latest. None where fewer are kept.
    pub fn latest(&self, back: u64) -> Option<&Bytes>
        ensures { option_copied result ≡ latest_of back self.now }
    {
        let kept = self.kept.len() as u64;
        if back == 0 || back > kept {
            return None;
        }
        self.kept.get((kept - back) as usize)
    }
}
