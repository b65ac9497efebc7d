// The time of a run.
ghost use Rattle.std.specs.Prelude.{◌≡◌, ◌≤◌, ◌<◌, ◌*◌, ◌^◌, ◌+◌};

use cl_base::limits::{ROUND_MS, ROUNDS_LIMIT};

/// The time of a run: rounds of 10 ms, of which a scenario has at most 100,000.
#[derive(Debug, Drop)]
pub(crate) struct Clock {
    rounds: u64,
    ghost bounded: { rounds ≤ 100000 },
}

impl Clock {
    pub(crate) fn new() -> Clock
        ensures { result.rounds ≡ 0 }
    {
        Clock { rounds: 0 }
    }

    /// The time, in ms.
    pub(crate) fn now(&self) -> u64
        ensures time { result ≡ 10 * self.now.rounds }
        ensures within { result ≤ 2 ^ 20 }
    {
        ROUND_MS * self.rounds
    }

    /// A round begins, up to the most that a scenario has.
    pub(crate) fn tick(&mut self)
        ensures below { self.old.rounds < 100000 → self.new.rounds ≡ self.old.rounds + 1 }
        ensures at_most { 100000 ≤ self.old.rounds → self.new.rounds ≡ self.old.rounds }
    {
        if self.rounds < ROUNDS_LIMIT {
            self.rounds += 1;
        }
    }
}
