// The rule of a lane's queue: a job that is lent is in it, or with the lane's thread, as it was or when it ran.
use crate::job::Job;
use crossbeam_queue::protocol::{Lesson, Outcome, Protocol, Split};
use crossbeam_queue::{Pass, RuledArrayQueue};
use service_container::Served;

/// What goes through a lane's queue.
#[derive(Drop)]
pub enum Message {
    /// A job that is lent.
    Job(Job),
    /// What it became.
    Done(Served),
}

/// What a pass may do, what it has lent, and what it has taken out. No value of it is made.
pub struct Hold {
    pub drives: bool,
    pub works: bool,
    pub lent: Option<Served>,
    pub has: Option<Message>,
}

/// The rule.
pub struct OneJob;

impl Protocol<Message, Hold> for OneJob {
    ghost use Rattle.std.specs.Prelude.{true, None};
    ghost use Rattle.lanes.specs.Lent.{hold, Lent};

    ghost holds = { Lent };

    ghost first = { hold true true None None };
}

/// One pass drives, and the other works.
pub struct Roles;

impl Split<Hold> for Roles {
    ghost use Rattle.std.specs.Prelude.{true, false, None};
    ghost use Rattle.lanes.specs.Lent.{hold};

    ghost left = { λ v. hold true false v.lent None };

    ghost right = { λ v. hold false true None v.has };
}

/// The driver lends a job.
pub struct Lends;

impl Outcome<Message, Hold> for Lends {
    ghost use Rattle.std.specs.Prelude.{◌≡◌};
    ghost use Rattle.lanes.specs.Lent.{hold, job_of};

    ghost then = { λ v x w. w ≡ hold v.drives v.works (job_of x) v.has };
}

impl Lesson<Message, Hold> for Lends {
    ghost use Rattle.std.specs.Prelude.{◌≡◌, []};

    ghost fact = { λ v items. items ≡ [] };
}

/// The driver takes it back.
pub struct TakesBack;

impl Outcome<Message, Hold> for TakesBack {
    ghost use Rattle.std.specs.Prelude.{◌≡◌, None};
    ghost use Rattle.lanes.specs.Lent.{hold, StandsFor};

    ghost then = { λ v x w. StandsFor v.lent x × (w ≡ hold v.drives v.works None v.has) };
}

/// The thread takes what is there.
pub struct Takes;

impl Outcome<Message, Hold> for Takes {
    ghost use Rattle.std.specs.Prelude.{◌≡◌, Some};
    ghost use Rattle.lanes.specs.Lent.{hold};

    ghost then = { λ v x w. w ≡ hold v.drives v.works v.lent (Some x) };
}

/// The thread gives it back, when it ran.
pub struct GivesBack;

impl Outcome<Message, Hold> for GivesBack {
    ghost use Rattle.std.specs.Prelude.{◌≡◌, None};
    ghost use Rattle.lanes.specs.Lent.{hold};

    ghost then = { λ v x w. w ≡ hold v.drives v.works v.lent None };
}

impl Lesson<Message, Hold> for GivesBack {
    ghost use Rattle.std.specs.Prelude.{◌≡◌, []};

    ghost fact = { λ v items. items ≡ [] };
}

/// A lane's queue, of one place.
pub type Line = RuledArrayQueue<Message, Hold, OneJob>;

/// What a thread knows of a lane's queue.
pub type LinePass = Pass<Message, Hold>;
