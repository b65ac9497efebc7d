// The image's queue, and its rule: what was fed is what was taken and then what the queue holds.
use cl_base::Entry;
use crossbeam_queue::protocol::{Join, Lesson, Outcome, Protocol, Split};
use crossbeam_queue::{Pass, RuledArrayQueue};
use std::collections::LinkedList;

// What a pass may do, what it has fed and what it has taken. No value of it is made.
pub struct Log {
    pub pushes: bool,
    pub pops: bool,
    pub fed: LinkedList<Entry>,
    pub taken: LinkedList<Entry>,
}

pub struct InOrder;

impl Protocol<Entry, Log> for InOrder {
    ghost use Rattle.std.specs.Prelude.{true, []};
    ghost use Rattle.commit_counter.specs.Line.{log, Relayed};

    ghost holds = { Relayed };

    ghost first = { log true true [] [] };
}

pub struct Roles;

impl Split<Log> for Roles {
    ghost use Rattle.std.specs.Prelude.{true, false, []};
    ghost use Rattle.commit_counter.specs.Line.{log};

    ghost left = { λ v. log true false v.fed [] };

    ghost right = { λ v. log false true [] v.taken };
}

impl Join<Log> for Roles {
    ghost use Rattle.std.specs.Prelude.{true, false, []};
    ghost use Rattle.commit_counter.specs.Line.{log};

    ghost both = { λ v w. log true true v.fed w.taken };

    ghost spent = { log false false [] [] };
}

pub struct Feeds;

impl Outcome<Entry, Log> for Feeds {
    ghost use Rattle.std.specs.Prelude.{◌≡◌, [], ◌∷◌, ◌++◌};
    ghost use Rattle.commit_counter.specs.Line.{log};

    ghost then = { λ v x w. w ≡ log v.pushes v.pops (v.fed ++ x ∷ []) v.taken };
}

impl Lesson<Entry, Log> for Feeds {
    ghost use Rattle.commit_counter.specs.Line.{Ends};

    ghost fact = { λ v items. Ends v.fed items };
}

pub struct Takes;

impl Outcome<Entry, Log> for Takes {
    ghost use Rattle.std.specs.Prelude.{◌≡◌, [], ◌∷◌, ◌++◌};
    ghost use Rattle.commit_counter.specs.Line.{log};

    ghost then = { λ v x w. w ≡ log v.pushes v.pops v.fed (v.taken ++ x ∷ []) };
}

impl Lesson<Entry, Log> for Takes {
    ghost use Rattle.commit_counter.specs.Line.{Begins};

    ghost fact = { λ v items. Begins v.taken items };
}

pub struct Total;

impl Lesson<Entry, Log> for Total {
    ghost use Rattle.std.specs.Prelude.{◌≡◌, ◌++◌};

    ghost fact = { λ v items. v.fed ≡ v.taken ++ items };
}

pub type Line = RuledArrayQueue<Entry, Log, InOrder>;

pub type LinePass = Pass<Entry, Log>;
