// Which events there are, and which numbers their blocks have.
ghost use Rattle.std.specs.Prelude.{◌≡◌, ◌<◌, ◌^◌, Some};
ghost use Rattle.wire_prims.specs.Strict.{rules_size};
ghost use Rattle.sbe_events.specs.Templates.{template_of, number_of, rules_of, tail_of};

use cl_base::limits::{CHANNEL_LIMIT, PAYLOAD_LIMIT};
use wire_prims::{Rule, Tail};

/// The templates of the log's events.
#[derive(Clone, Copy, Debug, PartialEq, Eq)]
pub enum Template {
    Message,
    Timer,
    Opened,
    Closed,
    Snapshot,
    Term,
}

/// A term, a position or a stamp: 0 to 2^62.
const NUMBER: Rule = Rule::Wide {
    low: 0,
    high: 1 << 62,
};

/// A client's session: at least 1.
const CLIENT: Rule = Rule::Wide {
    low: 1,
    high: i64::MAX,
};

/// Term, session and stamp.
static MESSAGE: [Rule; 3] = [NUMBER, Rule::Sender, NUMBER];

/// Term, correlation id and stamp.
static TIMER: [Rule; 3] = [NUMBER, Rule::AnyWide, NUMBER];

/// Term, correlation id, session, stamp and response stream.
static OPENED: [Rule; 5] = [NUMBER, Rule::AnyWide, CLIENT, NUMBER, Rule::AnyNarrow];

/// Term, session, stamp and reason.
static CLOSED: [Rule; 4] = [NUMBER, CLIENT, NUMBER, Rule::Narrow { low: 0, high: 2 }];

/// Term, position, stamp and action.
static SNAPSHOT: [Rule; 4] = [NUMBER, NUMBER, NUMBER, Rule::Narrow { low: 2, high: 2 }];

/// Term, position, stamp, the term's base, the leader and the log's session.
static TERM: [Rule; 6] = [
    NUMBER,
    NUMBER,
    NUMBER,
    Rule::Repeat { back: 16 },
    Rule::Narrow { low: 0, high: 4 },
    Rule::Narrow { low: 1, high: 1 },
];

impl Template {
    /// The template of a number.
    pub fn of(number: u16) -> Option<Template>
        ensures { result ≡ template_of number }
    {
        match number {
            1 => Some(Template::Message),
            20 => Some(Template::Timer),
            21 => Some(Template::Opened),
            22 => Some(Template::Closed),
            23 => Some(Template::Snapshot),
            24 => Some(Template::Term),
            _ => None,
        }
    }

    /// Which numbers the block has.
    pub fn rules(self) -> &'static [Rule]
        ensures rules { result.now ≡ rules_of self }
        ensures small { rules_size result.now < 2 ^ 16 }
    {
        match self {
            Template::Message => &MESSAGE,
            Template::Timer => &TIMER,
            Template::Opened => &OPENED,
            Template::Closed => &CLOSED,
            Template::Snapshot => &SNAPSHOT,
            Template::Term => &TERM,
        }
    }

    /// What follows the block.
    pub fn tail(self) -> Tail
        ensures { result ≡ tail_of self }
    {
        match self {
            Template::Message => Tail::Rest {
                limit: PAYLOAD_LIMIT,
            },
            Template::Opened => Tail::Counted {
                limit: CHANNEL_LIMIT,
            },
            _ => Tail::Nothing,
        }
    }
}
