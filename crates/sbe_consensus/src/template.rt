// Which packets there are, and which numbers their blocks have.
ghost use Rattle.std.specs.Prelude.{◌≡◌, ◌<◌, ◌^◌, Some};
ghost use Rattle.wire_prims.specs.Strict.{rules_size};
ghost use Rattle.sbe_consensus.specs.Templates.{template_by, rules_of};

use wire_prims::Rule;

/// The templates of the packets.
#[derive(Clone, Copy, Debug, PartialEq, Eq)]
pub enum Template {
    Canvass,
    RequestVote,
    Vote,
    /// A leader's new term, in answer to a canvass.
    Answer,
    /// A leader's new term, announced.
    Announcement,
    Append,
    Commit,
    LogBatch,
}

/// A term, or a position in bytes: 0 to 2^62.
const NUMBER: Rule = Rule::Wide {
    low: 0,
    high: 1 << 62,
};

/// The term of a log's last entry: -1 to 2^62.
const LAST: Rule = Rule::Wide {
    low: -1,
    high: 1 << 62,
};

const ZERO: Rule = Rule::Wide { low: 0, high: 0 };

const NONE: Rule = Rule::Wide { low: -1, high: -1 };

/// What an announcement has as the term that was asked for.
const NOT_ASKED: Rule = Rule::Wide { low: -2, high: -2 };

const MEMBER: Rule = Rule::Narrow { low: 0, high: 4 };

const BIT: Rule = Rule::Narrow { low: 0, high: 1 };

const COUNT: Rule = Rule::Narrow { low: 1, high: 64 };

static CANVASS: [Rule; 4] = [LAST, NUMBER, LAST, MEMBER];

static REQUEST_VOTE: [Rule; 4] = [LAST, NUMBER, NUMBER, MEMBER];

static VOTE: [Rule; 6] = [NUMBER, LAST, NUMBER, MEMBER, MEMBER, BIT];

static ANSWER: [Rule; 6] = [LAST, NUMBER, LAST, NUMBER, NUMBER, MEMBER];

static ANNOUNCEMENT: [Rule; 6] = [NOT_ASKED, ZERO, NONE, ZERO, NUMBER, MEMBER];

static APPEND: [Rule; 3] = [NUMBER, NUMBER, MEMBER];

static COMMIT: [Rule; 3] = [NUMBER, NUMBER, MEMBER];

static LOG_BATCH: [Rule; 4] = [NUMBER, NUMBER, MEMBER, COUNT];

impl Template {
    /// The template of a number. A new term is an announcement or an answer.
    pub fn of(number: u16, announces: bool) -> Option<Template>
        ensures { result ≡ template_by number announces }
    {
        match number {
            50 => Some(Template::Canvass),
            51 => Some(Template::RequestVote),
            52 => Some(Template::Vote),
            53 => Some(if announces {
                Template::Announcement
            } else {
                Template::Answer
            }),
            54 => Some(Template::Append),
            55 => Some(Template::Commit),
            120 => Some(Template::LogBatch),
            _ => None,
        }
    }

    /// Which numbers the block has.
    pub fn rules(self) -> &'static [Rule]
        ensures rules { result.now ≡ rules_of self }
        ensures small { rules_size result.now < 2 ^ 16 }
    {
        match self {
            Template::Canvass => &CANVASS,
            Template::RequestVote => &REQUEST_VOTE,
            Template::Vote => &VOTE,
            Template::Answer => &ANSWER,
            Template::Announcement => &ANNOUNCEMENT,
            Template::Append => &APPEND,
            Template::Commit => &COMMIT,
            Template::LogBatch => &LOG_BATCH,
        }
    }
}
