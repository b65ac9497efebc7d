// What stands behind the blocks of packets.
ghost use Rattle.std.specs.Prelude.{◌≡◌, ◌<◌, ◌≤◌, ◌^◌};
ghost use Rattle.wire_prims.specs.Strict.{rules_size};
ghost use Rattle.cluster_backup.specs.Templates.{rules_in, block, least, most};

use wire_prims::Rule;

/// What the parts behind the block of a packet are. The last number of the block says how many there are.
#[derive(Clone, Copy, Debug, PartialEq, Eq)]
pub enum Part {
    /// Events of a log: 1 to 64.
    Event,
    /// Pieces of a snapshot: fewer than 2^31.
    Piece,
}

/// A term, a position, a stamp or a number of entries: 0 to 2^62.
pub const NUMBER: Rule = Rule::Wide {
    low: 0,
    high: 1 << 62,
};

/// How many events there are.
const EVENTS: Rule = Rule::Narrow { low: 1, high: 64 };

/// How many pieces there are.
const PIECES: Rule = Rule::Narrow {
    low: 0,
    high: i32::MAX,
};

static LOG: [Rule; 2] = [NUMBER, EVENTS];

static SNAPSHOT: [Rule; 6] = [
    Rule::AnyWide,
    NUMBER,
    NUMBER,
    NUMBER,
    Rule::AnyNarrow,
    PIECES,
];

impl Part {
    /// Which numbers the block before such parts has.
    pub fn rules(self) -> &'static [Rule]
        ensures rules { result.now ≡ rules_in self }
        ensures small { rules_size result.now < 2 ^ 16 }
    {
        match self {
            Part::Event => &LOG,
            Part::Piece => &SNAPSHOT,
        }
    }

    /// How many bytes that block has.
    pub fn block(self) -> usize
        ensures size { result ≡ block self }
        ensures small { result ≤ 40 }
    {
        match self {
            Part::Event => 12,
            Part::Piece => 40,
        }
    }

    /// The least number of such parts.
    pub fn least(self) -> i32
        ensures { result ≡ least self }
    {
        match self {
            Part::Event => 1,
            Part::Piece => 0,
        }
    }

    /// The greatest number of such parts.
    pub fn most(self) -> i32
        ensures { result ≡ most self }
    {
        match self {
            Part::Event => 64,
            Part::Piece => i32::MAX,
        }
    }
}
