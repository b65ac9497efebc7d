// The first words of orders.
ghost use Rattle.std.specs.Prelude.{◌≡◌};
ghost use Rattle.scenario.specs.Keywords.{single_text, double_text, keyword_text, keyword_of, keywords};
ghost use Rattle.scenario.specs.Spelling.{single_order, double_order};

use crate::order::Order;

/// The first word of an order that one number follows.
#[derive(Clone, Copy, Debug, PartialEq, Eq)]
pub enum Single {
    Members,
    Rounds,
    Quiet,
    Action,
    Stop,
    Start,
    Invalidate,
    Join,
}

impl Single {
    /// How it is spelled.
    pub fn text(self) -> &'static str
        ensures { result.now ≡ single_text self }
    {
        match self {
            Single::Members => "members",
            Single::Rounds => "rounds",
            Single::Quiet => "quiet",
            Single::Action => "action",
            Single::Stop => "stop",
            Single::Start => "start",
            Single::Invalidate => "invalidate",
            Single::Join => "join",
        }
    }

    /// The order of a number.
    pub fn order(self, line: u64, number: u64) -> Order
        ensures { result ≡ single_order line self number }
    {
        let (members, rounds, member, client) = (number, number, number, number);
        match self {
            Single::Members => Order::Members { line, members },
            Single::Rounds => Order::Rounds { line, rounds },
            Single::Quiet => Order::Quiet { line, rounds },
            Single::Action => Order::Action { line, member },
            Single::Stop => Order::Stop { line, member },
            Single::Start => Order::Start { line, member },
            Single::Invalidate => Order::Invalidate { line, member },
            Single::Join => Order::Join { line, client },
        }
    }
}

/// The first word of an order that two numbers follow.
#[derive(Clone, Copy, Debug, PartialEq, Eq)]
pub enum Double {
    Connect,
    Close,
    KeepAlive,
    Cut,
    Heal,
    Lose,
}

impl Double {
    /// How it is spelled.
    pub fn text(self) -> &'static str
        ensures { result.now ≡ double_text self }
    {
        match self {
            Double::Connect => "connect",
            Double::Close => "close",
            Double::KeepAlive => "keepalive",
            Double::Cut => "cut",
            Double::Heal => "heal",
            Double::Lose => "lose",
        }
    }

    /// The order of two numbers.
    pub fn order(self, line: u64, first: u64, second: u64) -> Order
        ensures { result ≡ double_order line self first second }
    {
        let (client, member) = (first, second);
        let (from, to) = (first, second);
        match self {
            Double::Connect => Order::Connect {
                line,
                client,
                member,
            },
            Double::Close => Order::Close {
                line,
                client,
                member,
            },
            Double::KeepAlive => Order::KeepAlive {
                line,
                client,
                member,
            },
            Double::Cut => Order::Cut { line, from, to },
            Double::Heal => Order::Heal { line, from, to },
            Double::Lose => Order::Lose { line, from, to },
        }
    }
}

/// The first word of an order.
#[derive(Clone, Copy, Debug, PartialEq, Eq)]
pub enum Keyword {
    One(Single),
    Two(Double),
    Service,
    Send,
    SendHex,
    Raw,
    Fuse,
    Replay,
    Free,
    Offer,
    Backup,
}

impl Keyword {
    /// All of them.
    fn all() -> [Keyword; 23]
        ensures { result ≡ keywords }
    {
        [
            Keyword::One(Single::Members),
            Keyword::Service,
            Keyword::One(Single::Rounds),
            Keyword::One(Single::Quiet),
            Keyword::Two(Double::Connect),
            Keyword::Send,
            Keyword::SendHex,
            Keyword::Two(Double::Close),
            Keyword::Two(Double::KeepAlive),
            Keyword::Raw,
            Keyword::One(Single::Action),
            Keyword::One(Single::Stop),
            Keyword::One(Single::Start),
            Keyword::One(Single::Invalidate),
            Keyword::Fuse,
            Keyword::Two(Double::Cut),
            Keyword::Two(Double::Heal),
            Keyword::Two(Double::Lose),
            Keyword::Replay,
            Keyword::Free,
            Keyword::One(Single::Join),
            Keyword::Offer,
            Keyword::Backup,
        ]
    }

    /// The keyword that a word spells.
    #[tactic(auto, unfolding(crate::specs::Keywords::keyword_of))]
    pub fn of(word: &[u8]) -> Option<Keyword>
        ensures { result ≡ keyword_of word.now }
    {
        let all = Keyword::all();
        all.iter()
            .copied()
            .find(|keyword| keyword.text().as_bytes() == word)
    }

    /// How it is spelled.
    pub fn text(self) -> &'static str
        ensures { result.now ≡ keyword_text self }
    {
        match self {
            Keyword::One(single) => single.text(),
            Keyword::Two(double) => double.text(),
            Keyword::Service => "service",
            Keyword::Send => "send",
            Keyword::SendHex => "sendhex",
            Keyword::Raw => "bytes",
            Keyword::Fuse => "fuse",
            Keyword::Replay => "replay",
            Keyword::Free => "free",
            Keyword::Offer => "offer",
            Keyword::Backup => "backup",
        }
    }
}
