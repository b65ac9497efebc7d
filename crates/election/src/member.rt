// What a member knows of the election.
ghost use Rattle.std.specs.Prelude.{◌≡◌, ◌≤◌, ◌<◌, ◌^◌};
ghost use Rattle.election.specs.Rows.{begins, enter_canvass, is_running};

use cl_base::limits::{CANVASS_MS, CANVASS_STEP_MS};

/// The states of a member.
#[derive(Clone, Copy, Debug, PartialEq, Eq)]
pub enum State {
    /// Just started.
    Init,
    /// It hears the others' logs.
    Canvass,
    /// It is about to ask for votes.
    Nominate,
    /// It has asked for votes.
    CandidateBallot,
    /// It has voted for another member.
    FollowerBallot,
    /// It is elected, and its new term event isn't in its log yet.
    LeaderInit,
    /// It leads.
    LeaderReady,
    /// It has a leader, and its log isn't a prefix of the leader's yet.
    FollowerLogReplication,
    /// It follows a leader.
    FollowerReady,
    /// It is stopped.
    Closed,
}

/// What the Canvass of another member said.
#[derive(Clone, Copy, Debug, PartialEq, Eq)]
pub struct Heard {
    /// The last term of that member's log, -1 to 2^62.
    pub term: i64,
    /// The place of that log in bytes, 0 to 2^62.
    pub place: u64,
    /// The candidate term of that member, -1 to 2^62.
    pub candidate: i64,
}

/// The values of a member that the rows of the election read and write. The candidate term and the member voted for
/// are those on its disk.
#[derive(Clone, Copy, Debug, PartialEq, Eq)]
pub struct Election {
    /// This member, 0 to 4.
    pub id: u8,
    /// The members of the cluster, 1 to 5.
    pub members: u8,
    /// -1 to 2^62.
    pub candidate: i64,
    /// The member voted for in the candidate term.
    pub voted: Option<u8>,
    pub state: State,
    /// The leadership term that it is in, -1 for none.
    pub term: i64,
    /// The leader of that term.
    pub leader: Option<u8>,
    /// When the state ends if nothing comes, in ms.
    pub deadline: u64,
    /// When it speaks next, in ms.
    pub next: u64,
    /// The last Canvass of each member since it entered CANVASS.
    pub heard: [Option<Heard>; 5],
    /// The members that voted for it in the candidate term.
    pub votes: [bool; 5],
}

impl Election {
    /// A member that starts, in INIT, with the candidate term and the member voted for that are on its disk.
    pub fn new(id: u8, members: u8, candidate: i64, voted: Option<u8>) -> Election
        ensures { result ≡ begins id members candidate voted }
    {
        Election {
            id,
            members,
            candidate,
            voted,
            state: State::Init,
            term: -1,
            leader: None,
            deadline: 0,
            next: 0,
            heard: [None; 5],
            votes: [false; 5],
        }
    }

    /// Whether the member runs.
    pub fn is_running(&self) -> bool
        ensures { result ≡ is_running self.now.state }
    {
        !matches!(self.state, State::Closed)
    }

    /// Enters CANVASS at `now` (ms): no term, no leader, nothing heard.
    pub fn enter_canvass(&mut self, now: u64)
        requires { now ≤ 2 ^ 60 }
        ensures { self.new ≡ enter_canvass self.old now }
    {
        self.state = State::Canvass;
        self.term = -1;
        self.leader = None;
        self.heard = [None; 5];
        self.deadline = now + CANVASS_MS + CANVASS_STEP_MS * self.id as u64;
        self.next = now;
    }
}
