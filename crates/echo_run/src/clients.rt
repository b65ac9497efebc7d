// What clients send to the member.
ghost use Rattle.std.specs.Prelude.{◌≡◌, ◌++◌, ◌∷◌, [], OnOk, ◌<◌};
ghost use Rattle.echo_run.specs.World.{known_by, learns, direct, answers, number_of};

use crate::{Origin, Outcome, Sent};
use cl_base::{List, NoMemory};
use election::Election;
use sbe_client::Egress;

/// The term and the session that a client knows.
#[derive(Clone, Copy, Debug, PartialEq, Eq)]
pub(crate) struct Known {
    pub term: i64,
    pub session: i64,
}

fn learns(known: Known, egress: &Egress) -> Known
    ensures { result ≡ learns known egress.now }
{
    match egress {
        Egress::SessionEvent {
            session,
            term,
            code,
            ..
        } => {
            if *code == 0 {
                Known {
                    term: *term,
                    session: *session,
                }
            } else {
                known
            }
        }
        Egress::NewLeader { term, session, .. } => {
            if *session == known.session {
                Known {
                    term: *term,
                    session: known.session,
                }
            } else {
                known
            }
        }
        Egress::Message { .. } => known,
    }
}

/// What a client knows by the records that were sent to it.
pub(crate) fn known_by(client: u64, sent: &[Sent]) -> Known
    requires { client < 64 }
    ensures { result ≡ known_by client sent.now }
{
    let mut known = Known {
        term: -1,
        session: -1,
    };
    for s in sent {
        if s.stream as i64 == client as i64 {
            known = learns(known, &s.egress);
        }
    }
    known
}

fn leader_number(leader: Option<u8>) -> i32
    ensures { result ≡ number_of leader }
{
    match leader {
        Some(id) => id as i32,
        None => -1,
    }
}

fn put_direct(
    client: u64,
    corr: i64,
    election: &Election,
    code: u8,
    sent: &mut List<Sent>,
) -> Result<(), NoMemory>
    requires { client < 64 }
    ensures { OnOk result (sent.new ≡ sent.old ++ direct client corr election.now code ∷ []) }
{
    sent.push(Sent {
        stream: client as i32,
        origin: Origin::Direct,
        egress: Egress::SessionEvent {
            session: -1,
            corr,
            term: election.term,
            leader: leader_number(election.leader),
            code,
        },
    })
}

/// A connect that is refused is answered at once.
pub(crate) fn put_answer(
    client: u64,
    corr: i64,
    election: &Election,
    outcome: Outcome,
    sent: &mut List<Sent>,
) -> Result<(), NoMemory>
    requires { client < 64 }
    ensures { OnOk result (sent.new ≡ sent.old ++ answers client corr election.now outcome) }
{
    match outcome {
        Outcome::Accepted { .. } => Ok(()),
        Outcome::NotLeader { .. } => put_direct(client, corr, election, 2, sent),
        _ => put_direct(client, corr, election, 1, sent),
    }
}
