// What records say to a client.
ghost use Rattle.std.specs.Prelude.{◌≡◌, ◌<◌, ◌≤◌, IfSome};
ghost use Rattle.cluster_client.specs.Seen.{member_named, IsLedByMember};
ghost use Rattle.cluster_client.specs.Calls.{told, took_open};

use crate::{State, Took};
use sbe_client::Egress;

/// The member of this number, where it is one of so many.
pub fn member_named(members: u8, number: i32) -> Option<u8>
    ensures member { result ≡ member_named members number }
    ensures within { IfSome result (λ member. member < members) }
{
    if 0 <= number && number < members as i32 {
        Some(number as u8)
    } else {
        None
    }
}

/// What a record makes of an open session: its close ends it, and a new leader of a greater term leads it from there on.
pub fn told(members: u8, session: i64, term: i64, leader: u8, message: &Egress) -> State
    requires some { 1 ≤ members }
    requires led { leader < members }
    ensures next { result ≡ told members session term leader message.now }
    ensures led { IsLedByMember members result }
{
    let open = State::Open {
        session,
        term,
        leader,
    };
    match message {
        Egress::SessionEvent {
            session: named,
            code,
            ..
        } if *named == session && *code == 4 => State::Closed,
        Egress::NewLeader {
            term: led,
            session: named,
            leader: leads,
        } if *named == session && *led > term => State::Open {
            session,
            term: *led,
            leader: member_named(members, *leads).unwrap_or(0),
        },
        _ => open,
    }
}

/// What the user of an open session gets of a record: a message of the session in this term.
pub fn taken(session: i64, term: i64, message: Egress) -> Took
    ensures { result ≡ took_open session term message }
{
    match message {
        Egress::Message {
            term: sent_in,
            session: named,
            payload,
            ..
        } if named == session && sent_in == term => Took::Handed {
            term: sent_in,
            payload,
        },
        _ => Took::Ignored,
    }
}
