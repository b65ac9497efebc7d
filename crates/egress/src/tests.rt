// Lists by stream, and what clients learn.
ghost use Rattle.std.specs.Prelude.{◌≤◌};

use crate::{Egress, Known, Sent, error, redirect};
use cl_base::{Bytes, NoMemory};
use sbe_client::{Egress as Message, encode_egress};
use std::alloc::Global;
use std::test::Fail;

// A session event of one of the five codes.
fn event(alloc: Global, session: i64, term: i64, code: u8) -> Result<Bytes, NoMemory>
    requires { code ≤ 4 }
{
    let event = Message::SessionEvent {
        session,
        corr: 1,
        term,
        leader: 0,
        code,
    };
    encode_egress(alloc, &event)
}

fn send(egress: &mut Egress, stream: i32, bytes: Bytes) -> Result<(), NoMemory> {
    egress.send(Sent {
        stream,
        entry: None,
        service: None,
        number: 0,
        bytes,
    })
}

#[test]
fn a_client_knows_its_last_session_and_that_one_s_last_term(rt: HostRuntime) -> Result<(), Fail> {
    let a = rt.alloc();
    let mut egress = Egress::new(a);
    assert!(rt;
        egress.known(0)
            == Known {
                session: -1,
                term: -1
            }
    );
    send(&mut egress, 0, redirect(a, 1, 4, 2)?)?;
    assert!(rt;
        egress.known(0)
            == Known {
                session: -1,
                term: -1
            }
    );
    send(&mut egress, 0, event(a, 7, 1, 0)?)?;
    assert!(rt;
        egress.known(0)
            == Known {
                session: 7,
                term: 1
            }
    );
    for (session, term, known) in [(8, 2, 1), (7, 3, 3)] {
        let news = Message::NewLeader {
            term,
            session,
            leader: 1,
        };
        send(&mut egress, 0, encode_egress(a, &news)?)?;
        assert!(rt;
            egress.known(0)
                == Known {
                    session: 7,
                    term: known
                }
        );
    }
    let message = Message::Message {
        term: 9,
        session: 9,
        stamp: 0,
        payload: Bytes::of(a, b"x")?,
    };
    send(&mut egress, 0, encode_egress(a, &message)?)?;
    send(&mut egress, 0, event(a, 7, 5, 4)?)?;
    send(&mut egress, 0, Bytes::of(a, b"")?)?;
    send(&mut egress, 1, event(a, 9, 9, 0)?)?;
    assert!(rt;
        egress.known(0)
            == Known {
                session: 7,
                term: 3
            }
    );
    assert!(rt;
        egress.known(1)
            == Known {
                session: 9,
                term: 9
            }
    );
    assert!(rt;
        egress.list(0).len() == 7 && egress.list(1).len() == 1 && egress.list(2).is_empty()
    );
    Ok(())
}

#[test]
fn streams_rise(rt: HostRuntime) -> Result<(), Fail> {
    let a = rt.alloc();
    let mut egress = Egress::new(a);
    for stream in [3, -2_147_483_648, 2_147_483_647, 0, -1, 3] {
        send(&mut egress, stream, Bytes::of(a, b"")?)?;
    }
    let mut seen = Vec::new(a);
    for stream in egress.streams() {
        seen.push((stream.number(), stream.sent().len()))?;
    }
    assert!(rt;
        seen.as_slice()
            == [
                (-2_147_483_648, 1),
                (-1, 1),
                (0, 1),
                (3, 2),
                (2_147_483_647, 1)
            ]
            .as_slice()
    );
    Ok(())
}

#[test]
fn direct_answers_are_spelled(rt: HostRuntime) -> Result<(), Fail> {
    let a = rt.alloc();
    let redirected: [u8; 44] = [
        32, 0, 2, 0, 111, 0, 0, 0, 255, 255, 255, 255, 255, 255, 255, 255, 1, 0, 0, 0, 0, 0, 0, 0,
        0, 0, 0, 0, 0, 0, 0, 0, 0, 0, 0, 0, 2, 0, 0, 0, 0, 0, 0, 0,
    ];
    assert!(rt; redirect(a, 1, 0, 0)?.as_slice() == redirected.as_slice());
    assert!(rt; error(a, 1, 0, 0)?.as_slice().get(36).copied() == Some(1));
    Ok(())
}
