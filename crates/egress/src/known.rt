// What a client learns from what is sent to it.
ghost use Rattle.std.specs.Prelude.{◌≡◌, IfOk};
ghost use Rattle.egress.specs.Streams.{none_known, learns, told};

use cl_base::NoMemory;
use sbe_client::{Egress, decode_egress};
use std::alloc::Global;
use wire_prims::{DecodeFault, get_u16};

/// The template of a service's message, from which a client learns nothing.
const MESSAGE: u16 = 1;

/// The session and the term that a client knows, -1 and -1 before it knows any.
#[derive(Clone, Copy, Debug, PartialEq, Eq)]
pub struct Known {
    pub session: i64,
    pub term: i64,
}

impl Known {
    /// Neither is known.
    pub fn none() -> Known
        ensures { result ≡ none_known }
    {
        Known {
            session: -1,
            term: -1,
        }
    }

    /// An open session tells both. A new leader of that session tells its term.
    fn told(self, message: &Egress) -> Known
        ensures { result ≡ told self message.now }
    {
        match message {
            Egress::SessionEvent {
                session,
                term,
                code,
                ..
            } if *code == 0 => Known {
                session: *session,
                term: *term,
            },
            Egress::NewLeader { term, session, .. } if *session == self.session => Known {
                session: self.session,
                term: *term,
            },
            _ => self,
        }
    }

    /// What is known after these bytes. Bytes that are no message tell nothing.
    pub fn learns(self, alloc: Global, bytes: &[u8]) -> Result<Known, NoMemory>
        ensures { IfOk result (λ known. known ≡ learns self bytes.now) }
    {
        if bytes.len() >= 4 && get_u16(bytes, 2) == MESSAGE {
            return Ok(self);
        }
        match decode_egress(alloc, bytes) {
            Ok(message) => Ok(self.told(&message)),
            Err(DecodeFault::Bad(_)) => Ok(self),
            Err(DecodeFault::NoMemory) => Err(NoMemory),
        }
    }
}
