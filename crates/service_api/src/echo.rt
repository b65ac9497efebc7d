// A service that gives each message back.
ghost use Rattle.std.specs.Prelude.{◌≡◌, [], ◌∷◌, ◌++◌, refl};
ghost use Rattle.service_api.specs.Echo.{echoed, restored_echo};

use crate::{Output, Outputs, Service};
use cl_base::{Bytes, NoMemory};
use sbe_events::Event;
use std::alloc::Global;
use std::marker::Model;
use wire_prims::{Bad, BadCause, DecodeFault};

/// A service that gives each session message back to its session. It keeps nothing.
#[derive(Drop)]
pub struct Echo {
    alloc: Global,
}

impl Model for Echo {
    ghost Value = { Unit {0} };

    ghost view = { λ _. tt };
}

impl Service for Echo {
    ghost first = { tt };

    ghost applied = { λ s i e. (s, echoed e) };

    ghost spelled = { λ s. [] };

    ghost restored = { restored_echo };

    fn start(alloc: Global) -> Result<Echo, NoMemory> {
        Ok(Echo { alloc })
    }

    fn apply(&mut self, _index: u64, e: &Event, out: &mut Outputs) -> Result<(), NoMemory> {
        match e {
            Event::Message {
                term: _,
                session,
                stamp: _,
                payload,
            } => out.push(Output::Egress {
                session: *session,
                payload: payload.copy()?,
            }),
            _ => Ok(()),
        }
    }

    fn records(&self) -> Result<Bytes, NoMemory> {
        Bytes::of(self.alloc, &[])
    }

    fn from_records(alloc: Global, bytes: &[u8]) -> Result<Echo, DecodeFault> {
        if bytes.is_empty() {
            return Ok(Echo { alloc });
        }
        let place = 0;
        let cause = BadCause::Trailing;
        Err(DecodeFault::Bad(Bad { place, cause }))
    }
}
