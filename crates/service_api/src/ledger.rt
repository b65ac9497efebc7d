// A service that adds amounts.
ghost use Rattle.std.specs.Prelude.{◌≡◌, ◌++◌, OnOk, OnErr};
ghost use Rattle.service_api.specs.Ledger.{Books, added, entered, spelled_books, restored_books, IsKept};
ghost use Rattle.service_api.specs.Outputs.{BeginsWith};

use crate::number::{add_u64, spell_u64};
use crate::{Output, Outputs, Service};
use cl_base::{Bytes, NoMemory};
use sbe_events::Event;
use sbe_local::Command;
use std::alloc::Global;
use std::marker::Model;
use wire_prims::{Bad, BadCause, DecodeFault, get_u64};

/// The bytes of an amount, and of each number of the records.
const NUMBER_BYTES: usize = 8;

/// The bytes of the records.
const RECORDS_BYTES: usize = 16;

/// The least amount of which the new total is also offered as a service message.
const OFFER_FROM: u64 = 1_000;

/// A service that adds the amounts of session messages, and counts the service messages that come back.
#[derive(Drop)]
pub struct Ledger {
    alloc: Global,
    total: u64,
    audits: u64,
}

impl Model for Ledger {
    ghost use Rattle.service_api.specs.Ledger.{Books};

    ghost Value = { Books };

    ghost view = { λ l. record { total = l.total; audits = l.audits } };

    ghost use Rattle.std.specs.Prelude.{◌<◌, ◌^◌};

    ghost invariant = { λ l. (l.total < 2 ^ 64) × (l.audits < 2 ^ 64) };
}

impl Ledger {
    // Adds an amount, and tells the session the new total.
    fn add(&mut self, session: i64, amount: u64, out: &mut Outputs) -> Result<(), NoMemory>
        ensures state { OnOk result (self.new ≡ (added self.old session amount).0) }
        ensures outputs { OnOk result (out.new ≡ out.old ++ (added self.old session amount).1) }
        ensures stays { OnErr result (self.new ≡ self.old) }
        ensures before { OnErr result (BeginsWith out.old out.new) }
    {
        let Some(total) = self.total.checked_add(amount) else {
            let payload = Bytes::of(self.alloc, &[])?;
            return out.push(Output::Egress { session, payload });
        };
        let payload = spell_u64(self.alloc, total)?;
        out.push(Output::Egress { session, payload })?;
        if amount >= OFFER_FROM {
            // The module gives an offer its service and its number: it looks at the payload alone.
            out.push(Output::Command(Command::Offer {
                service: 0,
                number: 1,
                payload: spell_u64(self.alloc, total)?,
            }))?;
        }
        self.total = total;
        Ok(())
    }
}

#[tactic(auto, using(crate::specs::LedgerLaws::books_take_16, crate::specs::LedgerLaws::books_restored))]
impl Service for Ledger {
    ghost first = { record { total = 0; audits = 0 } };

    ghost applied = { λ s i e. entered s e };

    ghost spelled = { spelled_books };

    ghost restored = { restored_books };

    fn start(alloc: Global) -> Result<Ledger, NoMemory> {
        Ok(Ledger {
            alloc,
            total: 0,
            audits: 0,
        })
    }

    fn apply(&mut self, _index: u64, e: &Event, out: &mut Outputs) -> Result<(), NoMemory> {
        match e {
            Event::Message {
                session,
                payload,
                ..
            } if payload.len() == NUMBER_BYTES => {
                self.add(*session, get_u64(payload.as_slice(), 0), out)
            }
            Event::ServiceMessage { payload, .. } if payload.len() == NUMBER_BYTES => {
                self.audits = self.audits.saturating_add(1);
                Ok(())
            }
            _ => Ok(()),
        }
    }

    fn records(&self) -> Result<Bytes, NoMemory> {
        let mut bytes = Vec::new(self.alloc);
        add_u64(&mut bytes, self.total)?;
        add_u64(&mut bytes, self.audits)?;
        Ok(Bytes::from_vec(bytes))
    }

    fn from_records(alloc: Global, bytes: &[u8]) -> Result<Ledger, DecodeFault> {
        if bytes.len() < RECORDS_BYTES {
            let place = bytes.len() as u64;
            let cause = BadCause::Short;
            return Err(DecodeFault::Bad(Bad { place, cause }));
        }
        if bytes.len() > RECORDS_BYTES {
            let place = RECORDS_BYTES as u64;
            let cause = BadCause::Trailing;
            return Err(DecodeFault::Bad(Bad { place, cause }));
        }
        Ok(Ledger {
            alloc,
            total: get_u64(bytes, 0),
            audits: get_u64(bytes, NUMBER_BYTES),
        })
    }
}
