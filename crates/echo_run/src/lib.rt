//! One form of scenario, proved whole: one member with the echo service, one client, one connect and one message. The
//! crate has the world of such a run (`specs/World.antt`), a run that goes through that world's states, the text that
//! the run writes, and the laws of the world: the service consumes a front of the printed log, and each record is owed
//! by an entry of it, sent once, and sent by the leader of the entry's term.
#![tactic(auto)]

mod clients;
mod echoing;
mod entries;
mod form;
mod laws;
mod module;
mod orders;
mod owing;
mod places;
mod run;
mod sent;
mod sessions;
mod streams;
mod told;
mod whole;

pub use echoing::echoed;
pub use laws::{
    consumes_a_front, headline, is_sent_by_the_leader, leads_its_log, sends_once,
    sends_what_is_owed, worked_run,
};
pub(crate) use module::{Module, Session};
pub(crate) use sent::{OrderLine, Origin, Outcome, Sent};
