// Answers to a connect that opens no session.
ghost use Rattle.std.specs.Prelude.{◌≡◌, ◌≤◌, IfOk};
ghost use Rattle.egress.specs.Streams.{answer};

use cl_base::{Bytes, NoMemory};
use sbe_client::{Egress, encode_egress};
use std::alloc::Global;

/// The answer of this code to a connect of this number: it has no session.
#[tactic(auto, unfolding(sbe_client::specs::Spelling::egress_spelling_of))]
fn answer(alloc: Global, corr: i64, term: i64, leader: i32, code: u8) -> Result<Bytes, NoMemory>
    requires { code ≤ 4 }
    ensures { IfOk result (λ bytes. bytes ≡ answer corr term leader code) }
{
    let event = Egress::SessionEvent {
        session: -1,
        corr,
        term,
        leader,
        code,
    };
    encode_egress(alloc, &event)
}

/// Another member leads: the term and the leader that the member knows, -1 where it knows none.
pub fn redirect(alloc: Global, corr: i64, term: i64, leader: i32) -> Result<Bytes, NoMemory>
    ensures { IfOk result (λ bytes. bytes ≡ answer corr term leader 2) }
{
    answer(alloc, corr, term, leader, 2)
}

/// The connect was refused.
pub fn error(alloc: Global, corr: i64, term: i64, leader: i32) -> Result<Bytes, NoMemory>
    ensures { IfOk result (λ bytes. bytes ≡ answer corr term leader 1) }
{
    answer(alloc, corr, term, leader, 1)
}
