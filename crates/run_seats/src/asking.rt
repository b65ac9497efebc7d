// What a running member is asked, and what it gives.
ghost use Rattle.std.specs.Prelude.{◌≤◌, ◌^◌};

use cl_base::List;
use egress::Sent;
use ingress::Outcome;
use sbe_consensus::Outgoing;

/// What a running member is asked.
#[derive(Clone, Copy)]
pub enum Asking<'a> {
    /// The bytes of a packet.
    Packet(&'a [u8]),
    /// The duty of its state.
    Duty,
    /// The bytes that a client sends.
    Client(&'a [u8]),
    /// A snapshot action.
    Action,
}

/// A call of a running member.
#[derive(Clone, Copy)]
pub(crate) struct Call<'a> {
    /// The member's number.
    pub(crate) member: u8,
    /// The time, in ms.
    pub(crate) now: u64,
    pub(crate) asking: Asking<'a>,
    ghost time: { now ≤ 2 ^ 60 },
}

/// What a call gives.
#[derive(Drop)]
pub(crate) struct Given {
    /// The packets of a row.
    pub(crate) packets: List<Outgoing>,
    /// What a client gets that no entry owes.
    pub(crate) answer: Option<Sent>,
    /// What a client and an operator are told.
    pub(crate) outcome: Option<Outcome>,
}
