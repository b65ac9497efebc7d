// What a client gives.
ghost use Rattle.std.specs.Prelude.{◌≡◌};

use cl_base::{Bytes, NoMemory};

/// Bytes for a member.
#[derive(Debug, Drop)]
pub struct ToMember {
    /// The member, 0 to 4.
    pub member: u8,
    /// One message to the cluster.
    pub bytes: Bytes,
}

/// What a client took from a record that it was given.
#[derive(Debug, Drop)]
pub enum Took {
    /// A message of a service to the client's session.
    Handed {
        /// The leadership term in which it was sent.
        term: i64,
        /// What the service said.
        payload: Bytes,
    },
    /// Nothing for the client's user.
    Ignored,
}

/// Why a payload was not sent.
#[derive(Clone, Copy, Debug, PartialEq, Eq)]
pub enum OfferFault {
    /// The client has no session, or none any more.
    NotOpen,
    /// The payload has this many bytes, which is above the limit.
    TooLarge { len: u64 },
    /// No memory was there for the message.
    NoMemory,
}

impl From<NoMemory> for OfferFault {
    ghost use Rattle.cluster_client.specs.declared.answers.OfferFault.TheVariants as faults;

    ghost from_gives = { λ _ e. e ≡ faults.NoMemory };

    fn from(_: NoMemory) -> OfferFault {
        OfferFault::NoMemory
    }
}
