// The clients that orders name.
ghost use Rattle.std.specs.Prelude.{◌≡◌};
ghost use Rattle.scenario.specs.Naming.{naming, barred_by, use_after};

use crate::fault::Cause;
use crate::order::Order;

/// The most clients.
pub const CLIENTS_LIMIT: u64 = 64;

/// How an order names a client.
#[derive(Clone, Copy, Debug, PartialEq, Eq)]
pub enum Naming {
    /// The order sends bytes for the client.
    Sends,
    /// The client joins.
    Joins,
    /// The client, having joined, offers a message.
    Offers,
}

/// What the orders so far use a client for.
#[derive(Clone, Copy, Debug, PartialEq, Eq)]
pub enum ClientUse {
    /// No order named it.
    Unused,
    /// Orders send for it.
    Ordered,
    /// It joined, and sends by itself.
    Joined,
}

impl ClientUse {
    /// The cause by which a client so used keeps an order from naming it so.
    pub fn barred(self, naming: Naming) -> Option<Cause>
        ensures { result ≡ barred_by self naming }
    {
        match (naming, self) {
            (Naming::Sends, ClientUse::Joined) => Some(Cause::Joined),
            (Naming::Joins, ClientUse::Ordered | ClientUse::Joined) => Some(Cause::Joined),
            (Naming::Offers, ClientUse::Unused | ClientUse::Ordered) => Some(Cause::NotJoined),
            _ => None,
        }
    }

    /// What the client is used for once an order named it so.
    pub fn after(self, naming: Naming) -> ClientUse
        ensures { result ≡ use_after self naming }
    {
        match naming {
            Naming::Sends => ClientUse::Ordered,
            Naming::Joins => ClientUse::Joined,
            Naming::Offers => self,
        }
    }
}

/// How an order names a client, and the client's number; None where it names none.
pub fn naming_of(order: &Order) -> Option<(Naming, u64)>
    ensures { result ≡ naming order.now }
{
    match order {
        Order::Connect { client, .. }
        | Order::Send { client, .. }
        | Order::SendHex { client, .. }
        | Order::Close { client, .. }
        | Order::KeepAlive { client, .. }
        | Order::Raw { client, .. } => Some((Naming::Sends, *client)),
        Order::Join { client, .. } => Some((Naming::Joins, *client)),
        Order::Offer { client, .. } => Some((Naming::Offers, *client)),
        _ => None,
    }
}
