// What the orders so far tell of those that may follow.
ghost use Rattle.std.specs.Prelude.{◌≡◌, ◌<◌, ◌≤◌, ◌+◌, ◌^◌, [], IfOk, true};
ghost use Rattle.scenario.specs.Orders.{in_range, may_come as order_may_come, is_service as names_service, rounds_in, members_after, forbidden, unless, told_after, told_by, at_end as fault_at_end, is_link as link};
ghost use Rattle.scenario.specs.Naming.{barred, clients_after};

use crate::fault::{Cause, Refusal};
use crate::naming::{CLIENTS_LIMIT, ClientUse, naming_of};
use crate::order::Order;
use cl_base::limits::{MEMBERS_LIMIT, REPLAY_LIMIT, ROUNDS_LIMIT, SERVICES_LIMIT};

/// The most calls that a fuse lets pass.
const FUSE_LIMIT: u64 = 1_000;

/// What the orders so far tell of those that may follow.
#[derive(Clone, Copy, Debug, PartialEq, Eq)]
pub struct Told {
    /// How many there are.
    pub orders: u64,
    /// The number of members, 5 until it is told.
    pub members: u64,
    /// How many services are named.
    pub services: u64,
    /// The rounds in all.
    pub rounds: u64,
    /// What each client is used for, by its number.
    pub clients: [ClientUse; 64],
}

impl Told {
    /// Nothing is told yet.
    pub fn start() -> Told
        ensures { result ≡ told_by [] }
    {
        Told {
            orders: 0,
            members: u64::from(MEMBERS_LIMIT),
            services: 0,
            rounds: 0,
            clients: [ClientUse::Unused; 64],
        }
    }

    /// What is told once the order has come too, or the first cause that keeps it from coming.
    #[tactic(auto, unfolding(crate::specs::Orders::forbidden))]
    pub fn admit(self, order: &Order) -> Result<Told, Cause>
        requires orders { self.orders + 1 < 2 ^ 64 }
        requires services { self.services ≤ self.orders }
        ensures { result ≡ unless (forbidden self order.now) (told_after self order.now) }
    {
        if !is_in_range(order, self.members) {
            return Err(Cause::Range);
        }
        if !self.may_come(order) {
            return Err(Cause::Header);
        }
        let rounds = self.rounds.saturating_add(rounds_of(order));
        if rounds > ROUNDS_LIMIT {
            return Err(Cause::Rounds);
        }
        let clients = self.clients_with(order)?;
        Ok(Told {
            orders: self.orders + 1,
            members: members_of(order, self.members),
            services: self.services + u64::from(is_service(order)),
            rounds,
            clients,
        })
    }

    /// What the clients are used for once the order has come too, or the cause by which its client keeps it from coming.
    #[tactic(auto, using(crate::proofs::Namings::named_within))]
    fn clients_with(self, order: &Order) -> Result<[ClientUse; 64], Cause>
        requires { in_range self.members order.now ≡ true }
        ensures { result ≡ unless (barred self.clients order.now) (clients_after self.clients order.now) }
    {
        let Some((naming, client)) = naming_of(order) else {
            return Ok(self.clients);
        };
        let client = client as usize;
        let before = self.clients[client];
        if let Some(cause) = before.barred(naming) {
            return Err(cause);
        }
        let mut clients = self.clients;
        clients[client] = before.after(naming);
        Ok(clients)
    }

    /// Whether an order is at its place.
    #[tactic(auto, unfolding(crate::specs::Orders::may_come))]
    fn may_come(self, order: &Order) -> bool
        requires { self.services + 1 < 2 ^ 64 }
        ensures { result ≡ order_may_come self.orders self.services order.now }
    {
        match order {
            Order::Members { .. } => self.orders == 0,
            Order::Service { .. } => {
                self.orders == self.services + 1 && self.services < u64::from(SERVICES_LIMIT)
            }
            _ => self.services > 0,
        }
    }

    /// Why a text that ends before this line isn't a scenario.
    pub fn at_end(self, line: u64) -> Option<Refusal>
        ensures { result ≡ fault_at_end line self }
    {
        if self.services > 0 {
            return None;
        }
        Some(Refusal {
            line,
            cause: Cause::Header,
        })
    }
}

/// Whether the order names a service.
fn is_service(order: &Order) -> bool
    ensures { result ≡ names_service order.now }
{
    matches!(order, Order::Service { .. })
}

/// The rounds of an order.
fn rounds_of(order: &Order) -> u64
    ensures { result ≡ rounds_in order.now }
{
    match order {
        Order::Rounds { rounds, .. } | Order::Quiet { rounds, .. } => *rounds,
        _ => 0,
    }
}

/// The number of members that an order leaves.
fn members_of(order: &Order, before: u64) -> u64
    ensures { result ≡ members_after before order.now }
{
    match order {
        Order::Members { members, .. } => *members,
        _ => before,
    }
}

/// Whether each number of an order is in its range.
#[tactic(auto, unfolding(crate::specs::Orders::in_range))]
fn is_in_range(order: &Order, members: u64) -> bool
    ensures { result ≡ in_range members order.now }
{
    match order {
        Order::Members { members: count, .. } => 1 <= *count && *count <= u64::from(MEMBERS_LIMIT),
        Order::Service { .. }
        | Order::FreeOn { .. }
        | Order::FreeOff { .. }
        | Order::BackupOff { .. }
        | Order::BackupLose { .. } => true,
        Order::Rounds { rounds, .. } | Order::Quiet { rounds, .. } => {
            1 <= *rounds && *rounds <= ROUNDS_LIMIT
        }
        Order::Connect { client, member, .. }
        | Order::Send { client, member, .. }
        | Order::SendHex { client, member, .. }
        | Order::Close { client, member, .. }
        | Order::KeepAlive { client, member, .. }
        | Order::Raw { client, member, .. } => *client < CLIENTS_LIMIT && *member < members,
        Order::Action { member, .. }
        | Order::Stop { member, .. }
        | Order::Start { member, .. }
        | Order::Invalidate { member, .. }
        | Order::Backup { member, .. } => *member < members,
        Order::Join { client, .. } | Order::Offer { client, .. } => *client < CLIENTS_LIMIT,
        Order::Fuse { member, calls, .. } => *member < members && *calls <= FUSE_LIMIT,
        Order::Cut { from, to, .. } | Order::Heal { from, to, .. } | Order::Lose { from, to, .. } =>
            { is_link(*from, *to, members) }
        Order::Replay {
            from,
            to,
            latest,
            ..
        } => { is_link(*from, *to, members) && 1 <= *latest && *latest <= REPLAY_LIMIT }
    }
}

/// Whether these are two members that differ.
fn is_link(from: u64, to: u64, members: u64) -> bool
    ensures { result ≡ link members from to }
{
    from < members && to < members && from != to
}
