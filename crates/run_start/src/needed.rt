// What a run of orders needs: members, services, disks.
ghost use Rattle.std.specs.Prelude.{◌≡◌, ◌≤◌, ◌<◌, MatchOption};
ghost use Rattle.scenario.specs.Orders.{members_of, members_after};
ghost use Rattle.run_start.specs.Needed.{is_of_backup, found_backup, has_backup, disks_of};

use cl_base::NoMemory;
use scenario::{Named, Order};
use service_api::Kind;
use std::alloc::Global;

/// The service of this name.
fn kind_of(name: Named) -> Kind {
    match name {
        Named::Echo => Kind::Echo,
        Named::Ledger => Kind::Ledger,
        Named::Ticker => Kind::Ticker,
    }
}

/// The services that a scenario's head names, in order.
pub fn kinds_of(alloc: Global, orders: &[Order]) -> Result<Vec<Kind>, NoMemory> {
    let mut kinds = Vec::new(alloc);
    for order in orders {
        if let Order::Service { name, .. } = order
            && kinds.push(kind_of(*name)).is_err()
        {
            return Err(NoMemory);
        }
    }
    Ok(kinds)
}

/// The members that an order leaves, where there were so many before it.
fn members_after(members: u64, order: &Order) -> u64
    ensures { result ≡ members_after members order.now }
{
    match order {
        Order::Members { members: count, .. } => *count,
        _ => members,
    }
}

/// The members that a scenario's head names, 5 where it names none.
pub fn members_of(orders: &[Order]) -> u64
    ensures { result ≡ members_of orders.now }
{
    orders
        .iter()
        .fold(5, |members, order| members_after(members, order))
}

/// Whether an order is of the backup.
fn is_of_backup(order: &Order) -> bool
    ensures { result ≡ is_of_backup order.now }
{
    match order {
        Order::Backup { .. } | Order::BackupOff { .. } | Order::BackupLose { .. } => true,
        _ => false,
    }
}

/// Whether an order of the backup was found, or this is one.
fn found_backup(found: bool, order: &Order) -> bool
    ensures { result ≡ found_backup found order.now }
{
    found || is_of_backup(order)
}

/// Whether some order is of the backup.
pub fn has_backup(orders: &[Order]) -> bool
    ensures { result ≡ has_backup orders.now }
{
    orders
        .iter()
        .fold(false, |found, order| found_backup(found, order))
}

/// How many disks a run of these orders needs: one for each member, and one for the backup where some order is of it.
/// None where these are more than there are.
pub(crate) fn disks_of(orders: &[Order], there: u64) -> Option<u64>
    ensures { MatchOption result (there < disks_of orders.now) (λ n. (n ≡ disks_of orders.now) × (n ≤ there)) }
{
    let members = members_of(orders);
    if members > there {
        return None;
    }
    if !has_backup(orders) {
        return Some(members);
    }
    if members == there {
        return None;
    }
    Some(members + 1)
}
