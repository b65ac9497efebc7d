// The orders of a run: read of a source, or generated.
ghost use Rattle.std.specs.Prelude.{◌≡◌, ◌≤◌, false, IfOk, IfErr};
ghost use Rattle.run_start.specs.Needed.{has_backup};
ghost use Rattle.run_start.specs.Reading.{IsGiven, AreOrders, IsUnread};

use crate::Status;
use crate::needed::has_backup;
use cl_base::limits::SCENARIO_LIMIT;
use cl_base::{Failed, List, NoMemory, Source};
use scenario::{Order, ParseFault, make, parse};
use std::alloc::Global;

/// How many bytes one call of a source is asked for.
const BLOCK: usize = 4096;

/// Reads a source to its end, or until it has given more bytes than a scenario may have.
fn take_all<I: Source>(alloc: Global, source: &mut I) -> Result<Vec<u8>, Status>
    ensures later { I.fault_count source.old ≤ I.fault_count source.new }
    ensures tells { I.tells source.new ≡ I.tells source.old }
    ensures given { IfOk result (λ bytes. IsGiven (I.tells source.old) (I.left source.old) bytes.items) }
    ensures unread { IfErr result (IsUnread (I.tells source.old) (I.left source.old) (I.fault_count source.old) (I.fault_count source.new)) }
{
    let mut bytes = Vec::new(alloc);
    let mut block = [0u8; BLOCK];
    loop {
        let n = match source.read(&mut block) {
            Ok(n) => n,
            Err(Failed) => return Err(Status::ReadFault),
        };
        if n == 0 {
            return Ok(bytes);
        }
        if n > SCENARIO_LIMIT - bytes.len() {
            return Err(Status::TooLong);
        }
        if bytes.extend_from_slice(&block[..n]).is_err() {
            return Err(Status::NoMemory);
        }
    }
}

/// The orders of a source, or why there are none.
pub fn read_orders<I: Source>(alloc: Global, source: &mut I) -> Result<List<Order>, Status>
    ensures later { I.fault_count source.old ≤ I.fault_count source.new }
    ensures tells { I.tells source.new ≡ I.tells source.old }
    ensures orders { IfOk result (AreOrders (I.tells source.old) (I.left source.old)) }
    ensures unread { IfErr result (IsUnread (I.tells source.old) (I.left source.old) (I.fault_count source.old) (I.fault_count source.new)) }
{
    match take_all(alloc, source) {
        Ok(bytes) => match parse(alloc, bytes.as_slice()) {
            Ok(orders) => Ok(orders),
            Err(ParseFault::Refused { line, cause }) => Err(Status::Refused { line, cause }),
            Err(ParseFault::NoMemory) => Err(Status::NoMemory),
        },
        Err(status) => Err(status),
    }
}

/// The orders of the generated scenario of so many messages, none of which is of a backup.
pub fn made_orders(alloc: Global, messages: u64) -> Result<List<Order>, NoMemory>
    requires low { 1 ≤ messages }
    requires high { messages ≤ 20000 }
    ensures { IfOk result (λ orders. has_backup orders ≡ false) }
{
    let text = make(alloc, messages)?;
    match parse(alloc, text.as_slice()) {
        Ok(orders) if !has_backup(orders.as_slice()) => Ok(orders),
        _ => Err(NoMemory),
    }
}
