// What a backup asks.
ghost use Rattle.std.specs.Prelude.{◌≡◌, ◌≤◌, ◌^◌, IfOk, IfSome, length};
ghost use Rattle.sbe_consensus.specs.Spelling.{IsLast};
ghost use Rattle.log_segment.specs.Held.{AreRanged};
ghost use Rattle.cluster_backup.specs.Taking.{IsQuery, number_of};

use crate::encode::encode_backup;
use crate::packet::{BackupPacket, number};
use crate::snapshots::latest_in;
use cl_base::{Bytes, NoMemory};
use entry_log::LogIndex;
use member_disk::Durable;
use std::alloc::Global;

/// How many entries a log has, by its index.
#[tactic(auto, using(crate::proofs::Bringing::few))]
fn count_of(index: &LogIndex) -> u64
    requires { AreRanged index.now }
    ensures count { result ≡ length index.now }
    ensures range { result ≤ 16777216 }
{
    index.entries()
}

/// A position as a number, -1 where there is none.
fn number_of(position: Option<u64>) -> i64
    requires { IfSome position (λ p. p ≤ 2 ^ 62) }
    ensures number { result ≡ number_of position }
    ensures range { IsLast result }
{
    match position {
        Some(position) => number(position),
        None => -1,
    }
}

/// A query of what is kept.
pub fn query_of(alloc: Global, durable: &Durable) -> Result<Bytes, NoMemory>
    ensures { IfOk result (IsQuery durable.now) }
{
    let latest = latest_in(durable);
    let query = BackupPacket::Query {
        entries: number(count_of(durable.index())),
        position: number_of(latest),
    };
    encode_backup(alloc, &query)
}
