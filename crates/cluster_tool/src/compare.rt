// How far two logs are the same.
ghost use Rattle.std.specs.Prelude.{◌≡◌, ◌<◌, length, slice_index_or, IsTrue, IfOk, IfErr};
ghost use Rattle.cl_base.specs.declared.entry.Entry.{Entry as OneEntry};
ghost use Rattle.cluster_tool.specs.Compared.{is_same, longer, differing, compared};
ghost use Rattle.cluster_tool.specs.Disks.{IsStill, FailsFor};

use crate::ToolStatus;
use crate::read::entry_at;
use cl_base::{Disk, Entry};
use member_disk::MemberDisk;

/// What comes behind the entries that two logs have in common.
#[derive(Clone, Copy, Debug, PartialEq, Eq)]
pub enum Outcome {
    /// Neither has more.
    Equal,
    /// The first log has more entries.
    FirstLonger,
    /// The second log has more entries.
    SecondLonger,
    /// Both have an entry there, with these terms (0 to 2^62), and these aren't the same.
    Differ { first: i64, second: i64 },
}

/// How far two logs are the same.
#[derive(Clone, Copy, Debug, PartialEq, Eq)]
pub struct Comparison {
    /// How many entries both have in common, from the front.
    pub common: u64,
    /// What comes behind them.
    pub outcome: Outcome,
}

/// Both are the same entry: of one term, with the same bytes.
fn is_same(one: &Entry, other: &Entry) -> bool
    ensures { result ≡ is_same one.now other.now }
{
    one.term == other.term && one.bytes.as_slice() == other.bytes.as_slice()
}

/// What comes behind a common front that is all of a log, by the numbers of entries.
fn longer(first: u64, second: u64) -> Outcome
    ensures { result ≡ longer first second }
{
    if first > second {
        return Outcome::FirstLonger;
    }
    if first < second {
        return Outcome::SecondLonger;
    }
    Outcome::Equal
}

/// The two entries differ.
fn differing(one: &Entry, other: &Entry, common: u64) -> Option<Comparison>
    ensures { result ≡ differing one.now other.now common }
{
    if is_same(one, other) {
        return None;
    }
    Some(Comparison {
        common,
        outcome: Outcome::Differ {
            first: one.term,
            second: other.term,
        },
    })
}

/// Compares the entries at an index, below the number of entries of both logs: None where they are the same.
fn compared_at<D: Disk>(
    first: &mut MemberDisk<D>,
    second: &mut MemberDisk<D>,
    index: u64,
) -> Result<Option<Comparison>, ToolStatus>
    requires first_whole { IsTrue first.old.whole }
    requires second_whole { IsTrue second.old.whole }
    requires first_index { index < length first.old.kept.log }
    requires second_index { index < length second.old.kept.log }
    ensures first { IsStill D.tells D.is_honest D.state D.fault_count first.old first.new }
    ensures second { IsStill D.tells D.is_honest D.state D.fault_count second.old second.new }
    ensures fails { IfErr result (FailsFor D.tells D.fault_count first.old.disk first.new.disk second.old.disk second.new.disk) }
    ensures differing { IsTrue (D.tells first.old.disk) → IsTrue (D.tells second.old.disk) → (d : OneEntry)
        → IfOk result (λ o. o ≡ differing (slice_index_or first.old.kept.log index d) (slice_index_or second.old.kept.log index d) index) }
{
    match entry_at(first, index) {
        Ok(one) => match entry_at(second, index) {
            Ok(other) => Ok(differing(&one, &other, index)),
            Err(fault) => Err(ToolStatus::of(1, fault)),
        },
        Err(fault) => Err(ToolStatus::of(0, fault)),
    }
}

/// Compares the logs of two members' disks, one entry after the other.
pub(crate) fn compared<D: Disk>(
    first: &mut MemberDisk<D>,
    second: &mut MemberDisk<D>,
) -> Result<Comparison, ToolStatus>
    requires first_whole { IsTrue first.old.whole }
    requires second_whole { IsTrue second.old.whole }
    ensures first { IsStill D.tells D.is_honest D.state D.fault_count first.old first.new }
    ensures second { IsStill D.tells D.is_honest D.state D.fault_count second.old second.new }
    ensures fails { IfErr result (FailsFor D.tells D.fault_count first.old.disk first.new.disk second.old.disk second.new.disk) }
    ensures compared { IsTrue (D.tells first.old.disk) → IsTrue (D.tells second.old.disk) → IfOk result (λ c. c ≡ compared first.old.kept.log second.old.kept.log) }
{
    let (one, two) = (first.index().entries(), second.index().entries());
    let common = one.min(two);
    for index in 0..common {
        match compared_at(first, second, index) {
            Ok(None) => (),
            Ok(Some(comparison)) => return Ok(comparison),
            Err(status) => return Err(status),
        }
    }
    Ok(Comparison {
        common,
        outcome: longer(one, two),
    })
}
