// What a quorum holds, and what is committed by it.
ghost use Rattle.std.specs.Prelude.{◌≡◌, ◌<◌, ◌≤◌, length};
ghost use Rattle.log_replication.specs.Commits.{IsQuorumPosition, is_reached, quorum_position, commit_after};

/// Whether more than half of the reports are at least `place`.
fn is_reached(reports: &[u64], place: u64) -> bool
    ensures { result ≡ is_reached reports.now place }
{
    reports.len() / 2 < reports.iter().filter(|report| place <= **report).count()
}

/// The greatest place (bytes) that a quorum of the reports reach. There are 1 to 5 reports, one of each member.
pub fn quorum_position(reports: &[u64]) -> u64
    requires some { 0 < length reports.now }
    requires members { length reports.now ≤ 5 }
    ensures position { IsQuorumPosition reports.now result }
    ensures value { result ≡ quorum_position reports.now }
{
    let mut position: u64 = 0;
    for report in reports {
        if is_reached(reports, *report) {
            position = position.max(*report);
        }
    }
    position
}

/// The leader's commit (bytes) after a quorum position `q`, where its reign's own first entry ends at `own_end`:
/// entries of older terms are committed only together with it.
pub fn commit_after(commit: u64, own_end: u64, q: u64) -> u64
    ensures { result ≡ commit_after commit own_end q }
{
    if q >= own_end && q > commit {
        q
    } else {
        commit
    }
}
