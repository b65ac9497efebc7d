// The outputs of one entry in an outbox.
ghost use Rattle.std.specs.Prelude.{◌≡◌};
ghost use Rattle.owed_egress.specs.Outbox.{IndicesRise, outputs_in};

use service_api::Output;

/// The outputs of the entry at an index, of an outbox whose indices rise.
pub fn outputs_at(outbox: &[(u64, Output)], index: u64) -> &[(u64, Output)]
    ensures { IndicesRise outbox.now → result.now ≡ outputs_in index outbox.now }
{
    let first = outbox.partition_point(|output| output.0 < index);
    let (_, rest) = outbox.split_at(first);
    let count = rest.partition_point(|output| output.0 <= index);
    let (found, _) = rest.split_at(count);
    found
}
