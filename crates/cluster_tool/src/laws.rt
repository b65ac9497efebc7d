// Laws of the comparison of two logs.
ghost use Rattle.std.specs.Prelude.{◌≡◌, ◌↔◌};
ghost use Rattle.entry_log.specs.Log.{Log};
ghost use Rattle.cluster_tool.specs.Compared.{compared};

use crate::Outcome;

/// Two logs are told as equal exactly where they are.
pub fn tells_equal_logs()
    ensures { (first second : Log) → ((compared first second).outcome ≡ Outcome.Equal) ↔ (first ≡ second) }
{}
