// What a link keeps.
ghost use Rattle.std.specs.Prelude.{◌≡◌, ℕ, ◌<◌, ◌≤◌, List};
ghost use Rattle.network.specs.Net.{quiet_net, kth_latest};
ghost use Rattle.network.specs.Sends.{Act, AreAmong, after_all, again_on, kept_on, latest, sent_between};

/// Whatever calls were made of a network, the link from a to b keeps the latest 256 packets that a sent to b, in order,
/// and what is sent again as the k-th latest, k at most 256, is the k-th latest that a sent to b. None of its packets is
/// taken for another link's, and none that was sent again is counted.
pub fn a_link_keeps_the_latest_of_its_packets()
    ensures kept { (members a b : ℕ) (acts : List Act) → a < members → b < members → AreAmong members acts → kept_on (after_all (quiet_net members) acts) a b ≡ latest (sent_between a b acts) }
    ensures again { (members a b : ℕ) (acts : List Act) (k : ℕ) → a < members → b < members → AreAmong members acts → k ≤ 256 → again_on k (after_all (quiet_net members) acts) a b ≡ kth_latest k (sent_between a b acts) }
{}
