// What opens a client's session.
ghost use Rattle.std.specs.Prelude.{◌≡◌, ◌≤◌, ℕ, ℤ, List, count_by, true, false};
ghost use Rattle.sbe_client.specs.declared.egress.Egress.{Egress};
ghost use Rattle.cluster_client.specs.Seen.{ClientSeen, new_client, is_open};
ghost use Rattle.cluster_client.specs.Calls.{heard};
ghost use Rattle.cluster_client.specs.Handed.{Given, IsOkTo};
ghost use Rattle.cluster_client.specs.Runs.{Event, given};

/// A record that opens a client's session is an OK to the client's last connect.
pub fn a_session_is_opened_by_its_ok()
    ensures { (m : Egress) (c : ClientSeen) → is_open c ≡ false → is_open (heard m c) ≡ true → IsOkTo c.corr m }
{}

/// Whatever a client does and is given, at most one record opens its session.
pub fn a_session_is_opened_once()
    ensures { (stream : ℤ) (members : ℕ) (events : List Event) → count_by (λ (g : Given). g.opens) (given (new_client stream members) events) ≤ 1 }
{}
