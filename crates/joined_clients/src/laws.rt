// What a joined client is handed.
ghost use Rattle.std.specs.Prelude.{◌≡◌, ℕ, List, fold};
ghost use Rattle.cluster_client.specs.Runs.{Event, given};
ghost use Rattle.cluster_client.specs.Handed.{handed};
ghost use Rattle.cluster_client.specs.Seen.{new_client};
ghost use Rattle.joined_clients.specs.Joined.{joins, meets, stream_of};

/// Over every list of its steps, records and offers a joined client is handed exactly this: of the records that it was
/// given behind the OK that opened its session, and before the session's close, the messages of that session whose term
/// is the greatest that the session knew, in their order.
pub fn what_a_joined_client_is_handed()
    ensures { (number members : ℕ) (events : List Event) → (fold meets (joins number members) events).handed ≡ handed (given (new_client (stream_of number) members) events) }
{}
