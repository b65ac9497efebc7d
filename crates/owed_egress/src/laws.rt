// What comes out of a service over entries.
ghost use Rattle.std.specs.Prelude.{◌≡◌, ◌≤◌, ℕ, ◌+◌, List, length, map, take, drop};
ghost use Rattle.std.specs.List.{AllByRecursion};
ghost use Rattle.cl_base.specs.declared.entry.Entry.{Entry};
ghost use Rattle.sbe_events.specs.declared.event.Event.{Event};
ghost use Rattle.sbe_events.specs.Spelling.{HasSpelling};
ghost use Rattle.service_api.specs.declared.shipped.Kind.{Kind};
ghost use Rattle.service_api.specs.declared.shipped.Shipped.{Shipped};
ghost use Rattle.service_api.specs.Service.{outbox_from, outputs_from};
ghost use Rattle.module_state.specs.Services.{module_of};
ghost use Rattle.owed_egress.specs.Outbox.{IndicesRise, outputs_in};
ghost use Rattle.owed_egress.specs.Records.{output_in};
ghost use Rattle.owed_egress.specs.Taken.{module_over, outboxes_in};

/// What comes out of a service over entries stands in the order of the entries, and what has the index of one of them is
/// what came out at that one.
pub fn what_comes_out_stands_by_its_entry()
    ensures rises { (s : Shipped) (i : ℕ) (xs : List Entry) → IndicesRise (outbox_from s i xs) }
    ensures found { (s : Shipped) (i k : ℕ) (xs : List Entry) → map output_in (outputs_in (i + k) (outbox_from s i xs)) ≡ outputs_from s i xs k }
{}

/// The module of the first events of a log, once it takes the next ones with what came out of the services at them, is the
/// module of the log up to there.
pub fn the_module_takes_what_its_services_ask()
    ensures { (kinds : List Kind) (log : List Event) (first n : ℕ) → first + n ≤ length log → AllByRecursion HasSpelling log
        → module_over (outboxes_in kinds log first n) first (module_of kinds (take first log)) (take n (drop first log)) ≡ module_of kinds (take (first + n) log) }
{}
