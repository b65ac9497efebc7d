// What phases leave of containers and of logs.
ghost use Rattle.std.specs.Prelude.{◌≡◌, ◌≤◌, List, ◌++◌, take, true};
ghost use Rattle.cl_base.specs.declared.entry.Entry.{Entry};
ghost use Rattle.commit_counter.specs.Ends.{Fed};
ghost use Rattle.owed_egress.specs.Outbox.{IndicesRise};
ghost use Rattle.run_phases.specs.Grown.{GoesOn, Grew};
ghost use Rattle.run_phases.specs.Logs.{FeedsLog, HoldsLog};
ghost use Rattle.service_container.specs.Held.{Held};
ghost use Rattle.service_phases.specs.Stages.{Stage};

/// What a container consumes in two stretches it consumes in one, where it stayed whole; and what came out of it since a
/// phase began stands in the order of its entries.
pub fn what_containers_consume_adds_up()
    ensures twice { (c d e : Held) → d.whole ≡ true → GoesOn c d → GoesOn d e → GoesOn c e }
    ensures rises { (c d : Held) → d.whole ≡ true → Grew c d → IndicesRise d.outbox }
{}

/// What a phase has of a log it has as entries are put behind the log and the commit rises; and what its feeds published
/// of it is also that of a log that is the same up to the commit.
pub fn what_a_phase_has_of_a_log_stays()
    ensures grows { (log more : List Entry) (s t : Stage) (feeds : List Fed) → t.lending ≡ s.lending → s.commit ≤ t.commit → FeedsLog log s feeds → FeedsLog (log ++ more) t feeds }
    ensures holds { (log : List Entry) (s : Stage) (feeds : List Fed) → FeedsLog log s feeds → HoldsLog log s feeds }
    ensures cut { (log next : List Entry) (s t : Stage) (feeds : List Fed) → t.lending ≡ s.lending → s.commit ≤ t.commit → take s.commit next ≡ take s.commit log → HoldsLog log s feeds → HoldsLog next t feeds }
{}
