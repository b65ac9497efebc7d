// A scenario is read, and its orders are written.
ghost use Rattle.std.specs.Prelude.{◌≡◌, ◌≤◌, ◌++◌, IsTrue, Some, List, map, string_bytes};
ghost use Rattle.cl_base.specs.Counts.{Rose};
ghost use Rattle.plan.specs.Words.{plan_of};
ghost use Rattle.line_text.specs.Written.{IsFront};
ghost use Rattle.scenario.specs.Printing.{printed};
ghost use Rattle.scenario.specs.declared.order.Order.{Order as OneOrder};
ghost use Rattle.run_start.specs.Status.{status_text, IsRefusal, IsOrGivesUp, Leaves};
ghost use Rattle.run_start.specs.Reading.{IsChecked, AreOrders};

use crate::Status;
use crate::reading::read_orders;
use cl_base::{NoMemory, Sink, Source};
use plan::{Plan, WordsFault, plan_words};
use scenario::print;
use std::alloc::Global;

/// Reads the scenario that a source gives, and writes its orders, one a line, or the one line of a refusal.
pub fn check_source<I: Source, O: Sink>(alloc: Global, source: &mut I, sink: &mut O) -> Status
    ensures ends { IsChecked (I.tells source.old) (I.left source.old) (I.fault_count source.old) (I.fault_count source.new) result }
    ensures checked { IsTrue (O.tells sink.old) → result ≡ Status.Done → (orders : List OneOrder) × AreOrders (I.tells source.old) (I.left source.old) orders × (O.held sink.new ≡ O.held sink.old ++ printed orders) }
    ensures leaves { Leaves O.tells O.held O.fault_count sink.old sink.new result }
    ensures later { I.fault_count source.old ≤ I.fault_count source.new }
    ensures tells { I.tells source.new ≡ I.tells source.old }
{
    match read_orders(alloc, source) {
        Ok(orders) => match print(alloc, orders.as_slice()) {
            Ok(text) => Status::given(sink, text.as_slice()),
            Err(NoMemory) => Status::NoMemory,
        },
        Err(status) => status.written(alloc, sink),
    }
}

/// Reads the scenario that a source gives, and writes its orders, one a line. Every other list of words than `check` is
/// no command's.
pub fn check_main<I: Source, O: Sink>(
    alloc: Global,
    words: &[String],
    source: &mut I,
    sink: &mut O,
) -> Status
    ensures usage { result ≡ Status.Usage → plan_of (map string_bytes words.now) ≡ Some Plan.Check → ⊥ }
    ensures usage_exactly { (plan_of (map string_bytes words.now) ≡ Some Plan.Check → ⊥) → IsOrGivesUp result Status.Usage }
    ensures ends { plan_of (map string_bytes words.now) ≡ Some Plan.Check → IsChecked (I.tells source.old) (I.left source.old) (I.fault_count source.old) (I.fault_count source.new) result }
    ensures write_fault { result ≡ Status.WriteFault → Rose (O.fault_count sink.old) (O.fault_count sink.new) }
    ensures checked { IsTrue (O.tells sink.old) → result ≡ Status.Done → (orders : List OneOrder) × AreOrders (I.tells source.old) (I.left source.old) orders × (O.held sink.new ≡ O.held sink.old ++ printed orders) }

    // What a sink that tells then holds: the one line of a refusal, and always what it held and more.
    ensures refusal { IsTrue (O.tells sink.old) → IsRefusal result → O.held sink.new ≡ O.held sink.old ++ status_text result }
    ensures more { IsTrue (O.tells sink.old) → IsFront (O.held sink.old) (O.held sink.new) }

    ensures source_later { I.fault_count source.old ≤ I.fault_count source.new }
    ensures sink_later { O.fault_count sink.old ≤ O.fault_count sink.new }
    ensures source_tells { I.tells source.new ≡ I.tells source.old }
    ensures sink_tells { O.tells sink.new ≡ O.tells sink.old }
{
    match plan_words(alloc, words) {
        Ok(Plan::Check) => check_source(alloc, source, sink),
        Ok(_) | Err(WordsFault::Usage) => Status::Usage.written(alloc, sink),
        Err(WordsFault::NoMemory) => Status::NoMemory,
    }
}
