// The top call.
ghost use Rattle.std.specs.Prelude.{◌≡◌, ◌≤◌, ◌<◌, ◌++◌, ◌⊎◌, ℕ, IsTrue, true, false, IfOk, IfErr, IfSome, IsSome, None, Some, Ok, Option, List, map, string_bytes, length};
ghost use Rattle.cl_base.specs.Counts.{Rose};
ghost use Rattle.plan.specs.Words.{plan_of};
ghost use Rattle.line_text.specs.Written.{IsFront};
ghost use Rattle.scenario.specs.Orders.{members_of as members_in, orders_of};
ghost use Rattle.echo_run.specs.Form.{is_of_form};
ghost use Rattle.echo_run.specs.Headline.{Headline};
ghost use Rattle.echo_run.specs.Reported.{run_text};
ghost use Rattle.scenario.specs.declared.fault.Cause.{Cause};
ghost use Rattle.scenario.specs.declared.order.Order.{Order as OneOrder};
ghost use Rattle.run_start.specs.Status.{status_text, IsRefusal, IsOrGivesUp, Leaves};
ghost use Rattle.run_start.specs.Begins.{CannotBegin, AreFew};
ghost use Rattle.run_start.specs.Disks.{RoseAt, IsUsedAt};
ghost use Rattle.run_start.specs.Needed.{disks_of as disks_in, has_backup as has_backup_in};
ghost use Rattle.run_start.specs.Reading.{IsFaulty};
ghost use Rattle.run_listing.specs.Sinks.{Writes};
ghost use Rattle.cluster_run.specs.Ends.{IsRun, IsAnswered, Ends};

use crate::cluster::Cluster;
use crate::disks::{dissolve, gather};
use cl_base::{Bytes, Disk, List, NoMemory, Sink, Source, Trouble};
use echo_run::{echoed, headline};
use plan::{Plan, WordsFault, plan_words};
use run_seats::Site;
use run_start::{
    Status, check_source, has_backup, kinds_of, made_orders, members_of, prepare, read_orders,
};
use scenario::Order;
use std::alloc::Global;
use std::sync::Wait;
use std::thread::Threads;

/// What is run, and what is written of it.
#[derive(Drop)]
struct Task {
    orders: List<Order>,
    /// The number of messages of a generated scenario, whose summary alone is written.
    made: Option<u64>,
    /// A scenario of the one form whose whole text is proved may be run as that, since nobody looks at its disks.
    may_echo: bool,
}

/// The members and services that orders name.
fn site_of(alloc: Global, orders: &[Order]) -> Result<Site, Status>
    ensures { IfErr result (λ s. s ≡ Status.NoMemory) }
{
    let Ok(kinds) = kinds_of(alloc, orders) else {
        return Err(Status::NoMemory);
    };
    match Site::new(alloc, members_of(orders), kinds) {
        Some(site) => Ok(site),
        None => Err(Status::NoMemory),
    }
}

/// The members and services that orders name, once their disks are formatted, or why the run can't begin.
fn prepared<D: Disk>(alloc: Global, disks: &mut [D], orders: &[Order]) -> Result<Site, Status>
    ensures { IfErr result (CannotBegin D.tells D.state D.fault_count (members_in orders.now) (disks_in orders.now) disks.old disks.new) }
{
    match prepare(disks, orders) {
        Ok(()) => site_of(alloc, orders),
        Err(status) => Err(status),
    }
}

/// The run of a task on its members, whose disks are formatted.
fn run_members<R: Threads + Wait + Copy + Send + Sync + 'static, O: Sink, D: Disk + Drop>(
    rt: &R,
    sink: &mut O,
    cluster: &mut Cluster<D>,
    task: &Task,
) -> Result<(), Trouble>
    ensures { Writes O.tells O.held O.fault_count sink.old sink.new result }
{
    cluster.run_orders(rt, sink, task.orders.as_slice(), task.made.is_none())?;
    cluster.conclude(sink, task.made)
}

/// The run of a task on its members, and how it ended. The disks come back.
#[tactic(auto, using(crate::proofs::Leaving::leaves_written, crate::proofs::Leaving::leaves_memory))]
fn run_cluster<R: Threads + Wait + Copy + Send + Sync + 'static, O: Sink, D: Disk + Drop>(
    rt: &R,
    sink: &mut O,
    disks: &mut Vec<D>,
    mut cluster: Cluster<D>,
    task: &Task,
) -> Status
    ensures ends { IsOrGivesUp result Status.Done }
    ensures leaves { Leaves O.tells O.held O.fault_count sink.old sink.new result }
{
    let ran = run_members(rt, sink, &mut cluster, task);
    match dissolve(rt, cluster, disks) {
        Ok(()) => Status::Done.after(ran),
        Err(NoMemory) => Status::NoMemory,
    }
}

/// The run of a task on formatted disks, which come back.
#[tactic(auto, using(crate::proofs::Leaving::leaves_alone))]
fn run_on<R: Threads + Wait + Copy + Send + Sync + 'static, O: Sink, D: Disk + Drop>(
    rt: &R,
    sink: &mut O,
    disks: &mut Vec<D>,
    site: Site,
    task: &Task,
) -> Status
    ensures ends { IsOrGivesUp result Status.Done }
    ensures leaves { Leaves O.tells O.held O.fault_count sink.old sink.new result }
{
    match gather(site, disks, has_backup(task.orders.as_slice())) {
        Ok(cluster) => run_cluster(rt, sink, disks, cluster, task),
        Err(NoMemory) => Status::NoMemory,
    }
}

/// All that a task writes, where it is of the form whose whole text is proved.
fn text_of(alloc: Global, task: &Task) -> Result<Option<Bytes>, NoMemory>
    ensures text { IfOk result (λ text. IfSome text (λ t. t ≡ run_text task.now.orders)) }
    ensures form { task.now.may_echo ≡ true → is_of_form task.now.orders ≡ true → IfOk result IsSome }
{
    if task.may_echo {
        return echoed(alloc, task.orders.as_slice());
    }
    Ok(None)
}

/// The run of a task whose disks are formatted.
fn run_begun<R: Threads + Wait + Copy + Send + Sync + 'static, O: Sink, D: Disk + Drop>(
    rt: &R,
    sink: &mut O,
    disks: &mut Vec<D>,
    site: Site,
    task: Task,
) -> Status
    ensures ends { IsOrGivesUp result Status.Done }
    ensures echoed { IsTrue (O.tells sink.old) → task.may_echo ≡ true → is_of_form task.orders ≡ true → result ≡ Status.Done → O.held sink.new ≡ O.held sink.old ++ run_text task.orders }
    ensures leaves { Leaves O.tells O.held O.fault_count sink.old sink.new result }
{
    match text_of(site.alloc, &task) {
        Ok(Some(text)) => Status::given(sink, text.as_slice()),
        Ok(None) => run_on(rt, sink, disks, site, &task),
        Err(NoMemory) => Status::NoMemory,
    }
}

/// The run of a task, or why it can't begin.
fn run_task<R: Threads + Wait + Copy + Send + Sync + 'static, O: Sink, D: Disk + Drop>(
    rt: &R,
    alloc: Global,
    sink: &mut O,
    disks: &mut Vec<D>,
    task: Task,
) -> Status
    ensures ends { Ends D.tells D.state D.fault_count task.orders disks.old.items disks.new.items result }
    ensures echoed { IsTrue (O.tells sink.old) → task.may_echo ≡ true → is_of_form task.orders ≡ true → result ≡ Status.Done → O.held sink.new ≡ O.held sink.old ++ run_text task.orders }
    ensures leaves { Leaves O.tells O.held O.fault_count sink.old sink.new result }
{
    match prepared(alloc, disks.as_mut_slice(), task.orders.as_slice()) {
        Ok(site) => run_begun(rt, sink, disks, site, task),
        Err(status) => status.written(alloc, sink),
    }
}

/// The run of a generated scenario.
fn run_made<R: Threads + Wait + Copy + Send + Sync + 'static, O: Sink, D: Disk + Drop>(
    rt: &R,
    alloc: Global,
    messages: u64,
    sink: &mut O,
    disks: &mut Vec<D>,
) -> Status
    requires low { 1 ≤ messages }
    requires high { messages ≤ 20000 }
    ensures ends { (orders : List OneOrder) × (has_backup_in orders ≡ false) × Ends D.tells D.state D.fault_count orders disks.old.items disks.new.items result }
    ensures leaves { Leaves O.tells O.held O.fault_count sink.old sink.new result }
{
    match made_orders(alloc, messages) {
        Ok(orders) => {
            let task = Task {
                orders,
                made: Some(messages),
                may_echo: false,
            };
            run_task(rt, alloc, sink, disks, task)
        }
        Err(NoMemory) => Status::NoMemory,
    }
}

/// How a call ends with these words.
fn answer<R: Threads + Wait + Copy + Send + Sync + 'static, I: Source, O: Sink, D: Disk + Drop>(
    rt: &R,
    alloc: Global,
    words: &[String],
    source: &mut I,
    sink: &mut O,
    disks: &mut Vec<D>,
) -> Status
    ensures ends { IsAnswered D.tells D.state D.fault_count disks.old.items disks.new.items (plan_of (map string_bytes words.now)) (I.tells source.old) (I.left source.old) (I.fault_count source.old) (I.fault_count source.new) result }
    ensures echoed { IsTrue (I.tells source.old) → IsTrue (O.tells sink.old) → plan_of (map string_bytes words.now) ≡ Some (Plan.Run None) → result ≡ Status.Done → is_of_form (orders_of (I.left source.old)) ≡ true → O.held sink.new ≡ O.held sink.old ++ run_text (orders_of (I.left source.old)) }
    ensures leaves { Leaves O.tells O.held O.fault_count sink.old sink.new result }
    ensures later { I.fault_count source.old ≤ I.fault_count source.new }
    ensures tells { I.tells source.new ≡ I.tells source.old }
{
    match plan_words(alloc, words) {
        Ok(Plan::Run { dir }) => match read_orders(alloc, source) {
            Ok(orders) => {
                let task = Task {
                    orders,
                    made: None,
                    may_echo: dir.is_none(),
                };
                run_task(rt, alloc, sink, disks, task)
            }
            Err(status) => status.written(alloc, sink),
        },
        Ok(Plan::Make { n, dir: _ }) => run_made(rt, alloc, n, sink, disks),
        Ok(Plan::Check) => check_source(alloc, source, sink),
        Err(WordsFault::Usage) => Status::Usage.written(alloc, sink),
        Err(WordsFault::NoMemory) => Status::NoMemory,
    }
}

/// Runs the scenario that a source gives, or a generated one, on these disks, which are empty, and writes the order
/// lines and the report, the summary, or the one line of a refusal. The answers stand in `Status`. `check` and every
/// other list of words are answered as by `run_start::check_main`. A scenario with an order of the backup takes one disk more than
/// its members: the one behind theirs, which is named by the number of members.
pub fn cluster_main<
    R: Threads + Wait + Copy + Send + Sync + 'static,
    I: Source,
    O: Sink,
    D: Disk + Drop,
>(
    rt: &R,
    alloc: Global,
    words: &[String],
    source: &mut I,
    sink: &mut O,
    disks: &mut Vec<D>,
) -> Status
    ensures usage { result ≡ Status.Usage → plan_of (map string_bytes words.now) ≡ None }
    ensures usage_exactly { plan_of (map string_bytes words.now) ≡ None → IsOrGivesUp result Status.Usage }
    ensures ends { (dir : Option (List ℕ)) → plan_of (map string_bytes words.now) ≡ Some (Plan.Run dir) → IsRun D.tells D.state D.fault_count disks.old.items disks.new.items (I.tells source.old) (I.left source.old) (I.fault_count source.old) (I.fault_count source.new) result }
    ensures read_fault { result ≡ Status.ReadFault → Rose (I.fault_count source.old) (I.fault_count source.new) }
    ensures write_fault { result ≡ Status.WriteFault → Rose (O.fault_count sink.old) (O.fault_count sink.new) }
    ensures too_long { IsTrue (I.tells source.old) → result ≡ Status.TooLong → 1048576 < length (I.left source.old) }
    ensures refused { (line : ℕ) → (cause : Cause) → result ≡ Status.Refused line cause → IsFaulty (I.tells source.old) (I.left source.old) line cause }
    ensures few_disks { (members : ℕ) → (few : ℕ) → result ≡ Status.FewDisks members few → (few ≡ length disks.old.items) × AreFew (I.tells source.old) (I.left source.old) members few }
    ensures used { (member : ℕ) → (file : ℕ) → result ≡ Status.Used member file → IsUsedAt D.tells D.state disks.old.items member file }
    ensures disk_fault { (member : ℕ) → result ≡ Status.DiskFault member → RoseAt D.fault_count disks.old.items disks.new.items member }

    // One member with the echo service, on disks of which no folder is named: the text is that of its world.
    ensures echoed { IsTrue (I.tells source.old) → IsTrue (O.tells sink.old) → plan_of (map string_bytes words.now) ≡ Some (Plan.Run None) → result ≡ Status.Done → is_of_form (orders_of (I.left source.old)) ≡ true → O.held sink.new ≡ O.held sink.old ++ run_text (orders_of (I.left source.old)) }

    // In the world that these orders reach, whose text is written, the service's inputs are a front of the printed log, and
    // each record is owed by its entry and sent once, by the one leader of its term.
    ensures headline { IsTrue (I.tells source.old) → plan_of (map string_bytes words.now) ≡ Some (Plan.Run None) → result ≡ Status.Done → is_of_form (orders_of (I.left source.old)) ≡ true → Headline (orders_of (I.left source.old)) }

    // What a sink that tells then holds: the one line of a refusal, and always what it held and more.
    ensures refusal { IsTrue (O.tells sink.old) → IsRefusal result → O.held sink.new ≡ O.held sink.old ++ status_text result }
    ensures more { IsTrue (O.tells sink.old) → IsFront (O.held sink.old) (O.held sink.new) }

    ensures source_later { I.fault_count source.old ≤ I.fault_count source.new }
    ensures sink_later { O.fault_count sink.old ≤ O.fault_count sink.new }
    ensures source_tells { I.tells source.new ≡ I.tells source.old }
    ensures sink_tells { O.tells sink.new ≡ O.tells sink.old }
{
    headline();
    answer(rt, alloc, words, source, sink, disks)
}
