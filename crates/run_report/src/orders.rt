// The lines that are written while a run goes on.
ghost use Rattle.std.specs.Prelude.{◌≡◌, ◌++◌, IsTrue, OnOk, OnErr, string_bytes};
ghost use Rattle.cl_base.specs.Counts.{HasCause};
ghost use Rattle.line_text.specs.Written.{IsPart};
ghost use Rattle.run_report.specs.Orders.{leader_text, cause_text, bad_text, outcome_text, reply_text, order_line, stopped_line, backup_stopped_line};

use cl_base::{NoMemory, Sink, Trouble};
use ingress::Outcome;
use line_text::{give, put, put_count, put_number, put_value, put_value32};
use std::alloc::Global;
use wire_prims::{Bad, BadCause};

/// What an order is answered.
#[derive(Clone, Copy, Debug, PartialEq, Eq)]
pub enum Reply {
    /// What became of what a client sent, or of an action.
    Given(Outcome),
    /// It was done.
    Fine,
    /// The member runs.
    Running,
    /// The member's file of this number is first wrong at this place (bytes).
    Damaged { file: u32, place: u64 },
    /// No valid snapshot set is there.
    NoSnapshot,
    /// A joined client that is to offer has no session.
    NotOpen,
}

fn put_leader(page: &mut String, leader: i32) -> Result<(), NoMemory>
    ensures { OnOk result (string_bytes page.new ≡ string_bytes page.old ++ leader_text leader) }
{
    if leader < 0 {
        return put(page, "not leader -");
    }
    put_value32(page, "not leader ", leader)
}

fn word_of(cause: BadCause) -> &'static str
    ensures { result.now ≡ cause_text cause }
{
    match cause {
        BadCause::Short => "short",
        BadCause::Schema => "schema",
        BadCause::Template => "template",
        BadCause::Block => "block",
        BadCause::Value => "value",
        BadCause::Trailing => "trailing",
    }
}

fn put_bad(page: &mut String, bad: Bad) -> Result<(), NoMemory>
    ensures { OnOk result (string_bytes page.new ≡ string_bytes page.old ++ bad_text bad) }
{
    put_count(page, "bad ", bad.place)?;
    put(page, " ")?;
    put(page, word_of(bad.cause))
}

fn put_outcome(page: &mut String, outcome: Outcome) -> Result<(), NoMemory>
    ensures { OnOk result (string_bytes page.new ≡ string_bytes page.old ++ outcome_text outcome) }
{
    match outcome {
        Outcome::MemberDown => put(page, "member down"),
        Outcome::Bad(bad) => put_bad(page, bad),
        Outcome::NotLeader { leader } => put_leader(page, leader),
        Outcome::WrongTerm { term } => put_value(page, "wrong term ", term),
        Outcome::NoSession { session } => put_value(page, "no session ", session),
        Outcome::TooLarge { bytes } => put_count(page, "too large ", bytes),
        Outcome::SessionLimit => put(page, "session limit"),
        Outcome::ActionLimit => put(page, "action limit"),
        Outcome::BackPressure { bytes } => put_count(page, "back pressure ", bytes),
        Outcome::LogFull { place } => put_count(page, "log full ", place),
        Outcome::Device => put(page, "device"),
        Outcome::Alive => put(page, "alive"),
        Outcome::Accepted { index } => put_count(page, "accepted ", index),
    }
}

fn put_reply(page: &mut String, reply: Reply) -> Result<(), NoMemory>
    ensures { OnOk result (string_bytes page.new ≡ string_bytes page.old ++ reply_text reply) }
{
    match reply {
        Reply::Given(outcome) => put_outcome(page, outcome),
        Reply::Fine => put(page, "ok"),
        Reply::Running => put(page, "running"),
        Reply::Damaged { file, place } => {
            put_count(page, "damaged ", file as u64)?;
            put_count(page, " ", place)
        }
        Reply::NoSnapshot => put(page, "no snapshot"),
        Reply::NotOpen => put(page, "not open"),
    }
}

fn put_order_line(page: &mut String, line: u64, reply: Reply) -> Result<(), NoMemory>
    ensures { OnOk result (string_bytes page.new ≡ string_bytes page.old ++ order_line line reply) }
{
    put_count(page, "order ", line)?;
    put(page, " ")?;
    put_reply(page, reply)?;
    put(page, "\n")
}

/// Writes what became of the order in a line.
pub fn put_order<O: Sink>(
    alloc: Global,
    sink: &mut O,
    line: u64,
    reply: Reply,
) -> Result<(), Trouble>
    ensures cause { HasCause (O.fault_count sink.old) (O.fault_count sink.new) result }
    ensures tells { O.tells sink.new ≡ O.tells sink.old }
    ensures whole { IsTrue (O.tells sink.old) → OnOk result (O.held sink.new ≡ O.held sink.old ++ order_line line reply) }
    ensures part { IsTrue (O.tells sink.old) → OnErr result (IsPart (O.held sink.old) (order_line line reply) (O.held sink.new)) }
{
    let mut page = String::new(alloc);
    match put_order_line(&mut page, line, reply) {
        Ok(()) => give(sink, page.as_bytes()),
        Err(NoMemory) => Err(Trouble::NoMemory),
    }
}

fn put_stopped_line(page: &mut String, member: u8) -> Result<(), NoMemory>
    ensures { OnOk result (string_bytes page.new ≡ string_bytes page.old ++ stopped_line member) }
{
    write!(page, "stopped {member}\n")?;
    Ok(())
}

/// Writes that a member was stopped by its disk, or for what it read from it.
pub fn put_stopped<O: Sink>(alloc: Global, sink: &mut O, member: u8) -> Result<(), Trouble>
    ensures cause { HasCause (O.fault_count sink.old) (O.fault_count sink.new) result }
    ensures tells { O.tells sink.new ≡ O.tells sink.old }
    ensures whole { IsTrue (O.tells sink.old) → OnOk result (O.held sink.new ≡ O.held sink.old ++ stopped_line member) }
    ensures part { IsTrue (O.tells sink.old) → OnErr result (IsPart (O.held sink.old) (stopped_line member) (O.held sink.new)) }
{
    let mut page = String::new(alloc);
    match put_stopped_line(&mut page, member) {
        Ok(()) => give(sink, page.as_bytes()),
        Err(NoMemory) => Err(Trouble::NoMemory),
    }
}

/// Writes that the backup was stopped by its disk.
pub fn put_backup_stopped<O: Sink>(sink: &mut O) -> Result<(), Trouble>
    ensures cause { HasCause (O.fault_count sink.old) (O.fault_count sink.new) result }
    ensures tells { O.tells sink.new ≡ O.tells sink.old }
    ensures whole { IsTrue (O.tells sink.old) → OnOk result (O.held sink.new ≡ O.held sink.old ++ backup_stopped_line) }
    ensures part { IsTrue (O.tells sink.old) → OnErr result (IsPart (O.held sink.old) backup_stopped_line (O.held sink.new)) }
{
    give(sink, b"stopped backup\n")
}
