// Why a text isn't a scenario, and what was read of it.
ghost use Rattle.std.specs.Prelude.{◌≡◌};
ghost use Rattle.scenario.specs.Causes.{cause_text};

use crate::Order;
use cl_base::{List, NoMemory};
use std::alloc::AllocFailed;

/// Why a line is faulty. Of a line the first that applies, in this order, is named.
#[derive(Clone, Copy, Debug, PartialEq, Eq)]
pub enum Cause {
    /// A byte outside 0x20 to 0x7e.
    Byte,
    /// More than 40,000 bytes.
    LongLine,
    /// The first word names no order.
    UnknownOrder,
    /// The number of the words, or the spelling of one.
    Arguments,
    /// A number outside its range, or two members that have to differ and don't.
    Range,
    /// Not the line that must come: `members`, then one to three of `service`, then the other orders.
    Header,
    /// More than 100,000 rounds so far.
    Rounds,
    /// An order sends for a client that joined, or a client joins that an order named.
    Joined,
    /// An offer of a client that didn't join.
    NotJoined,
    /// An order that the program doesn't run yet. Reading gives it for no line.
    NotBuilt,
}

impl Cause {
    /// The cause as it is printed.
    pub fn text(self) -> &'static str
        ensures { result.now ≡ cause_text self }
    {
        match self {
            Cause::Byte => "byte",
            Cause::LongLine => "long line",
            Cause::UnknownOrder => "unknown order",
            Cause::Arguments => "arguments",
            Cause::Range => "range",
            Cause::Header => "header",
            Cause::Rounds => "rounds",
            Cause::Joined => "joined",
            Cause::NotJoined => "not joined",
            Cause::NotBuilt => "not built",
        }
    }
}

/// The first faulty line, counted from 1, and its cause.
#[derive(Clone, Copy, Debug, PartialEq, Eq)]
pub struct Refusal {
    /// Its number. Where the text ends before its header is whole, the number of lines plus 1.
    pub line: u64,
    pub cause: Cause,
}

/// What a text says.
#[derive(Debug, Drop)]
pub struct Reading {
    /// The orders before the first faulty line.
    pub orders: List<Order>,
    /// The first faulty line, or None where the text is a scenario.
    pub fault: Option<Refusal>,
}

/// Why a text gives no orders.
#[derive(Clone, Copy, Debug, PartialEq, Eq)]
pub enum ParseFault {
    /// The text isn't a scenario: its first faulty line, and the cause.
    Refused { line: u64, cause: Cause },
    /// No memory was there.
    NoMemory,
}

/// Why a line gives no order.
#[derive(Clone, Copy, Debug, PartialEq, Eq)]
pub enum LineFault {
    /// The line is faulty.
    Faulty(Cause),
    /// No memory was there.
    NoMemory,
}

impl From<NoMemory> for LineFault {
    ghost use Rattle.scenario.specs.declared.fault.LineFault.TheVariants.{NoMemory};

    ghost from_gives = { λ _ e. e ≡ NoMemory };

    fn from(_: NoMemory) -> Self {
        LineFault::NoMemory
    }
}

impl<T: Drop> From<AllocFailed<T>> for LineFault {
    ghost use Rattle.scenario.specs.declared.fault.LineFault.TheVariants.{NoMemory};

    ghost from_gives = { λ _ e. e ≡ NoMemory };

    fn from(_: AllocFailed<T>) -> Self {
        LineFault::NoMemory
    }
}

impl From<NoMemory> for ParseFault {
    ghost use Rattle.scenario.specs.declared.fault.ParseFault.TheVariants.{NoMemory};

    ghost from_gives = { λ _ e. e ≡ NoMemory };

    fn from(_: NoMemory) -> Self {
        ParseFault::NoMemory
    }
}
