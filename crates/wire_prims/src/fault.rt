// Why bytes were not read as a message.
ghost use Rattle.std.specs.Prelude.{◌≡◌};

use cl_base::NoMemory;

/// What is wrong with bytes.
#[derive(Clone, Copy, Debug, PartialEq, Eq)]
pub enum BadCause {
    /// The bytes end before the message does.
    Short,
    /// The schema is another one.
    Schema,
    /// No message that is allowed here has this template number.
    Template,
    /// The block has another length than it must have.
    Block,
    /// A field has a value that it must not have.
    Value,
    /// A byte stands behind the message.
    Trailing,
}

/// The first fault of bytes that are no message.
#[derive(Clone, Copy, Debug, PartialEq, Eq)]
pub struct Bad {
    /// Where it is, in bytes from the message's first.
    pub place: u64,
    /// What it is.
    pub cause: BadCause,
}

/// Why a decoder gave no value.
#[derive(Clone, Copy, Debug, PartialEq, Eq)]
pub enum DecodeFault {
    /// The bytes are no message.
    Bad(Bad),
    /// No memory was there for the value.
    NoMemory,
}

impl From<Bad> for DecodeFault {
    ghost use Rattle.wire_prims.specs.declared.fault.DecodeFault.TheVariants as faults;

    ghost from_gives = { λ bad e. e ≡ faults.Bad bad };

    fn from(bad: Bad) -> DecodeFault {
        DecodeFault::Bad(bad)
    }
}

impl From<NoMemory> for DecodeFault {
    ghost use Rattle.wire_prims.specs.declared.fault.DecodeFault.TheVariants as faults;

    ghost from_gives = { λ _ e. e ≡ faults.NoMemory };

    fn from(_: NoMemory) -> DecodeFault {
        DecodeFault::NoMemory
    }
}
