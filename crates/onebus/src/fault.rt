// Why a step cannot be done.
ghost use Rattle.std.specs.Prelude.{◌≡◌, Some};
ghost use Rattle.onebus.specs.declared.fault.Cause.TheVariants.{NoWord};
ghost use Rattle.onebus.specs.Faults.{number_of, cause_text, fault_text};

use memory::MemoryFault;
use std::error::Error;
use std::fmt;

/// The operation is unassigned, the address is no multiple of four, or the memory has no word of that number.
#[derive(Clone, Copy, Debug, PartialEq, Eq)]
pub enum Cause {
    Unassigned,
    Unaligned,
    NoWord(MemoryFault),
}

/// A cause, the address and the step that told it.
#[derive(Clone, Copy, Debug, PartialEq, Eq)]
pub struct CoreFault {
    pub cause: Cause,
    pub address: u32,
    pub step: u8,
}

impl From<MemoryFault> for Cause {
    ghost from_gives = { λ f r. r ≡ NoWord f };

    fn from(fault: MemoryFault) -> Cause {
        Cause::NoWord(fault)
    }
}

impl Cause {
    /// The number that the cause is told by.
    pub fn number(self) -> u8
        ensures { result ≡ number_of self }
    {
        match self {
            Cause::Unassigned => 17,
            Cause::Unaligned => 18,
            Cause::NoWord(_) => 19,
        }
    }
}

impl fmt::Display for Cause {
    ghost output = { λ e. Some (cause_text e) };

    fn fmt<W: fmt::Write>(&self, f: &mut fmt::Formatter<W>) -> fmt::Result {
        match *self {
            Cause::Unassigned => f.write_str("the operation is unassigned"),
            Cause::Unaligned => f.write_str("the address is no multiple of four"),
            Cause::NoWord(MemoryFault { number, size }) => {
                write!(f, "a memory of {size} words has no word {number}")
            }
        }
    }
}

impl fmt::Display for CoreFault {
    ghost output = { λ f. Some (fault_text f) };

    fn fmt<W: fmt::Write>(&self, f: &mut fmt::Formatter<W>) -> fmt::Result {
        let CoreFault {
            cause,
            address,
            step,
        } = *self;
        let number = cause.number();
        write!(
            f,
            "fault {number} at address {address} in step {step}: {cause}"
        )
    }
}

impl Error for Cause {}

impl Error for CoreFault {}
