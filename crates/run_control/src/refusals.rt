// Why a call on the machine is refused.
ghost use Rattle.std.specs.Prelude.{◌≡◌};
ghost use Rattle.run_control.specs.declared.refusals.Refusal.TheVariants as refusals;
ghost use Rattle.run_control.specs.Refusals.{refusal_number, reason};

use image::ImageRefusal;
use memory::MemoryFault;
use std::fmt;

#[derive(Clone, Copy, Debug, PartialEq, Eq)]
pub enum Refusal {
    /// The machine runs.
    Running,
    /// The fault mark is set.
    FaultMark,
    /// The machine is stopped.
    Stopped,
    /// There are the registers 0 to 31.
    NoRegister { number: u32 },
    /// The memory has no word of that number.
    NoWord(MemoryFault),
    /// A call spends 1 to 1,000,000 clocks.
    ClockCount { wanted: u64 },
    /// The count of clocks would pass 10^12.
    ClocksFull { clocks: u64, wanted: u64 },
    /// The bytes are no image for this memory.
    Image(ImageRefusal),
}

impl From<MemoryFault> for Refusal {
    ghost from_gives = { λ f r. r ≡ refusals.NoWord f };

    fn from(fault: MemoryFault) -> Refusal {
        Refusal::NoWord(fault)
    }
}

impl From<ImageRefusal> for Refusal {
    ghost from_gives = { λ e r. r ≡ refusals.Image e };

    fn from(cause: ImageRefusal) -> Refusal {
        Refusal::Image(cause)
    }
}

impl std::error::Error for Refusal {}

impl Refusal {
    /// The number that the refusal is told by, 1 to 13.
    pub fn number(&self) -> u8
        ensures { result ≡ refusal_number self.now }
    {
        match self {
            Refusal::Running => 1,
            Refusal::FaultMark => 2,
            Refusal::Stopped => 3,
            Refusal::NoRegister { .. } => 4,
            Refusal::NoWord(_) => 5,
            Refusal::ClockCount { .. } => 6,
            Refusal::ClocksFull { .. } => 7,
            Refusal::Image(refusal) => refusal.number(),
        }
    }
}

impl fmt::Display for Refusal {
    ghost output = { reason };

    fn fmt<W: fmt::Write>(&self, f: &mut fmt::Formatter<W>) -> fmt::Result {
        match *self {
            Refusal::Running => f.write_str("the machine is running"),
            Refusal::FaultMark => f.write_str("a fault stands"),
            Refusal::Stopped => f.write_str("the machine is stopped"),
            Refusal::NoRegister { number } => write!(f, "there is no register {number}"),
            Refusal::NoWord(fault) => {
                write!(
                    f,
                    "there is no word {} in a memory of {}",
                    fault.number, fault.size
                )
            }
            Refusal::ClockCount { wanted } => {
                write!(
                    f,
                    "{wanted} clocks are wanted, and a call spends 1 to 1000000"
                )
            }
            Refusal::ClocksFull { clocks, wanted } => {
                write!(
                    f,
                    "{clocks} clocks are counted, and with {wanted} more they pass 1000000000000"
                )
            }
            Refusal::Image(refusal) => write!(f, "{refusal}"),
        }
    }
}
