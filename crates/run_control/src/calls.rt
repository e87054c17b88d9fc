// The calls on a machine, and their answers.
ghost use Rattle.std.specs.Prelude.{◌≡◌};
ghost use Rattle.run_control.specs.Whole.{plain, clock_told};

use crate::faults::MachineFault;
use crate::refusals::Refusal;

/// A call that changes the machine.
#[derive(Clone, Copy, Debug, PartialEq, Eq)]
pub enum Call<'a> {
    Start,
    Resume,
    Reset,
    /// A register's number and its value.
    SetRegister(u32, u32),
    /// A word's number and its value.
    SetWord(u32, u32),
    /// The bytes of an image.
    Load(&'a [u8]),
    /// How many clocks are wanted.
    Clock(u64),
}

// Kept: no `Result`, since a refusal and a fault are answers like the others, each with its own line of text; and `Spent` has the pair of numbers that the definitions tell, as `MachineFault` has.
#[derive(Clone, Copy, Debug, PartialEq, Eq)]
pub enum Answer {
    Done,
    Refused(Refusal),
    /// The clocks spent, and the instructions finished.
    Spent(u64, u64),
    Faulted(MachineFault),
}

// The answer of a call that tells no number.
impl From<Result<(), Refusal>> for Answer {
    ghost from_gives = { λ o a. a ≡ plain o };

    fn from(outcome: Result<(), Refusal>) -> Answer {
        match outcome {
            Ok(()) => Answer::Done,
            Err(refusal) => Answer::Refused(refusal),
        }
    }
}

// The answer of a clock call.
impl From<Result<Result<(u64, u64), MachineFault>, Refusal>> for Answer {
    ghost from_gives = { λ o a. a ≡ clock_told o };

    fn from(outcome: Result<Result<(u64, u64), MachineFault>, Refusal>) -> Answer {
        match outcome {
            Ok(Ok((spent, finished))) => Answer::Spent(spent, finished),
            Ok(Err(fault)) => Answer::Faulted(fault),
            Err(refusal) => Answer::Refused(refusal),
        }
    }
}

/// A call, and the answer that it got.
#[derive(Clone, Copy, Debug, PartialEq, Eq)]
pub struct Turn<'a> {
    pub call: Call<'a>,
    pub answer: Answer,
}
