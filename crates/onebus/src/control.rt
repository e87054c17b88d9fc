// Control words.
ghost use Rattle.std.specs.Prelude.{◌≡◌, ◌<◌};
ghost use Rattle.rows.specs.Signals.{bit_of, gives};
ghost use Rattle.rows.specs.Core.{met, touches};
ghost use Rattle.onebus.specs.Steps.{progress_of};

use crate::progress::Progress;
use rows::Signal;

/// The signals of one step, each a bit in the order of `Signal`.
#[derive(Clone, Copy, Debug, PartialEq, Eq)]
pub struct ControlWord(pub u64);

/// The signal's bit.
fn bit(signal: Signal) -> u32
    ensures value { result ≡ bit_of signal }
    ensures bound { result < 41 }
{
    signal as u32
}

impl ControlWord {
    pub fn has(self, signal: Signal) -> bool
        ensures { result ≡ gives self.0 signal }
    {
        (self.0 >> bit(signal)) % 2 == 1
    }

    /// Is its condition on the count n met?
    pub(crate) fn allows(self, n: u8) -> bool
        ensures { result ≡ met self.0 n }
    {
        if self.has(Signal::NIsZero) {
            n == 0
        } else if self.has(Signal::NIsNotZero) {
            n != 0
        } else {
            true
        }
    }

    /// Does it read or write a word?
    pub(crate) fn touches_memory(self) -> bool
        ensures { result ≡ touches self.0 }
    {
        self.has(Signal::Read) || self.has(Signal::Write)
    }

    /// How far a step under it has come.
    pub(crate) fn progress(self) -> Progress
        ensures { result ≡ progress_of self.0 }
    {
        if self.has(Signal::End) {
            Progress::Finished {
                stops: self.has(Signal::Stop),
            }
        } else {
            Progress::Within
        }
    }
}
