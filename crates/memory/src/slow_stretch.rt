// The rule that the words of one stretch are slow, and the layer with it.
ghost use Rattle.std.specs.Prelude.{◌≡◌};
ghost use Rattle.memory.specs.SlowStretch.{in_stretch};

use crate::delays::{SlowRule, Slowed};

/// A memory with an extra delay for the words of one stretch.
pub type SlowStretch<M> = Slowed<M, Stretch>;

/// The stretch of `length` words from the number `first` on, and what is added for each of them.
#[derive(Clone, Copy, Debug, PartialEq, Eq)]
pub struct Stretch {
    pub first: u32,
    pub length: u32,
    pub extra: u8,
}

impl Stretch {
    /// `extra` more for the words from the number `first` on, `length` of them.
    pub fn new(first: u32, length: u32, extra: u8) -> Stretch
        ensures { result ≡ record { first = first; length = length; extra = extra } }
    {
        Stretch {
            first,
            length,
            extra,
        }
    }
}

impl SlowRule for Stretch {
    ghost extra = { λ s. in_stretch s.first s.length s.extra };

    // No access changes the stretch.
    ghost after = { λ s _. s };

    #[inline]
    fn extra(&self, number: u32) -> u8 {
        if number >= self.first && number - self.first < self.length {
            self.extra
        } else {
            0
        }
    }

    #[inline]
    fn note(&mut self, _number: u32) {}
}
