// What a machine counts.
ghost use Rattle.std.specs.Prelude.{◌≡◌, ◌+◌, ◌<◌, ◌≤◌, Some};
ghost use Rattle.machine.specs.Texts.{counts_text};

use std::fmt;

// Kept: clauses write the number out, as a ghost field cannot name a constant ("not in scope").
/// What the count of clocks never passes, as `bounded` says.
pub const MOST_CLOCKS: u64 = 1_000_000_000_000;

/// The clocks since the last start, resume or reset, how many of them were waits, and the instructions finished in them.
#[derive(Clone, Copy, Debug, PartialEq, Eq)]
pub struct Counts {
    pub clocks: u64,
    pub waits: u64,
    pub finished: u64,
    pub ghost waited: { waits ≤ clocks },
    pub ghost ended: { finished ≤ clocks },
    pub ghost bounded: { clocks ≤ 1000000000000 },
}

impl Counts {
    // All 0.
    pub(crate) fn none() -> Counts
        ensures clocks { result.clocks ≡ 0 }
        ensures waits { result.waits ≡ 0 }
        ensures finished { result.finished ≡ 0 }
    {
        Counts {
            clocks: 0,
            waits: 0,
            finished: 0,
        }
    }

    // A clock that does a step.
    pub(crate) fn step(&mut self)
        requires { self.old.clocks < 1000000000000 }
        ensures clocks { self.new.clocks ≡ self.old.clocks + 1 }
        ensures waits { self.new.waits ≡ self.old.waits }
        ensures finished { self.new.finished ≡ self.old.finished }
    {
        self.clocks += 1;
    }

    // A clock that only waits.
    pub(crate) fn wait(&mut self)
        requires { self.old.clocks < 1000000000000 }
        ensures clocks { self.new.clocks ≡ self.old.clocks + 1 }
        ensures waits { self.new.waits ≡ self.old.waits + 1 }
        ensures finished { self.new.finished ≡ self.old.finished }
    {
        self.clocks += 1;
        self.waits += 1;
    }

    // An instruction, at its last clock.
    pub(crate) fn finish(&mut self)
        requires { self.old.finished < self.old.clocks }
        ensures clocks { self.new.clocks ≡ self.old.clocks }
        ensures waits { self.new.waits ≡ self.old.waits }
        ensures finished { self.new.finished ≡ self.old.finished + 1 }
    {
        self.finished += 1;
    }
}

impl fmt::Display for Counts {
    ghost output = { λ c. Some (counts_text c.clocks c.waits c.finished) };

    fn fmt<W: fmt::Write>(&self, f: &mut fmt::Formatter<W>) -> fmt::Result {
        let Counts {
            clocks,
            waits,
            finished,
        } = *self;
        write!(f, "clocks {clocks} waits {waits} finished {finished}")
    }
}
