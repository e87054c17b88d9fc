// What a core tells.
ghost use Rattle.std.specs.Prelude.{◌≡◌, ◌/◌, ◌%◌, if◌then◌else◌, Some, None, ◌==◌, nat_lt, slice_index};
ghost use Rattle.rows.specs.Rows.{table};
ghost use Rattle.rows.specs.Core.{waits};
ghost use Rattle.onebus.specs.View.{Fits};

use crate::register_set::Core;
use rows::Signal;

impl Core {
    /// A register, where there is one of that number.
    pub fn register(&self, i: usize) -> Option<u32>
        ensures value { result ≡ (if nat_lt i 32 then Some (slice_index self.now.regs i) else None) }
        ensures fits { Fits self.now }
    {
        self.regs.get(i).copied()
    }

    pub fn pc(&self) -> u32
        ensures value { result ≡ self.now.pc }
        ensures fits { Fits self.now }
    {
        self.pc
    }

    /// The step T.
    pub fn step_number(&self) -> u8
        ensures step { result ≡ self.now.t }
        ensures fits { Fits self.now }
    {
        self.t
    }

    /// Is the step at hand a Wait step?
    pub fn is_wait_step(&self) -> bool
        ensures value { result ≡ waits table self.now }
        ensures fits { Fits self.now }
    {
        let word = self.control_word();
        word.has(Signal::Wait) && word.allows(self.n)
    }

    /// The address that a read or a write uses.
    pub fn address(&self) -> u32
        ensures value { result ≡ self.now.ma }
        ensures fits { Fits self.now }
    {
        self.ma
    }

    /// Is that address a multiple of four?
    pub fn is_aligned(&self) -> bool
        ensures value { result ≡ (self.now.ma % 4 == 0) }
        ensures fits { Fits self.now }
    {
        self.address() % 4 == 0
    }

    /// The number of the word at that address.
    pub fn word_number(&self) -> u32
        ensures value { result ≡ self.now.ma / 4 }
        ensures fits { Fits self.now }
    {
        self.address() / 4
    }
}
