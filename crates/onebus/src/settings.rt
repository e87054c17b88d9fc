// Making and setting a core.
ghost use Rattle.std.specs.Prelude.{◌≡◌, ◌<◌, if◌then◌else◌, nat_lt};
ghost use Rattle.rows.specs.Core.{at_step};
ghost use Rattle.onebus.specs.View.{Fits, with_register, zeroed, cleared, restarted, started};

use crate::register_set::Core;

impl Core {
    /// A core whose registers are all 0.
    pub fn new() -> Self
        ensures core { result ≡ zeroed }
        ensures fits { Fits result }
    {
        Core {
            pc: 0,
            regs: [0; 32],
            ir: 0,
            ma: 0,
            md: 0,
            a: 0,
            c: 0,
            n: 0,
            con: false,
            t: 0,
        }
    }

    /// Zeroes PC, T and R0 to R31.
    pub fn start(&mut self)
        ensures core { self.new ≡ started self.old }
        ensures fits { Fits self.new }
    {
        self.clear_registers();
        self.restart();
    }

    fn clear_registers(&mut self)
        ensures { self.new ≡ cleared self.old }
    {
        self.regs = [0; 32];
    }

    /// Zeroes PC and T.
    pub fn restart(&mut self)
        ensures core { self.new ≡ restarted self.old }
        ensures fits { Fits self.new }
    {
        self.pc = 0;
        self.resume();
    }

    /// Zeroes T.
    pub fn resume(&mut self)
        ensures core { self.new ≡ at_step self.old 0 }
        ensures fits { Fits self.new }
    {
        self.t = 0;
    }

    // Kept: no `Option` tells of a number that is too large, since run control refuses those by its own refusal before.
    /// Sets a register, where there is one of that number.
    pub fn set_register(&mut self, i: usize, value: u32)
        ensures core { self.new ≡ (if nat_lt i 32 then with_register self.old i value else self.old) }
        ensures fits { Fits self.new }
    {
        if i < 32 {
            self.put(i, value);
        }
        // Reading a field tells the proof what every core meets.
        let _ = &self.t;
    }

    // Kept: a type for register numbers would be made of each number that `selected` picks, in the clock loop, to be read in two places.
    pub(crate) fn put(&mut self, i: usize, value: u32)
        requires { i < 32 }
        ensures { self.new ≡ with_register self.old i value }
    {
        self.regs[i] = value;
    }
}
