// What a machine tells.
ghost use Rattle.std.specs.Prelude.{◌≡◌};
ghost use Rattle.onebus.specs.View.{Fits};
ghost use Rattle.machine.specs.View.{view, lent};
ghost use Rattle.machine.specs.Questions.{register_asked, word_asked, after_word_asked, pc_of, step_of, size_of};

use crate::counts::Counts;
use crate::frame::Machine;
use memory::Memory;
use run_control::Refusal;

impl<M: Memory> Machine<M> {
    /// The value of a register: there are 32.
    pub fn register(&self, number: u32) -> Result<u32, Refusal>
        ensures { result ≡ register_asked (view M.Memory self.now) number }
    {
        self.core
            .register(number as usize)
            .ok_or(Refusal::NoRegister { number })
    }

    /// A word of the memory. That it is read may change later delays.
    pub fn word(&mut self, number: u32) -> Result<u32, Refusal>
        ensures answer { result ≡ word_asked (view M.Memory self.old) number }
        ensures state { view M.Memory self.new ≡ after_word_asked (view M.Memory self.old) number (M.Memory.delay self.new.memory) }
        ensures lent { lent M.Memory self.new ≡ lent M.Memory self.old }
    {
        Ok(self.memory.read(number)?)
    }

    /// The program counter.
    pub fn pc(&self) -> u32
        ensures { result ≡ pc_of (view M.Memory self.now) }
    {
        self.core.pc()
    }

    /// The step T. A caller learns here what the core of every machine meets.
    pub fn step(&self) -> u8
        ensures step { result ≡ step_of (view M.Memory self.now) }
        ensures fits { Fits (view M.Memory self.now).core }
    {
        self.core.step_number()
    }

    pub fn runs(&self) -> bool
        ensures { result ≡ (view M.Memory self.now).run }
    {
        self.run
    }

    pub fn fault_stands(&self) -> bool
        ensures { result ≡ (view M.Memory self.now).mark }
    {
        self.mark
    }

    pub fn reset_waits(&self) -> bool
        ensures { result ≡ (view M.Memory self.now).reset }
    {
        self.reset
    }

    /// What the machine has counted since the last start, resume or reset.
    pub fn counts(&self) -> Counts
        ensures clocks { result.clocks ≡ (view M.Memory self.now).clocks }
        ensures waits { result.waits ≡ (view M.Memory self.now).waits }
        ensures finished { result.finished ≡ (view M.Memory self.now).finished }
    {
        self.counts
    }

    /// The clocks since the last start, resume or reset.
    pub fn clocks(&self) -> u64
        ensures { result ≡ (view M.Memory self.now).clocks }
    {
        self.counts.clocks
    }

    /// How many of them were waits.
    pub fn waits(&self) -> u64
        ensures { result ≡ (view M.Memory self.now).waits }
    {
        self.counts.waits
    }

    /// The instructions finished since then.
    pub fn finished(&self) -> u64
        ensures { result ≡ (view M.Memory self.now).finished }
    {
        self.counts.finished
    }

    /// How many words the memory has.
    pub fn size(&mut self) -> u32
        ensures answer { result ≡ size_of (view M.Memory self.old) }
        ensures state { view M.Memory self.new ≡ view M.Memory self.old }
        ensures lent { lent M.Memory self.new ≡ lent M.Memory self.old }
    {
        self.memory.size()
    }

    /// The machine's memory, as the machine leaves it.
    pub fn into_memory(self) -> M
        ensures words { M.Memory.words result ≡ (view M.Memory self).words }
        ensures delays { M.Memory.delay result ≡ (view M.Memory self).delays }
        ensures lent { M.Memory.frame result ≡ lent M.Memory self }
    {
        let Machine {
            memory,
            core: _,
            run: _,
            mark: _,
            reset: _,
            left: _,
            counts: _,
        } = self;
        memory
    }
}
