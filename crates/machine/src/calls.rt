// The calls on a machine.
ghost use Rattle.std.specs.Prelude.{◌≡◌, if◌then◌else◌, Ok, Err};
ghost use Rattle.run_control.specs.OneBus.{one_bus};
ghost use Rattle.run_control.specs.Calls.{set_up, start_answer, start_state, resume_answer, resume_state, reset_answer, reset_state, register_answer, register_state, word_answer, word_state, load_answer, load_state};
ghost use Rattle.run_control.specs.declared.refusals.Refusal.TheVariants.{Running};
ghost use Rattle.machine.specs.View.{view, lent};

use crate::counts::Counts;
use crate::frame::Machine;
use memory::Memory;
use onebus::Core;
use run_control::Refusal;

impl<M: Memory> Machine<M> {
    /// A stopped machine over the memory, with its core and its counts all 0.
    pub fn set_up(memory: M) -> Machine<M>
        ensures state { view M.Memory result ≡ set_up one_bus (M.Memory.words memory) (M.Memory.delay memory) }
        ensures lent { lent M.Memory result ≡ M.Memory.frame memory }
    {
        Machine {
            memory,
            core: Core::new(),
            run: false,
            mark: false,
            reset: false,
            left: None,
            counts: Counts::none(),
        }
    }

    // Refused while the machine runs.
    fn stopped(&self) -> Result<(), Refusal>
        ensures { result ≡ (if self.now.run then Err Running else Ok tt) }
    {
        if self.run {
            return Err(Refusal::Running);
        }
        Ok(())
    }

    /// Runs from PC 0, with the registers and the counts zeroed and no fault standing. Refused while the machine runs.
    pub fn start(&mut self) -> Result<(), Refusal>
        ensures answer { result ≡ start_answer (view M.Memory self.old) }
        ensures state { view M.Memory self.new ≡ start_state one_bus (view M.Memory self.old) }
        ensures lent { lent M.Memory self.new ≡ lent M.Memory self.old }
    {
        self.stopped()?;
        self.core.start();
        self.run = true;
        self.mark = false;
        self.left = None;
        self.counts = Counts::none();
        Ok(())
    }

    /// Runs from PC, with the counts zeroed. Refused while the machine runs, then where a fault stands.
    pub fn resume(&mut self) -> Result<(), Refusal>
        ensures answer { result ≡ resume_answer (view M.Memory self.old) }
        ensures state { view M.Memory self.new ≡ resume_state one_bus (view M.Memory self.old) }
        ensures lent { lent M.Memory self.new ≡ lent M.Memory self.old }
    {
        self.stopped()?;
        if self.mark {
            return Err(Refusal::FaultMark);
        }
        self.core.resume();
        self.run = true;
        self.left = None;
        self.counts = Counts::none();
        Ok(())
    }

    /// Lets a reset wait for the next clock. Refused while the machine is stopped.
    pub fn reset(&mut self) -> Result<(), Refusal>
        ensures answer { result ≡ reset_answer (view M.Memory self.old) }
        ensures state { view M.Memory self.new ≡ reset_state (view M.Memory self.old) }
        ensures lent { lent M.Memory self.new ≡ lent M.Memory self.old }
    {
        if !self.run {
            return Err(Refusal::Stopped);
        }
        self.reset = true;
        Ok(())
    }

    /// Refused while the machine runs, then for a number above 31.
    pub fn set_register(&mut self, number: u32, value: u32) -> Result<(), Refusal>
        ensures answer { result ≡ register_answer (view M.Memory self.old) number }
        ensures state { view M.Memory self.new ≡ register_state one_bus (view M.Memory self.old) number value }
        ensures lent { lent M.Memory self.new ≡ lent M.Memory self.old }
    {
        self.stopped()?;
        if number >= 32 {
            return Err(Refusal::NoRegister { number });
        }
        self.core.set_register(number as usize, value);
        Ok(())
    }

    /// Refused while the machine runs, then for a number that is not below the memory's size.
    pub fn set_word(&mut self, number: u32, value: u32) -> Result<(), Refusal>
        ensures answer { result ≡ word_answer (view M.Memory self.old) number }
        ensures state { view M.Memory self.new ≡ word_state (view M.Memory self.old) number value (M.Memory.delay self.new.memory) }
        ensures lent { lent M.Memory self.new ≡ lent M.Memory self.old }
    {
        self.stopped()?;
        Ok(self.memory.write(number, value)?)
    }

    /// Sets the words that the image at the end of `bytes` lists. Refused while the machine runs, then as reading the image for this memory is.
    pub fn load(&mut self, bytes: &[u8]) -> Result<(), Refusal>
        ensures answer { result ≡ load_answer (view M.Memory self.old) bytes.now }
        ensures state { view M.Memory self.new ≡ load_state (view M.Memory self.old) bytes.now (M.Memory.delay self.new.memory) }
        ensures lent { lent M.Memory self.new ≡ lent M.Memory self.old }
    {
        self.stopped()?;
        Ok(image::load(&mut self.memory, bytes)?)
    }
}
