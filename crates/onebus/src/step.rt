// One control step over any memory.
ghost use Rattle.std.specs.Prelude.{◌≡◌};
ghost use Rattle.rows.specs.Rows.{table};
ghost use Rattle.rows.specs.Core.{bus, stored, at_step, rowless, control_at};
ghost use Rattle.onebus.specs.Steps.{progress_of, Reads, Writes, Accesses, Stepped};
ghost use Rattle.onebus.specs.View.{Fits};

use crate::control::ControlWord;
use crate::datapath::raised;
use crate::fault::{Cause, CoreFault};
use crate::microcode::control_store;
use crate::progress::Progress;
use crate::register_set::Core;
use isa::Field;
use memory::Memory;
use rows::Signal;

impl Core {
    // Kept: the look-up stands here again, as the control word by any code and step tests both, and these two are known to fit.
    /// The control word of IR's operation at the step T.
    pub fn control_word(&self) -> ControlWord
        ensures word { result.0 ≡ control_at table self.now }
        ensures fits { Fits self.now }
    {
        ControlWord(control_store()[Field::Op.of(self.ir) as usize * 8 + self.t as usize])
    }

    /// Has the operation no row? Its control word in T3 is empty.
    fn is_rowless(&self, word: ControlWord) -> bool
        ensures { result ≡ rowless word.0 self.now.t }
    {
        word.0 == 0 && self.t == 3
    }

    // Kept: the control word and the memory go through the three functions of an access; a struct of both would borrow the memory anew in each.
    /// What MD has after the step's read, if it has one.
    fn read_word<M: Memory>(&self, word: ControlWord, memory: &mut M) -> Result<u32, Cause>
        ensures { Reads M.Memory word.0 self.now memory.old result memory.new }
    {
        if word.has(Signal::Read) {
            Ok(memory.read(self.word_number())?)
        } else {
            Ok(self.md)
        }
    }

    /// The step's write, if it has one.
    fn write_word<M: Memory>(&self, word: ControlWord, memory: &mut M) -> Result<(), Cause>
        ensures { Writes M.Memory word.0 self.now memory.old result memory.new }
    {
        if word.has(Signal::Write) {
            memory.write(self.word_number(), self.md)?;
        }
        Ok(())
    }

    /// Reads and writes the word at MA as the step asks: what MD has then.
    fn access<M: Memory>(&self, word: ControlWord, memory: &mut M) -> Result<u32, Cause>
        ensures { Accesses M.Memory word.0 self.now memory.old result memory.new }
    {
        if !word.touches_memory() {
            return Ok(self.md);
        }
        if !self.is_aligned() {
            return Err(Cause::Unaligned);
        }
        let held = self.read_word(word, memory)?;
        self.write_word(word, memory)?;
        Ok(held)
    }

    /// The registers of a step whose access leaves `held` for MD.
    fn carry_out(&mut self, word: ControlWord, held: u32) -> Progress
        ensures core { self.new ≡ stored word.0 (bus word.0 self.old) held self.old }
        ensures answer { result ≡ progress_of word.0 }
    {
        let bus = self.bus(word);
        self.store(word, bus, held);
        word.progress()
    }

    /// A fault at the address in MA: T becomes 0.
    fn fail(&mut self, cause: Cause) -> CoreFault
        ensures core { self.new ≡ at_step self.old 0 }
        ensures answer { result ≡ record { cause = cause; address = self.old.ma; step = self.old.t } }
    {
        let fault = CoreFault {
            cause,
            address: self.ma,
            step: self.t,
        };
        self.t = 0;
        fault
    }

    /// One step under a control word.
    fn step_under<M: Memory>(
        &mut self,
        word: ControlWord,
        memory: &mut M,
    ) -> Result<Progress, CoreFault>
        ensures { Stepped M.Memory word.0 self.old memory.old result self.new memory.new }
    {
        if self.is_rowless(word) {
            return Err(self.fail(Cause::Unassigned));
        }
        if !word.allows(self.n) {
            self.t = raised(self.t);
            return Ok(Progress::Within);
        }
        // Kept: `map_err` does not say that a closure over the core which it never calls leaves it as it was.
        match self.access(word, memory) {
            Ok(held) => Ok(self.carry_out(word, held)),
            Err(cause) => Err(self.fail(cause)),
        }
    }

    /// One step under our control store.
    pub fn step<M: Memory>(&mut self, memory: &mut M) -> Result<Progress, CoreFault>
        ensures step { Stepped M.Memory (control_at table self.old) self.old memory.old result self.new memory.new }
        ensures fits { Fits self.new }
    {
        let word = self.control_word();
        let progress = self.step_under(word, memory);
        // Reading a field tells the proof what every core meets.
        let _ = &self.t;
        progress
    }
}
