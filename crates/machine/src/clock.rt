// One clock, and the call that spends many.
ghost use Rattle.std.specs.Prelude.{◌≡◌, ℕ, ◌+◌, ◌/◌, ◌%◌, ◌<◌, IsTrue, true, false, cond};
ghost use Rattle.rows.specs.Rows.{table};
ghost use Rattle.rows.specs.Core.{micro};
ghost use Rattle.run_control.specs.OneBus.{one_bus, outcome, fetched_from};
ghost use Rattle.run_control.specs.State.{tick as ticked, told, told_of, stepped, later_delays, pause};
ghost use Rattle.run_control.specs.Calls.{counted, Clocks};
ghost use Rattle.onebus.specs.View.{Fits};
ghost use Rattle.machine.specs.View.{view, lent};

use crate::counts::{Counts, MOST_CLOCKS};
use crate::frame::Machine;
use memory::Memory;
use onebus::{Core, CoreFault, Progress};
use run_control::{MachineFault, Refusal};

/// The most clocks that a call spends.
pub const MOST_WANTED: u64 = 1_000_000;

// From where the instruction under way was fetched.
fn fetched_from(core: &Core) -> u32
    ensures from { result ≡ fetched_from core.now }
    ensures fits { Fits core.now }
{
    if core.step_number() < 2 {
        core.pc()
    } else {
        core.pc().wrapping_sub(4)
    }
}

impl<M: Memory> Machine<M> {
    // The waits before the step at hand.
    fn waits_due(&mut self) -> u8
        ensures answer { result ≡ pause one_bus (view M.Memory self.old) }
        ensures state { view M.Memory self.new ≡ view M.Memory self.old }
        ensures lent { lent M.Memory self.new ≡ lent M.Memory self.old }
    {
        if !self.core.is_wait_step() {
            return 0;
        }
        if let Some(left) = self.left {
            return left;
        }
        if !self.core.is_aligned() {
            return 0;
        }
        self.memory.delay(self.core.word_number())
    }

    // The step at hand: whether it finished an instruction, or the fault and the instruction's address.
    // Kept: a private `bool` and pair, used up in the one match of `clock`; a type of their own would only rename what the definitions tell by them.
    fn advance(&mut self) -> Result<bool, (CoreFault, u32)>
        requires { self.old.counts.clocks < 1000000000000 }
        ensures answer { result ≡ told_of one_bus (outcome (micro table self.old.core (M.Memory.words self.old.memory))) (view M.Memory self.old) }
        ensures state { view M.Memory self.new ≡ stepped one_bus (outcome (micro table self.old.core (M.Memory.words self.old.memory))) (view M.Memory self.old) (later_delays one_bus (view M.Memory self.old) (M.Memory.delay self.new.memory)) }
        ensures lent { lent M.Memory self.new ≡ lent M.Memory self.old }
    {
        let from = fetched_from(&self.core);
        self.counts.step();
        self.left = None;
        match self.core.step(&mut self.memory) {
            Ok(Progress::Within) => Ok(false),
            Ok(Progress::Finished { stops }) => {
                self.counts.finish();
                if stops {
                    self.run = false;
                }
                Ok(true)
            }
            Err(fault) => {
                self.run = false;
                self.mark = true;
                Err((fault, from))
            }
        }
    }

    // The count of clocks that a clock call begins from: a reset that waits zeroes it.
    fn counted_clocks(&self) -> u64
        ensures { result ≡ counted (view M.Memory self.now) }
    {
        if self.reset { 0 } else { self.counts.clocks }
    }

    // One clock of a running machine.
    fn tick(&mut self) -> Result<bool, (CoreFault, u32)>
        requires run { IsTrue self.old.run }
        requires room { counted (view M.Memory self.old) < 1000000000000 }
        ensures answer { result ≡ told one_bus (view M.Memory self.old) }
        ensures state { view M.Memory self.new ≡ ticked one_bus (view M.Memory self.old) (M.Memory.delay self.new.memory) }
        ensures lent { lent M.Memory self.new ≡ lent M.Memory self.old }
    {
        if self.reset {
            self.core.restart();
            self.reset = false;
            self.left = None;
            self.counts = Counts::none();
            return Ok(false);
        }
        let due = self.waits_due();
        if due > 0 {
            self.left = Some(due - 1);
            self.counts.wait();
            return Ok(false);
        }
        self.advance()
    }

    // Kept: `Result<Spent, ClockEnd>`, with an error enum of `Refused` and `Faulted`, is no plainer here: `Clocks`, `From` for `Answer` and the theorems over them speak of a result in a result, and each clause would first have to turn one into the other.
    /// Spends so many clocks, or fewer where the machine stops or faults: the clocks spent and the instructions finished, or the fault. Refused while the machine is stopped, then unless 1 to 1,000,000 are wanted, then where the count of clocks would pass 10^12.
    pub fn clock(&mut self, wanted: u64) -> Result<Result<(u64, u64), MachineFault>, Refusal>
        ensures clocks { Clocks one_bus M.Memory.delay (view M.Memory self.old) wanted result (view M.Memory self.new) }
        ensures lent { lent M.Memory self.new ≡ lent M.Memory self.old }
    {
        if !self.run {
            return Err(Refusal::Stopped);
        }
        if wanted == 0 || wanted > MOST_WANTED {
            return Err(Refusal::ClockCount { wanted });
        }
        let clocks = self.counted_clocks();
        if clocks + wanted > MOST_CLOCKS {
            return Err(Refusal::ClocksFull { clocks, wanted });
        }
        // Kept: a `for` over the clocks would need a third exit, where the machine stops.
        let mut spent: u64 = 0;
        let mut finished: u64 = 0;
        while self.run && spent < wanted {
            spent += 1;
            match self.tick() {
                Ok(done) => finished += u64::from(done),
                Err((core, instruction)) => {
                    return Ok(Err(MachineFault {
                        core,
                        instruction,
                        spent,
                        finished,
                    }));
                }
            }
        }
        Ok(Ok((spent, finished)))
    }
}
