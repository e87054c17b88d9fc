// Calls as values: one, and a list of them on a new machine.
ghost use Rattle.std.specs.Prelude.{◌≡◌, map};
ghost use Rattle.run_control.specs.OneBus.{one_bus};
ghost use Rattle.run_control.specs.Feeding.{new_book, fed};
ghost use Rattle.run_control.specs.Whole.{Does, Comes, Agrees, Carries, Paced, call_of};
ghost use Rattle.machine.specs.View.{view, lent};

use crate::frame::Machine;
use memory::Memory;
use run_control::{Answer, Call, Turn};

fn act<M: Memory>(machine: &mut Machine<M>, call: Call) -> Answer
    ensures does { Does one_bus M.Memory.delay (view M.Memory machine.old) call.entry result (view M.Memory machine.new) }
    ensures lent { lent M.Memory machine.new ≡ lent M.Memory machine.old }
{
    match call {
        Call::Start => machine.start().into(),
        Call::Resume => machine.resume().into(),
        Call::Reset => machine.reset().into(),
        Call::SetRegister(number, value) => machine.set_register(number, value).into(),
        Call::SetWord(number, value) => machine.set_word(number, value).into(),
        Call::Load(bytes) => machine.load(bytes).into(),
        Call::Clock(wanted) => machine.clock(wanted).into(),
    }
}

/// Performs a call. Whatever calls led to the machine, the book that is fed these and this one agrees with it.
pub fn perform<M: Memory>(machine: &mut Machine<M>, call: Call) -> Answer
    ensures does { Does one_bus M.Memory.delay (view M.Memory machine.old) call.entry result (view M.Memory machine.new) }
    ensures carries { Carries one_bus M.Memory.delay (view M.Memory machine.old) call.entry result (view M.Memory machine.new) }
    ensures lent { lent M.Memory machine.new ≡ lent M.Memory machine.old }
{
    act(machine, call)
}

/// Performs the calls of `turns` on a new machine, in order, and notes each answer. The book that is fed them agrees with the machine.
pub fn perform_all<M: Memory>(memory: M, turns: &mut [Turn]) -> Machine<M>
    ensures calls { map call_of turns.new ≡ map call_of turns.old }
    ensures comes { Comes one_bus M.Memory.delay (M.Memory.words memory) memory turns.new (view M.Memory result) }
    ensures agrees { Agrees one_bus (view M.Memory result) turns.new (fed one_bus (new_book (M.Memory.words memory)) turns.new) }
    ensures pace { Paced one_bus (M.Memory.words memory) turns.new (view M.Memory result) }
    ensures lent { lent M.Memory result ≡ M.Memory.frame memory }
{
    let mut machine = Machine::set_up(memory);
    for turn in turns.iter_mut() {
        turn.answer = perform(&mut machine, turn.call);
    }
    machine
}
