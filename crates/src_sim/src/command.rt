// The commands of a script.
ghost use Rattle.src_sim.specs.Orders.{Makes};

use crate::board::BoardPart;
use run_control::Call;

#[derive(Drop)]
pub enum Command {
    Describe(BoardPart),
    // A call that has no bytes of its own.
    Perform(Call<'static>),
    // The bytes of an image.
    Load(Vec<u8>),
    Ask(Question),
    Help,
}

#[derive(Clone, Copy)]
pub enum Question {
    Register(u32),
    Word(u32),
    Line(u32),
    State,
    Registers,
    List { first: u32, count: u32 },
}

impl Command {
    // The call that the command makes, if it makes one.
    pub(crate) fn call(&self) -> Option<Call<'_>>
        ensures { Makes self.now result }
    {
        match self {
            Command::Perform(call) => Some(*call),
            Command::Load(bytes) => Some(Call::Load(bytes)),
            Command::Describe(_) | Command::Ask(_) | Command::Help => None,
        }
    }
}
