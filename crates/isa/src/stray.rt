// Bits that no field of an instruction's line shows.
ghost use Rattle.std.specs.Prelude.{◌≡◌};
ghost use Rattle.isa.specs.Instructions.{stray as stray_of};

use crate::fields::Field;
use crate::instruction::Instruction;

// Whether a bit is set in the word that its instruction does not show.
pub(crate) fn stray(instruction: Instruction, word: u32) -> bool
    ensures { result ≡ stray_of instruction word }
{
    // A branch shows the low three bits of c3, and a shift the low five.
    let c3 = word % (1 << 12);
    match instruction {
        Instruction::Nop | Instruction::Stop => word % (1 << 27) != 0,
        Instruction::Branch { .. } => Field::Ra.of(word) != 0 || c3 >> 3 != 0,
        Instruction::BranchLink { .. } => c3 >> 3 != 0,
        Instruction::Binary { .. } => c3 != 0,
        Instruction::Unary { .. } => Field::Rb.of(word) != 0 || c3 != 0,
        Instruction::ShiftBy { .. } => Field::Rc.of(word) != 0 || c3 >> 5 != 0,
        Instruction::ShiftByRegister { .. } => c3 >> 5 != 0,
        Instruction::Direct { .. }
        | Instruction::Indexed { .. }
        | Instruction::Relative { .. }
        | Instruction::Immediate { .. } => false,
    }
}
