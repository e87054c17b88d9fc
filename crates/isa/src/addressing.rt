// The address that a load, a store or an address instruction names, and when a branch is taken.
ghost use Rattle.std.specs.Prelude.{◌≡◌};
ghost use Rattle.isa.specs.Arithmetic.{condition as condition_of};
ghost use Rattle.isa.specs.Addresses.{named_address};

use crate::decoder::decode;
use crate::instruction::Instruction;

// The address that the word names, where its program counter is raised to `pc`; none for an operation that names none.
pub fn address(word: u32, pc: u32, registers: &[u32; 32]) -> Option<u32>
    ensures { result ≡ named_address word pc registers.now }
{
    match decode(word)? {
        Instruction::Direct { c2, .. } => Some(c2.cast_unsigned()),
        Instruction::Indexed { rb, c2, .. } => {
            Some(registers[rb as usize].wrapping_add(c2.cast_unsigned()))
        }
        Instruction::Relative { c1, .. } => Some(pc.wrapping_add(c1.cast_unsigned())),
        _ => None,
    }
}

// Whether a branch with the condition code `when` is taken, where the register that it tests holds `tested`.
pub fn condition(when: u8, tested: u32) -> bool
    ensures { result ≡ condition_of when tested }
{
    let negative = tested.cast_signed() < 0;
    // Kept: a number, since the branch's line shows it, and an enum would have to remember which of 0, 6 and 7 says never.
    // Kept: tried as a `match` on the number, which makes the simulator 6 % slower where a program loads and stores (75.2 in place of 79.9 million clocks a second).
    when == 1
        || when == 2 && tested == 0
        || when == 3 && tested != 0
        || when == 4 && !negative
        || when == 5 && negative
}
