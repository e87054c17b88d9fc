// From a word to its instruction.
ghost use Rattle.std.specs.Prelude.{◌≡◌, cond};
ghost use Rattle.isa.specs.Fields.{ra_of, rb_of, rc_of, c1_of, c2_of, count_of, when_of};
ghost use Rattle.isa.specs.Instructions.{decoded, shift_instruction};
ghost use Rattle.isa.specs.declared.instruction.Instruction.TheVariants as i;

use crate::fields::{Field, c1, c2, when};
use crate::instruction::Instruction;
use crate::operation::{Binary, Immediate, Shift, Transfer, Unary};

// The instruction that the word says, or none where its code is unassigned. Bits of no field do not matter.
// Inlined, since a caller that needs one field then makes no other: `address` takes twice as long where it calls this.
#[inline(always)]
pub fn decode(word: u32) -> Option<Instruction>
    ensures { result ≡ decoded word }
{
    let rb = Field::Rb.of(word);
    // Kept: the codes as numbers, since this is where they get their meaning.
    match Field::Op.of(word) {
        0 => Some(Instruction::Nop),
        1 if rb == 0 => Some(direct(Transfer::Load, word)),
        1 => Some(indexed(Transfer::Load, word)),
        2 => Some(relative(Transfer::Load, word)),
        3 if rb == 0 => Some(direct(Transfer::Store, word)),
        3 => Some(indexed(Transfer::Store, word)),
        4 => Some(relative(Transfer::Store, word)),
        5 if rb == 0 => Some(direct(Transfer::Address, word)),
        5 => Some(indexed(Transfer::Address, word)),
        6 => Some(relative(Transfer::Address, word)),
        8 => Some(branch(word)),
        9 => Some(branch_link(word)),
        12 => Some(binary(Binary::Add, word)),
        13 => Some(immediate(Immediate::Addi, word)),
        14 => Some(binary(Binary::Sub, word)),
        15 => Some(unary(Unary::Neg, word)),
        20 => Some(binary(Binary::And, word)),
        21 => Some(immediate(Immediate::Andi, word)),
        22 => Some(binary(Binary::Or, word)),
        23 => Some(immediate(Immediate::Ori, word)),
        24 => Some(unary(Unary::Not, word)),
        26 => Some(shift(Shift::Shr, word)),
        27 => Some(shift(Shift::Shra, word)),
        28 => Some(shift(Shift::Shl, word)),
        29 => Some(shift(Shift::Shc, word)),
        31 => Some(Instruction::Stop),
        7 | 10..=11 | 16..=19 | 25 | 30 | 32.. => None,
    }
}

// Kept: a function for each form, which reads just the fields that it has; the literals in the arms of the `match` would take five or six lines each.
fn direct(op: Transfer, word: u32) -> Instruction
    ensures { result ≡ i.Direct op (ra_of word) (c2_of word) }
{
    Instruction::Direct {
        op,
        ra: Field::Ra.of(word),
        c2: c2(word),
    }
}

fn indexed(op: Transfer, word: u32) -> Instruction
    ensures { result ≡ i.Indexed op (ra_of word) (rb_of word) (c2_of word) }
{
    Instruction::Indexed {
        op,
        ra: Field::Ra.of(word),
        rb: Field::Rb.of(word),
        c2: c2(word),
    }
}

fn relative(op: Transfer, word: u32) -> Instruction
    ensures { result ≡ i.Relative op (ra_of word) (c1_of word) }
{
    Instruction::Relative {
        op,
        ra: Field::Ra.of(word),
        c1: c1(word),
    }
}

fn branch(word: u32) -> Instruction
    ensures { result ≡ i.Branch (rb_of word) (rc_of word) (when_of word) }
{
    Instruction::Branch {
        rb: Field::Rb.of(word),
        rc: Field::Rc.of(word),
        when: when(word),
    }
}

fn branch_link(word: u32) -> Instruction
    ensures { result ≡ i.BranchLink (ra_of word) (rb_of word) (rc_of word) (when_of word) }
{
    Instruction::BranchLink {
        ra: Field::Ra.of(word),
        rb: Field::Rb.of(word),
        rc: Field::Rc.of(word),
        when: when(word),
    }
}

fn binary(op: Binary, word: u32) -> Instruction
    ensures { result ≡ i.Binary op (ra_of word) (rb_of word) (rc_of word) }
{
    Instruction::Binary {
        op,
        ra: Field::Ra.of(word),
        rb: Field::Rb.of(word),
        rc: Field::Rc.of(word),
    }
}

fn immediate(op: Immediate, word: u32) -> Instruction
    ensures { result ≡ i.Immediate op (ra_of word) (rb_of word) (c2_of word) }
{
    Instruction::Immediate {
        op,
        ra: Field::Ra.of(word),
        rb: Field::Rb.of(word),
        c2: c2(word),
    }
}

fn unary(op: Unary, word: u32) -> Instruction
    ensures { result ≡ i.Unary op (ra_of word) (rc_of word) }
{
    Instruction::Unary {
        op,
        ra: Field::Ra.of(word),
        rc: Field::Rc.of(word),
    }
}

// By the constant, or, where that is 0, by a register.
fn shift(op: Shift, word: u32) -> Instruction
    ensures { result ≡ shift_instruction op word }
{
    let ra = Field::Ra.of(word);
    let rb = Field::Rb.of(word);
    match (word % 32) as u8 {
        0 => Instruction::ShiftByRegister {
            op,
            ra,
            rb,
            rc: Field::Rc.of(word),
        },
        places => Instruction::ShiftBy { op, ra, rb, places },
    }
}
