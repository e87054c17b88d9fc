// Instructions as text.
ghost use Rattle.std.specs.Prelude.{Some};
ghost use Rattle.isa.specs.Lines.{transfer_name, binary_name, immediate_name, unary_name, shift_name, text_of};

use crate::instruction::Instruction;
use crate::operation::{Binary, Immediate, Shift, Transfer, Unary};
use std::fmt;

impl fmt::Display for Transfer {
    ghost output = { λ op. Some (transfer_name op) };

    fn fmt<W: fmt::Write>(&self, f: &mut fmt::Formatter<W>) -> fmt::Result {
        f.write_str(match self {
            Transfer::Load => "ld",
            Transfer::Store => "st",
            Transfer::Address => "la",
        })
    }
}

impl fmt::Display for Binary {
    ghost output = { λ op. Some (binary_name op) };

    fn fmt<W: fmt::Write>(&self, f: &mut fmt::Formatter<W>) -> fmt::Result {
        f.write_str(match self {
            Binary::Add => "add",
            Binary::Sub => "sub",
            Binary::And => "and",
            Binary::Or => "or",
        })
    }
}

impl fmt::Display for Immediate {
    ghost output = { λ op. Some (immediate_name op) };

    fn fmt<W: fmt::Write>(&self, f: &mut fmt::Formatter<W>) -> fmt::Result {
        f.write_str(match self {
            Immediate::Addi => "addi",
            Immediate::Andi => "andi",
            Immediate::Ori => "ori",
        })
    }
}

impl fmt::Display for Unary {
    ghost output = { λ op. Some (unary_name op) };

    fn fmt<W: fmt::Write>(&self, f: &mut fmt::Formatter<W>) -> fmt::Result {
        f.write_str(match self {
            Unary::Neg => "neg",
            Unary::Not => "not",
        })
    }
}

impl fmt::Display for Shift {
    ghost output = { λ op. Some (shift_name op) };

    fn fmt<W: fmt::Write>(&self, f: &mut fmt::Formatter<W>) -> fmt::Result {
        f.write_str(match self {
            Shift::Shr => "shr",
            Shift::Shra => "shra",
            Shift::Shl => "shl",
            Shift::Shc => "shc",
        })
    }
}

impl fmt::Display for Instruction {
    ghost output = { λ x. Some (text_of x) };

    fn fmt<W: fmt::Write>(&self, f: &mut fmt::Formatter<W>) -> fmt::Result {
        match *self {
            Instruction::Nop => f.write_str("nop"),
            Instruction::Stop => f.write_str("stop"),
            Instruction::Direct { op, ra, c2 } => write!(f, "{op} r{ra}, {c2}"),
            Instruction::Indexed { op, ra, rb, c2 } => write!(f, "{op} r{ra}, {c2}(r{rb})"),
            Instruction::Relative { op, ra, c1 } => write!(f, "{op}r r{ra}, {c1}"),
            Instruction::Branch { rb, rc, when } => write!(f, "br r{rb}, r{rc}, {when}"),
            Instruction::BranchLink { ra, rb, rc, when } => {
                write!(f, "brl r{ra}, r{rb}, r{rc}, {when}")
            }
            Instruction::Binary { op, ra, rb, rc } => write!(f, "{op} r{ra}, r{rb}, r{rc}"),
            Instruction::Immediate { op, ra, rb, c2 } => write!(f, "{op} r{ra}, r{rb}, {c2}"),
            Instruction::Unary { op, ra, rc } => write!(f, "{op} r{ra}, r{rc}"),
            Instruction::ShiftBy { op, ra, rb, places } => write!(f, "{op} r{ra}, r{rb}, {places}"),
            Instruction::ShiftByRegister { op, ra, rb, rc } => {
                write!(f, "{op} r{ra}, r{rb}, r{rc}")
            }
        }
    }
}
