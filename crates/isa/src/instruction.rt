// A decoded instruction: the form of its line, with its fields by name and its constants as signed numbers.
use crate::operation::{Binary, Immediate, Shift, Transfer, Unary};

#[derive(Clone, Copy, Debug, PartialEq, Eq)]
pub enum Instruction {
    Nop,
    Stop,
    // At the address c2, since rb is 0.
    Direct {
        op: Transfer,
        ra: u8,
        c2: i32,
    },
    // At the address R[rb] + c2.
    Indexed {
        op: Transfer,
        ra: u8,
        rb: u8,
        c2: i32,
    },
    // At the address PC + c1.
    Relative {
        op: Transfer,
        ra: u8,
        c1: i32,
    },
    Branch {
        rb: u8,
        rc: u8,
        when: u8,
    },
    BranchLink {
        ra: u8,
        rb: u8,
        rc: u8,
        when: u8,
    },
    Binary {
        op: Binary,
        ra: u8,
        rb: u8,
        rc: u8,
    },
    Immediate {
        op: Immediate,
        ra: u8,
        rb: u8,
        c2: i32,
    },
    Unary {
        op: Unary,
        ra: u8,
        rc: u8,
    },
    ShiftBy {
        op: Shift,
        ra: u8,
        rb: u8,
        places: u8,
    },
    // By the low five bits of R[rc], since the constant is 0.
    ShiftByRegister {
        op: Shift,
        ra: u8,
        rb: u8,
        rc: u8,
    },
}
