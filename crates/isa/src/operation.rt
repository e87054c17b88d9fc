// The operations of the core, by what they have in common.

// Loads, stores and addresses: ld, st and la, and relative to the program counter ldr, str and lar.
#[derive(Clone, Copy, Debug, PartialEq, Eq)]
pub enum Transfer {
    Load,
    Store,
    Address,
}

// Operations on two registers.
#[derive(Clone, Copy, Debug, PartialEq, Eq)]
pub enum Binary {
    Add,
    Sub,
    And,
    Or,
}

// Operations on a register and a constant.
#[derive(Clone, Copy, Debug, PartialEq, Eq)]
pub enum Immediate {
    Addi,
    Andi,
    Ori,
}

// Operations on one register.
#[derive(Clone, Copy, Debug, PartialEq, Eq)]
pub enum Unary {
    Neg,
    Not,
}

#[derive(Clone, Copy, Debug, PartialEq, Eq)]
pub enum Shift {
    Shr,
    Shra,
    Shl,
    Shc,
}
