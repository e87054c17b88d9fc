// The control signals of the one-bus core, in the order of their bits in a control word: the first is bit 0.
#[derive(Clone, Copy, Debug, PartialEq, Eq)]
pub enum Signal {
    // What drives the bus: PC, MD, C, a register, a register with R0 as 0, and the constants of IR.
    PcOut,
    MdOut,
    COut,
    ROut,
    BaOut,
    C1Out,
    C2Out,
    // What takes the bus's value: the registers, PC under CON, C by way of the ALU, the condition CON and the count n.
    MaIn,
    MdIn,
    IrIn,
    PcIn,
    ConPcIn,
    AIn,
    CIn,
    RIn,
    ConIn,
    Ld,
    // Which register: IR's ra, rb or rc.
    Gra,
    Grb,
    Grc,
    // The ALU's functions: C=B passes the bus on, Inc4 adds four to it, and the shifts move it by one place.
    Add,
    Sub,
    And,
    Or,
    Neg,
    Not,
    CIsB,
    Inc4,
    Shr,
    Shra,
    Shl,
    Shc,
    // The memory, the count, the next step, and the instruction's end.
    Read,
    Write,
    Wait,
    Decr,
    Goto6,
    Stop,
    End,
    // Conditions on the whole step: n = 0, and n other than 0.
    NIsZero,
    NIsNotZero,
}
