// The core's registers.
use std::marker::Model;

/// PC, R0 to R31, IR, MA, MD, A, C, the count n of five bits, the condition CON and the step T of three.
#[derive(Drop)]
pub struct Core {
    pub(crate) pc: u32,
    pub(crate) regs: [u32; 32],
    pub(crate) ir: u32,
    pub(crate) ma: u32,
    pub(crate) md: u32,
    pub(crate) a: u32,
    pub(crate) c: u32,
    pub(crate) n: u8,
    pub(crate) con: bool,
    pub(crate) t: u8,
}

// Contracts see the core of the definitions.
impl Model for Core {
    ghost use Rattle.rows.specs.Core as model;

    ghost Value = { model.Core };

    ghost use Rattle.onebus.specs.View.{seen, Fits};

    ghost view = { seen };

    ghost invariant = { λ k. Fits (seen k) };
}
