// How far a step has come.

/// Within an instruction, or at its end, and whether it stops the machine.
// Kept: `Option<bool>` has this shape, and would not say that the flag is whether the machine stops.
#[derive(Clone, Copy, Debug, PartialEq, Eq)]
pub enum Progress {
    Within,
    Finished { stops: bool },
}
