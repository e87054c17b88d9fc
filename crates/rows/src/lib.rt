// The control signals and rows of the one-bus core, and the proof that the rows do what the book says.
#![tactic(auto)]

mod laws;
mod signal;

pub use laws::{clocks_bounded, rows_refine, rules_stand, runs_alike, steps_move_on};
pub use signal::Signal;
