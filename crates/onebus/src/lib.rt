// The one-bus core: its registers, its control store, and one control step over any memory.
#![tactic(auto)]

mod control;
mod datapath;
mod fault;
mod microcode;
mod progress;
mod questions;
mod register_set;
mod settings;
mod step;

pub use control::ControlWord;
pub use fault::{Cause, CoreFault};
pub use microcode::{control_store, control_word};
pub use progress::Progress;
pub use register_set::Core;
