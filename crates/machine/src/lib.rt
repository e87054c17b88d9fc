//! The machine: run control around the one-bus core over any memory, its calls, what it tells, and lists of calls.
#![tactic(auto)]

mod calls;
mod clock;
mod counts;
mod frame;
mod performing;
mod questions;

pub use clock::MOST_WANTED;
pub use counts::{Counts, MOST_CLOCKS};
pub use frame::Machine;
pub use performing::{perform, perform_all};
