//! Run control around a core: the calls on a machine, their answers, and what holds after every list of them.
#![tactic(auto)]

mod calls;
mod faults;
mod laws;
mod refusals;
mod text;

pub use calls::{Answer, Call, Turn};
pub use faults::MachineFault;
pub use laws::{
    every_list_follows, machines_keep_pace, programs_run, resets_leave_whole_instructions,
};
pub use refusals::Refusal;
