// The fault that a clock call tells.
use onebus::CoreFault;

/// What the core tells, with the address of the instruction that faulted, and the clocks spent and the instructions finished in the call.
#[derive(Clone, Copy, Debug, PartialEq, Eq)]
pub struct MachineFault {
    pub core: CoreFault,
    pub instruction: u32,
    pub spent: u64,
    pub finished: u64,
}
