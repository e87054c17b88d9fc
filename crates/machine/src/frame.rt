// The machine: run control around the one-bus core, over any memory.
ghost use Rattle.onebus.specs.View.{Fits};

use crate::counts::Counts;
use onebus::Core;

// Kept: clauses say `view M.Memory` and `lent M.Memory`, as the value of a `Model` would hold the memory's delays, and a function has no code ("nothing proves `Coded Delays`").
/// A machine over the memory `M`.
#[derive(Drop)]
pub struct Machine<M> {
    pub(crate) memory: M,
    pub(crate) core: Core,
    // Kept: not an enum of the combinations of `run`, `mark` and `reset` that come up: the definitions and theorems of run control name three flags, and `view` would have to tell each of them from the enum.
    pub(crate) run: bool,
    // does a fault stand?
    pub(crate) mark: bool,
    // does a reset wait?
    pub(crate) reset: bool,
    // the waits left of a Wait step that has begun
    pub(crate) left: Option<u8>,
    pub(crate) counts: Counts,
    // The core's n, T and R0 to R31 fit their bits.
    ghost fits: { Fits core },
}
