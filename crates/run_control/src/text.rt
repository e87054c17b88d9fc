// The text of an answer.
ghost use Rattle.std.specs.Prelude.{Some};
ghost use Rattle.run_control.specs.Texts.{missing_text, place_text, machine_fault_text, answer_text};

use crate::calls::Answer;
use crate::faults::MachineFault;
use onebus::Cause;
use std::fmt;

// To be shown as the number and the size that a fault tells of a word that is not there; as nothing for the other causes.
// Kept: the text of a `MachineFault` by three writes of its own, or by one with all its values, in place of `Missing` and `Place`, does not prove (`returns-clause-writes` stays open).
#[derive(Clone, Copy)]
struct Missing(Cause);

impl fmt::Display for Missing {
    ghost output = { λ m. Some (missing_text m.0) };

    fn fmt<W: fmt::Write>(&self, f: &mut fmt::Formatter<W>) -> fmt::Result {
        match self.0 {
            Cause::Unassigned | Cause::Unaligned => Ok(()),
            Cause::NoWord(fault) => write!(f, "number {} size {} ", fault.number, fault.size),
        }
    }
}

// To be shown as where a fault came, and what the call did until then.
#[derive(Clone, Copy)]
struct Place(MachineFault);

impl fmt::Display for Place {
    ghost output = { λ p. Some (place_text p.0) };

    fn fmt<W: fmt::Write>(&self, f: &mut fmt::Formatter<W>) -> fmt::Result {
        let MachineFault {
            core,
            instruction,
            spent,
            finished,
        } = self.0;
        write!(
            f,
            "address {} step {} instruction {instruction} spent {spent} finished {finished}",
            core.address, core.step
        )
    }
}

impl fmt::Display for MachineFault {
    ghost output = { λ m. Some (machine_fault_text m) };

    fn fmt<W: fmt::Write>(&self, f: &mut fmt::Formatter<W>) -> fmt::Result {
        let cause = self.core.cause;
        write!(
            f,
            "fault {} ({cause}) {}{}",
            cause.number(),
            Missing(cause),
            Place(*self)
        )
    }
}

impl std::error::Error for MachineFault {}

impl fmt::Display for Answer {
    ghost output = { answer_text };

    fn fmt<W: fmt::Write>(&self, f: &mut fmt::Formatter<W>) -> fmt::Result {
        match *self {
            Answer::Done => f.write_str("ok"),
            Answer::Refused(refusal) => write!(f, "refused {} ({refusal})", refusal.number()),
            Answer::Spent(spent, finished) => write!(f, "spent {spent} finished {finished}"),
            Answer::Faulted(fault) => write!(f, "{fault}"),
        }
    }
}
