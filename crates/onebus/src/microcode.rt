// Our control store: the control word of each operation at each step.
ghost use Rattle.std.specs.Prelude.{◌≡◌};
ghost use Rattle.rows.specs.Rows.{table};
ghost use Rattle.onebus.specs.Words.{word_in_store};

use crate::control::ControlWord;
use rows::Signal;

// The control word that gives these signals.
macro_rules! word {
    ($($signal:ident),*) => { 0 $(| 1 << Signal::$signal as u32)* };
}

// The steps, by what they do.
const FETCH: u64 = word![PcOut, MaIn, Inc4, CIn];

const FETCH_READ: u64 = word![COut, PcIn, Read, Wait];

const FETCHED: u64 = word![MdOut, IrIn];

const NOP: u64 = word![End];

const STOPPED: u64 = word![Stop, End];

const TEST_RC: u64 = word![Grc, ROut, ConIn];

const BRANCH: u64 = word![Grb, ROut, ConPcIn];

const BRANCH_END: u64 = word![Grb, ROut, ConPcIn, End];

const LINK: u64 = word![PcOut, CIsB, CIn];

const RB_TO_A: u64 = word![Grb, ROut, AIn];

const INTO_RA: u64 = word![COut, Gra, RIn, End];

const ADD_RC: u64 = word![Grc, ROut, Add, CIn];

const SUB_RC: u64 = word![Grc, ROut, Sub, CIn];

const AND_RC: u64 = word![Grc, ROut, And, CIn];

const OR_RC: u64 = word![Grc, ROut, Or, CIn];

const ADD_C2: u64 = word![C2Out, Add, CIn];

const AND_C2: u64 = word![C2Out, And, CIn];

const OR_C2: u64 = word![C2Out, Or, CIn];

const NEG_RC: u64 = word![Grc, ROut, Neg, CIn];

const NOT_RC: u64 = word![Grc, ROut, Not, CIn];

const BASE_TO_A: u64 = word![Grb, BaOut, AIn];

const PC_TO_A: u64 = word![PcOut, AIn];

const ADD_C1: u64 = word![C1Out, Add, CIn];

const TO_MA: u64 = word![COut, MaIn];

const LOAD: u64 = word![Read, Wait];

const LOADED: u64 = word![MdOut, Gra, RIn, End];

const RA_TO_MD: u64 = word![Gra, ROut, MdIn];

const STORE: u64 = word![Write, Wait, End];

const COUNT: u64 = word![C1Out, Ld];

const COUNT_RC: u64 = word![NIsZero, Grc, ROut, Ld];

const RB_TO_C: u64 = word![Grb, ROut, CIsB, CIn];

const SHR_ONCE: u64 = word![NIsNotZero, COut, Shr, CIn, Decr, Goto6];

const SHRA_ONCE: u64 = word![NIsNotZero, COut, Shra, CIn, Decr, Goto6];

const SHL_ONCE: u64 = word![NIsNotZero, COut, Shl, CIn, Decr, Goto6];

const SHC_ONCE: u64 = word![NIsNotZero, COut, Shc, CIn, Decr, Goto6];

// A step that an operation does not have.
const NONE: u64 = word![];

// The control word of each code at each step, at code * 8 + step.
// Kept: one row after the other, as the table of the definitions has them, where an array of rows would have to be joined to be that table.
static CONTROL_STORE: [u64; 256] = [
    // 0 nop
    FETCH, FETCH_READ, FETCHED, NOP, NONE, NONE, NONE, NONE,
    // 1 ld
    FETCH, FETCH_READ, FETCHED, BASE_TO_A, ADD_C2, TO_MA, LOAD, LOADED,
    // 2 ldr
    FETCH, FETCH_READ, FETCHED, PC_TO_A, ADD_C1, TO_MA, LOAD, LOADED,
    // 3 st
    FETCH, FETCH_READ, FETCHED, BASE_TO_A, ADD_C2, TO_MA, RA_TO_MD, STORE,
    // 4 str
    FETCH, FETCH_READ, FETCHED, PC_TO_A, ADD_C1, TO_MA, RA_TO_MD, STORE,
    // 5 la
    FETCH, FETCH_READ, FETCHED, BASE_TO_A, ADD_C2, INTO_RA, NONE, NONE,
    // 6 lar
    FETCH, FETCH_READ, FETCHED, PC_TO_A, ADD_C1, INTO_RA, NONE, NONE,
    // 7 unassigned
    FETCH, FETCH_READ, FETCHED, NONE, NONE, NONE, NONE, NONE,
    // 8 br
    FETCH, FETCH_READ, FETCHED, TEST_RC, BRANCH_END, NONE, NONE, NONE,
    // 9 brl
    FETCH, FETCH_READ, FETCHED, TEST_RC, LINK, BRANCH, INTO_RA, NONE,
    // 10 unassigned
    FETCH, FETCH_READ, FETCHED, NONE, NONE, NONE, NONE, NONE,
    // 11 unassigned
    FETCH, FETCH_READ, FETCHED, NONE, NONE, NONE, NONE, NONE,
    // 12 add
    FETCH, FETCH_READ, FETCHED, RB_TO_A, ADD_RC, INTO_RA, NONE, NONE,
    // 13 addi
    FETCH, FETCH_READ, FETCHED, RB_TO_A, ADD_C2, INTO_RA, NONE, NONE,
    // 14 sub
    FETCH, FETCH_READ, FETCHED, RB_TO_A, SUB_RC, INTO_RA, NONE, NONE,
    // 15 neg
    FETCH, FETCH_READ, FETCHED, NEG_RC, INTO_RA, NONE, NONE, NONE,
    // 16 unassigned
    FETCH, FETCH_READ, FETCHED, NONE, NONE, NONE, NONE, NONE,
    // 17 unassigned
    FETCH, FETCH_READ, FETCHED, NONE, NONE, NONE, NONE, NONE,
    // 18 unassigned
    FETCH, FETCH_READ, FETCHED, NONE, NONE, NONE, NONE, NONE,
    // 19 unassigned
    FETCH, FETCH_READ, FETCHED, NONE, NONE, NONE, NONE, NONE,
    // 20 and
    FETCH, FETCH_READ, FETCHED, RB_TO_A, AND_RC, INTO_RA, NONE, NONE,
    // 21 andi
    FETCH, FETCH_READ, FETCHED, RB_TO_A, AND_C2, INTO_RA, NONE, NONE,
    // 22 or
    FETCH, FETCH_READ, FETCHED, RB_TO_A, OR_RC, INTO_RA, NONE, NONE,
    // 23 ori
    FETCH, FETCH_READ, FETCHED, RB_TO_A, OR_C2, INTO_RA, NONE, NONE,
    // 24 not
    FETCH, FETCH_READ, FETCHED, NOT_RC, INTO_RA, NONE, NONE, NONE,
    // 25 unassigned
    FETCH, FETCH_READ, FETCHED, NONE, NONE, NONE, NONE, NONE,
    // 26 shr
    FETCH, FETCH_READ, FETCHED, COUNT, COUNT_RC, RB_TO_C, SHR_ONCE, INTO_RA,
    // 27 shra
    FETCH, FETCH_READ, FETCHED, COUNT, COUNT_RC, RB_TO_C, SHRA_ONCE, INTO_RA,
    // 28 shl
    FETCH, FETCH_READ, FETCHED, COUNT, COUNT_RC, RB_TO_C, SHL_ONCE, INTO_RA,
    // 29 shc
    FETCH, FETCH_READ, FETCHED, COUNT, COUNT_RC, RB_TO_C, SHC_ONCE, INTO_RA,
    // 30 unassigned
    FETCH, FETCH_READ, FETCHED, NONE, NONE, NONE, NONE, NONE,
    // 31 stop
    FETCH, FETCH_READ, FETCHED, STOPPED, NONE, NONE, NONE, NONE,
];

/// The 256 control words, by code * 8 + step.
#[tactic(auto, unfolding(rows::specs::Rows::table))]
pub fn control_store() -> &'static [u64; 256]
    ensures { result.now ≡ table }
{
    &CONTROL_STORE
}

/// The control word of a code at a step, where there are such a code and step.
pub fn control_word(code: u8, step: u8) -> Option<ControlWord>
    ensures { result ≡ word_in_store code step }
{
    (code < 32 && step < 8).then(|| ControlWord(control_store()[code as usize * 8 + step as usize]))
}
