// The bus, the ALU and the registers of one step.
ghost use Rattle.std.specs.Prelude.{◌≡◌, ◌+◌, ◌%◌, ◌<◌, if◌then◌else◌};
ghost use Rattle.isa.specs.Fields.{when_of};
ghost use Rattle.isa.specs.Arithmetic.{condition as condition_of};
ghost use Rattle.rows.specs.Core.{selected, from_instruction, bus as bus_of, shifter as shifter_of, alu as alu_of, up, stored};
ghost use Rattle.rows.specs.declared.signal.Signal.TheVariants.{PcIn, ConPcIn, CIn, ConIn, Ld, Decr, Goto6, End};
ghost use Rattle.rows.specs.Signals.{gives};

use crate::control::ControlWord;
use crate::register_set::Core;
use isa::{Field, c1_word, c2_word, condition, when};
use rows::Signal;

/// A register takes the new value where it is enabled.
fn latch(enabled: bool, new: u32, old: u32) -> u32
    ensures { result ≡ (if enabled then new else old) }
{
    if enabled { new } else { old }
}

/// The next step.
pub(crate) fn raised(t: u8) -> u8
    ensures value { result ≡ up t }
    ensures bound { result < 8 }
{
    if t < 7 { t + 1 } else { 7 }
}

/// The ALU's shifts, by one place.
// Out of line: inlined, it makes the simulator 6 % slower where a program shifts nothing (60.4 in place of 64.0 million clocks a second).
#[inline(never)]
fn shifter(word: ControlWord, b: u32) -> u32
    ensures { result ≡ shifter_of word.0 b }
{
    if word.has(Signal::Shr) {
        b >> 1
    } else if word.has(Signal::Shra) {
        (b.cast_signed() >> 1).cast_unsigned()
    } else if word.has(Signal::Shl) {
        b << 1
    } else if word.has(Signal::Shc) {
        b.rotate_left(1)
    } else {
        0
    }
}

/// The ALU's result from A and the bus.
fn alu(word: ControlWord, a: u32, b: u32) -> u32
    ensures { result ≡ alu_of word.0 a b }
{
    if word.has(Signal::Add) {
        a.wrapping_add(b)
    } else if word.has(Signal::Sub) {
        a.wrapping_sub(b)
    } else if word.has(Signal::And) {
        a & b
    } else if word.has(Signal::Or) {
        a | b
    } else if word.has(Signal::Neg) {
        0u32.wrapping_sub(b)
    } else if word.has(Signal::Not) {
        !b
    } else if word.has(Signal::CIsB) {
        b
    } else if word.has(Signal::Inc4) {
        b.wrapping_add(4)
    } else {
        shifter(word, b)
    }
}

impl Core {
    /// The number of the register that is selected.
    fn selected(&self, word: ControlWord) -> usize
        ensures value { result ≡ selected word.0 self.now.ir }
        ensures bound { result < 32 }
    {
        let number = if word.has(Signal::Gra) {
            Field::Ra.of(self.ir)
        } else if word.has(Signal::Grb) {
            Field::Rb.of(self.ir)
        } else if word.has(Signal::Grc) {
            Field::Rc.of(self.ir)
        } else {
            0
        };
        number as usize
    }

    /// What IR puts on the bus: a register that it selects, or a constant.
    fn from_instruction(&self, word: ControlWord) -> u32
        ensures { result ≡ from_instruction word.0 self.now }
    {
        if word.has(Signal::ROut) {
            self.regs[self.selected(word)]
        } else if word.has(Signal::BaOut) {
            let i = self.selected(word);
            if i == 0 { 0 } else { self.regs[i] }
        } else if word.has(Signal::C1Out) {
            c1_word(self.ir)
        } else if word.has(Signal::C2Out) {
            c2_word(self.ir)
        } else {
            0
        }
    }

    /// What is on the bus.
    pub(crate) fn bus(&self, word: ControlWord) -> u32
        ensures { result ≡ bus_of word.0 self.now }
    {
        if word.has(Signal::PcOut) {
            self.pc
        } else if word.has(Signal::MdOut) {
            self.md
        } else if word.has(Signal::COut) {
            self.c
        } else {
            self.from_instruction(word)
        }
    }

    // Kept: a struct of the control word and the bus would be made once, in `carry_out`, and taken apart in each function below.

    /// PC after the step.
    fn next_pc(&self, word: ControlWord, bus: u32) -> u32
        ensures { result ≡ (if gives word.0 PcIn then bus else (if gives word.0 ConPcIn then (if self.now.con then bus else self.now.pc) else self.now.pc)) }
    {
        latch(
            word.has(Signal::PcIn) || word.has(Signal::ConPcIn) && self.con,
            bus,
            self.pc,
        )
    }

    /// C after the step.
    fn next_c(&self, word: ControlWord, bus: u32) -> u32
        ensures { result ≡ (if gives word.0 CIn then alu_of word.0 self.now.a bus else self.now.c) }
    {
        if word.has(Signal::CIn) {
            alu(word, self.a, bus)
        } else {
            self.c
        }
    }

    /// The count n after the step: it counts down modulo 32.
    fn next_n(&self, word: ControlWord, bus: u32) -> u8
        ensures value { result ≡ (if gives word.0 Ld then bus % 32 else (if gives word.0 Decr then (self.now.n + 31) % 32 else self.now.n)) }
        ensures bound { result < 32 }
    {
        if word.has(Signal::Ld) {
            (bus % 32) as u8
        } else if word.has(Signal::Decr) {
            (self.n + 31) % 32
        } else {
            self.n
        }
    }

    /// CON after the step.
    fn next_con(&self, word: ControlWord, bus: u32) -> bool
        ensures { result ≡ (if gives word.0 ConIn then condition_of (when_of self.now.ir) bus else self.now.con) }
    {
        if word.has(Signal::ConIn) {
            condition(when(self.ir), bus)
        } else {
            self.con
        }
    }

    /// T after the step.
    fn next_t(&self, word: ControlWord) -> u8
        ensures value { result ≡ (if gives word.0 Goto6 then 6 else (if gives word.0 End then 0 else up self.now.t)) }
        ensures bound { result < 8 }
    {
        if word.has(Signal::Goto6) {
            6
        } else if word.has(Signal::End) {
            0
        } else {
            raised(self.t)
        }
    }

    /// Stores what the step's signals ask for: every right side is read before a left side is written.
    pub(crate) fn store(&mut self, word: ControlWord, bus: u32, held: u32)
        ensures { self.new ≡ stored word.0 bus held self.old }
    {
        let selected = self.selected(word);
        let pc = self.next_pc(word, bus);
        let c = self.next_c(word, bus);
        let n = self.next_n(word, bus);
        let con = self.next_con(word, bus);
        let t = self.next_t(word);
        self.pc = pc;
        self.ir = latch(word.has(Signal::IrIn), bus, self.ir);
        self.ma = latch(word.has(Signal::MaIn), bus, self.ma);
        self.md = latch(word.has(Signal::MdIn), bus, held);
        self.a = latch(word.has(Signal::AIn), bus, self.a);
        self.c = c;
        self.n = n;
        self.con = con;
        self.t = t;
        if word.has(Signal::RIn) {
            self.put(selected, bus);
        }
    }
}
