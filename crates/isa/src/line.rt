// The line of a word.
ghost use Rattle.std.specs.Prelude.{◌≡◌, IfOk, Some, string_bytes};
ghost use Rattle.isa.specs.Lines.{form_of as form_in, hex_text, line_of};
ghost use Rattle.isa.specs.Encoding.{Encodes};

use crate::decoder::decode;
use crate::instruction::Instruction;
use crate::stray::stray;
use std::alloc::{AllocError, Global};
use std::fmt;

// A word, to be shown as eight capital hexadecimal digits.
#[derive(Clone, Copy, Debug, PartialEq, Eq)]
pub struct Hex(pub u32);

impl fmt::Display for Hex {
    ghost output = { λ h. Some (hex_text h.0) };

    #[tactic(auto, using(crate::proofs::Digits::hex_word))]
    fn fmt<W: fmt::Write>(&self, f: &mut fmt::Formatter<W>) -> fmt::Result {
        let Hex(word) = *self;
        write!(f, "{word:08X}")
    }
}

// The instruction that the word's line shows: none where its code is unassigned or a stray bit is set.
fn form(word: u32) -> Option<Instruction>
    ensures { result ≡ form_in word }
{
    decode(word).filter(|instruction| !stray(*instruction, word))
}

// A word, to be shown as its line.
#[derive(Clone, Copy, Debug, PartialEq, Eq)]
pub struct Line(pub u32);

impl fmt::Display for Line {
    ghost output = { λ l. Some (line_of l.0) };

    fn fmt<W: fmt::Write>(&self, f: &mut fmt::Formatter<W>) -> fmt::Result {
        match form(self.0) {
            Some(instruction) => write!(f, "{instruction}"),
            None => write!(f, "word {}", Hex(self.0)),
        }
    }
}

// The line as a text of its own. With it comes the law that a line other than the `word` form tells the word.
#[tactic(auto, using(crate::proofs::Encoding::encodes))]
pub fn line_text(heap: Global, word: u32) -> Result<String, AllocError>
    ensures bytes { IfOk result (λ s. string_bytes s ≡ line_of word) }
    ensures tells { Encodes word }
{
    format!(in heap; "{}", Line(word))
}
