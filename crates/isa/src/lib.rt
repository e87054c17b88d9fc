// Instruction words of 32 bits: their fields, what each says, its line of text, and the book machine that does them.
#![tactic(auto)]

mod addressing;
mod decoder;
mod entry;
mod fields;
mod instruction;
mod line;
mod operation;
mod stray;
mod text;

pub use addressing::{address, condition};
pub use decoder::decode;
pub use entry::Entry;
pub use fields::{Field, c1_word, c2_word, when};
pub use instruction::Instruction;
pub use line::{Hex, Line, line_text};
pub use operation::{Binary, Immediate, Shift, Transfer, Unary};
