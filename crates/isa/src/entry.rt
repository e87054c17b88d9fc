// A word in a listing.
ghost use Rattle.std.specs.Prelude.{◌*◌, ◌++◌, Some, codes};
ghost use Rattle.isa.specs.Listing.{entry_text};

use crate::line::{Hex, Line};
use std::fmt;

// To be shown as the word's number, its byte address, its digits and its line.
#[derive(Clone, Copy, Debug, PartialEq, Eq)]
pub struct Entry {
    pub number: u32,
    pub word: u32,
}

impl fmt::Display for Entry {
    ghost output = { λ e. Some (entry_text e.number e.word) };

    fn fmt<W: fmt::Write>(&self, f: &mut fmt::Formatter<W>) -> fmt::Result {
        let Entry { number, word } = *self;
        let address = 4 * u64::from(number);
        write!(f, "{number} {address} {} {}", Hex(word), Line(word))
    }
}
