// The rule that the words outside of the open row are slow, and the layer with it.
ghost use Rattle.std.specs.Prelude.{◌≡◌, ◌/◌, Some, None};
ghost use Rattle.memory.specs.OpenRow.{off_row};

use crate::delays::{SlowRule, Slowed};

const ROW_WORDS: u32 = 64;

/// A memory with an extra delay for the words outside of the row that is open.
pub type OpenRow<M> = Slowed<M, Row>;

/// What is added for a word outside of the open row, and that row. An accepted access opens the row of its word.
#[derive(Clone, Copy, Debug, PartialEq, Eq)]
pub struct Row {
    extra: u8,
    opened: Option<u32>,
}

impl Row {
    /// `extra` more for the words of another row than that of the last access. At first no row is open.
    pub fn new(extra: u8) -> Row
        ensures { result ≡ record { extra = extra; opened = None } }
    {
        Row {
            extra,
            opened: None,
        }
    }
}

impl SlowRule for Row {
    ghost extra = { λ r. off_row r.extra r.opened };

    // The row of the word is open.
    ghost after = { λ r n. record r { opened = Some (n / 64) } };

    #[inline]
    fn extra(&self, number: u32) -> u8 {
        if self.opened == Some(number / ROW_WORDS) {
            0
        } else {
            self.extra
        }
    }

    #[inline]
    fn note(&mut self, number: u32) {
        self.opened = Some(number / ROW_WORDS);
    }
}
