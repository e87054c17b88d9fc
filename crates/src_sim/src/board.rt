// The board: the memory that the machine is set up over.
ghost use Rattle.std.specs.Prelude.{◌≡◌, None, IfOk, replicate, unwrap_or};
ghost use Rattle.src_sim.specs.Boards.{described, stretch_of};

use memory::{ByteMemory, MOST_WORDS, OpenRow, Pair, Row, SlowStretch, Stretch, WordMemory};
use std::alloc::{AllocError, Global};

// A command that describes a part of the board.
#[derive(Clone, Copy)]
pub enum BoardPart {
    Words(u32),
    Bytes(u32),
    Slow(Stretch),
    Row(u8),
}

#[derive(Clone, Copy)]
pub struct Board {
    pub words: u32,
    pub bytes: u32,
    pub slow: Option<Stretch>,
    pub row: Option<u8>,
}

// The board where nothing is described.
pub const PLAIN: Board = Board {
    words: MOST_WORDS,
    bytes: 0,
    slow: None,
    row: None,
};

// A stretch that adds nothing.
const NO_STRETCH: Stretch = Stretch {
    first: 0,
    length: 0,
    extra: 0,
};

pub type Pile<'a> = OpenRow<SlowStretch<Pair<WordMemory<'a>, ByteMemory<'a>>>>;

// The words and the bytes that the memories of a board are over.
#[derive(Drop)]
pub struct Cells {
    pub words: Vec<u32>,
    pub bytes: Vec<u8>,
}

impl Board {
    // The board with one part described anew.
    pub(crate) fn with(self, part: BoardPart) -> Board
        ensures { result ≡ described self part }
    {
        match part {
            BoardPart::Words(words) => Board { words, ..self },
            BoardPart::Bytes(bytes) => Board { bytes, ..self },
            BoardPart::Slow(stretch) => Board {
                slow: Some(stretch),
                ..self
            },
            BoardPart::Row(extra) => Board {
                row: Some(extra),
                ..self
            },
        }
    }

    // The cells of the board, all 0.
    pub(crate) fn cells(self, heap: Global) -> Result<Cells, AllocError>
        ensures words { IfOk result (λ c. c.words.items ≡ replicate self.words 0) }
        ensures bytes { IfOk result (λ c. c.bytes.items ≡ replicate self.bytes 0) }
    {
        Ok(Cells {
            words: vec![in heap; 0u32; self.words as usize]?,
            bytes: vec![in heap; 0u8; self.bytes as usize]?,
        })
    }

    // The memory of the board, over cells that are lent. It has both layers: what is not described adds nothing.
    pub(crate) fn pile(self, cells: &mut Cells) -> Pile<'_>
        ensures words { result.below.below.first.elements.now ≡ cells.old.words.items }
        ensures bytes { result.below.below.second.elements.now ≡ cells.old.bytes.items }
        ensures stretch { result.below.rule ≡ stretch_of self.slow }
        ensures row { result.rule ≡ record { extra = unwrap_or self.row 0; opened = None } }
    {
        let pair = Pair::new(
            WordMemory::new(&mut cells.words),
            ByteMemory::new(&mut cells.bytes),
        );
        let slow = SlowStretch::new(pair, self.slow.unwrap_or(NO_STRETCH));
        OpenRow::new(slow, Row::new(self.row.unwrap_or(0)))
    }
}
