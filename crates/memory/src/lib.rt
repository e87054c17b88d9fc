//! Memories of words with delays: one meaning, five memories, and any pile of them.
#![tactic(auto)]

mod byte_memory;
mod delays;
mod edits;
mod element;
mod memory;
mod open_row;
mod pair;
mod slice_memory;
mod slow_stretch;
mod word_memory;

pub use byte_memory::ByteMemory;
pub use delays::{SlowRule, Slowed};
pub use edits::{copy_word, fill};
pub use memory::{MOST_WORDS, Memory, MemoryFault};
pub use open_row::{OpenRow, Row};
pub use pair::Pair;
pub use slice_memory::SliceMemory;
pub use slow_stretch::{SlowStretch, Stretch};
pub use word_memory::WordMemory;
