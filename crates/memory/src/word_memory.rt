// A memory over the caller's list of words.
ghost use Rattle.std.specs.Prelude.{drop};

use crate::element::Element;
use crate::memory::capped;
use crate::slice_memory::SliceMemory;

/// The memory of the first 8,192 of a slice's words.
pub type WordMemory<'a> = SliceMemory<'a, u32>;

impl Element for u32 {
    ghost held = { λ words. words };

    ghost rest = { drop 8192 };

    fn all_fit(_words: &[u32]) {}

    fn count(words: &[u32]) -> u32 {
        capped(words.len())
    }

    fn word(words: &[u32], number: u32) -> u32 {
        words[number as usize]
    }

    fn put(words: &mut [u32], number: u32, value: u32) {
        words[number as usize] = value;
    }
}
