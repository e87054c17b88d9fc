// A memory over the caller's bytes, four a word, high byte first.
ghost use Rattle.memory.specs.ByteMemory.{packed, past_bytes};

use crate::element::Element;
use crate::memory::capped;
use crate::slice_memory::SliceMemory;

/// The memory of the first 8,192 whole words of a slice of bytes.
pub type ByteMemory<'a> = SliceMemory<'a, u8>;

impl Element for u8 {
    ghost held = { packed };

    ghost rest = { past_bytes };

    fn all_fit(_bytes: &[u8]) {}

    fn count(bytes: &[u8]) -> u32 {
        capped(bytes.len() / 4)
    }

    fn word(bytes: &[u8], number: u32) -> u32 {
        let (words, _) = bytes.as_chunks();
        u32::from_be_bytes(words[number as usize])
    }

    // Kept: `as_chunks_mut` says nothing of what the bytes are once its chunks were written.
    fn put(bytes: &mut [u8], number: u32, value: u32) {
        let at = 4 * number as usize;
        bytes[at..at + 4].copy_from_slice(&value.to_be_bytes());
    }
}
