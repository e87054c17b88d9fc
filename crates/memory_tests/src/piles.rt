// Piles over lent slices, and what the lender knows.
ghost use Rattle.std.specs.Prelude.{◌≡◌, length, drop};
ghost use Rattle.memory.specs.Memory.{cut, Read, Written};
ghost use Rattle.memory.specs.ByteMemory.{packed, bytes_used};
ghost use Rattle.memory.specs.Delays.{slower};
ghost use Rattle.memory.specs.SlowStretch.{in_stretch};
ghost use Rattle.memory.specs.OpenRow.{row_after};
ghost use Rattle.memory.specs.Pair.{joined};
ghost use Rattle.memory.specs.Edits.{copy_of, copied};

use memory::{
    ByteMemory, Memory, MemoryFault, OpenRow, Pair, Row, SlowStretch, Stretch, WordMemory,
    copy_word,
};

/// Copies a word in a pile of all five memories over two lent slices.
pub fn copy_in_pile(
    words: &mut [u32],
    bytes: &mut [u8],
    from: u32,
    to: u32,
) -> Result<(), MemoryFault>
    ensures { result ≡ copy_of (joined (cut words.old) (cut (packed bytes.old))) from to }
{
    let pair = Pair::new(WordMemory::new(words), ByteMemory::new(bytes));
    let mut pile = OpenRow::new(SlowStretch::new(pair, Stretch::new(16, 64, 3)), Row::new(7));
    copy_word(&mut pile, from, to)
}

/// The first delay of a word in such a pile: that of the open row, on top of that of the stretch.
pub fn delay_in_pile(words: &mut [u32], number: u32) -> u8
    ensures { result ≡ slower (cut words.old) (slower (cut words.old) (λ _. 0) (in_stretch 16 64 3)) (λ _. 7) number }
{
    let slow = SlowStretch::new(WordMemory::new(words), Stretch::new(16, 64, 3));
    let mut pile = OpenRow::new(slow, Row::new(7));
    pile.delay(number)
}

/// Reads a word through an open row. Then the word's row is open, or the one that was where the read is refused.
pub fn read_in_row<M: Memory>(memory: &mut OpenRow<M>, number: u32) -> Result<u32, MemoryFault>
    ensures below { Read M.words M.delay M.frame memory.old.below number result memory.new.below }
    ensures row { memory.new.rule ≡ record memory.old.rule { opened = row_after (M.words memory.old.below) memory.old.rule.opened number } }
{
    memory.read(number)
}

/// Writes a word through a slow stretch, which stays the same stretch.
pub fn write_in_stretch<M: Memory>(
    memory: &mut SlowStretch<M>,
    number: u32,
    value: u32,
) -> Result<(), MemoryFault>
    ensures below { Written M.words M.delay M.frame memory.old.below number value result memory.new.below }
    ensures stretch { memory.new.rule ≡ memory.old.rule }
{
    memory.write(number, value)
}

/// Copies a word in a memory over lent words. The lender then holds the copy, and past the words what was there.
pub fn copy_in_words(words: &mut [u32], from: u32, to: u32)
    ensures words { cut words.new ≡ copied (cut words.old) from to }
    ensures rest { drop 8192 words.new ≡ drop 8192 words.old }
{
    let mut memory = WordMemory::new(words);
    let _ = copy_word(&mut memory, from, to);
}

// Kept: one function for this and the one above would name the bound on elements, which no other crate can, and would not know that they fit.
/// The same in a memory over lent bytes.
pub fn copy_in_bytes(bytes: &mut [u8], from: u32, to: u32)
    ensures words { cut (packed bytes.new) ≡ copied (cut (packed bytes.old)) from to }
    ensures rest { drop (bytes_used bytes.old) bytes.new ≡ drop (bytes_used bytes.old) bytes.old }
{
    let mut memory = ByteMemory::new(bytes);
    let _ = copy_word(&mut memory, from, to);
}
