// Edits that are proved once, over any memory.
ghost use Rattle.std.specs.Prelude.{◌≡◌, ◌≤◌, length, replicate};
ghost use Rattle.memory.specs.Edits.{copy_of, copied};

use crate::memory::{Memory, MemoryFault};

/// Copies the word with the number `from` to the word with the number `to`.
pub fn copy_word<M: Memory>(memory: &mut M, from: u32, to: u32) -> Result<(), MemoryFault>
    ensures answer { result ≡ copy_of (M.words memory.old) from to }
    ensures words { M.words memory.new ≡ copied (M.words memory.old) from to }
    ensures delay { length (M.words memory.old) ≤ from → M.delay memory.new ≡ M.delay memory.old }
    ensures frame { M.frame memory.new ≡ M.frame memory.old }
{
    let word = memory.read(from)?;
    memory.write(to, word)
}

/// Writes `value` to each word.
pub fn fill<M: Memory>(memory: &mut M, value: u32)
    ensures words { M.words memory.new ≡ replicate (length (M.words memory.old)) value }
    ensures delay { length (M.words memory.old) ≡ 0 → M.delay memory.new ≡ M.delay memory.old }
    ensures frame { M.frame memory.new ≡ M.frame memory.old }
{
    for number in 0..memory.size() {
        let _ = memory.write(number, value);
    }
}
