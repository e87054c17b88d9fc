// What every memory means, and what its calls promise.
ghost use Rattle.std.specs.Prelude.{◌≡◌, ℕ, ◌<◌, ◌≤◌, min, List, length, MatchResult};
ghost use Rattle.memory.specs.Memory.{Loan, Laws, Asked, Read, Written};

/// At most this many words are in a memory.
pub const MOST_WORDS: u32 = 8192;

// Kept: no `Error` and no text, since the core, run control and an answer each tell it in other words.
/// The refusal of a word number that is not below the memory's size.
#[derive(Clone, Copy, Debug, PartialEq, Eq)]
pub struct MemoryFault {
    pub number: u32,
    pub size: u32,
}

/// A list of words, and for each word number a delay. Only an accepted read or write may change delays.
pub trait Memory {
    // The words, by their numbers.
    ghost words: { Self → List ℕ };

    // How many clocks an access to a word waits.
    ghost delay: { Self → ℕ → ℕ };

    // What is lent to the memory and is none of its words.
    ghost frame: { Self → List Loan };

    ghost laws: { Laws words delay };

    /// How many words there are.
    fn size(&mut self) -> u32
        ensures { Asked words delay frame self.old (length (words self.old)) result self.new };

    /// How many clocks an access to the word waits.
    fn delay(&mut self, number: u32) -> u8
        ensures { Asked words delay frame self.old (delay self.old number) result self.new };

    /// The word, or a refusal.
    fn read(&mut self, number: u32) -> Result<u32, MemoryFault>
        ensures { Read words delay frame self.old number result self.new };

    /// Replaces the word, or refuses.
    fn write(&mut self, number: u32, value: u32) -> Result<(), MemoryFault>
        ensures { Written words delay frame self.old number value result self.new };
}

/// Refuses a number that is not below `size`.
pub(crate) fn admit(number: u32, size: u32) -> Result<(), MemoryFault>
    ensures { MatchResult result (λ _. number < size) (λ fault. (size ≤ number) × (fault ≡ record { number = number; size = size })) }
{
    if number < size {
        Ok(())
    } else {
        Err(MemoryFault { number, size })
    }
}

/// `count` as the size of a memory.
pub(crate) fn capped(count: usize) -> u32
    ensures { result ≡ min 8192 count }
{
    count.min(MOST_WORDS as usize) as u32
}
