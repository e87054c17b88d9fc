// A layer that puts the words of one memory after those of another.
ghost use Rattle.std.specs.Prelude.{◌≡◌, ◌++◌, length};
ghost use Rattle.memory.specs.Memory.{Same, Read, Written};
ghost use Rattle.memory.specs.Pair.{joined, joined_delay, pair_words, pair_delay, pair_frame, Reached};
ghost use Rattle.memory.specs.Lawful.{pair_laws};

use crate::memory::{MOST_WORDS, Memory, MemoryFault, admit};

#[derive(Drop)]
pub struct Pair<A, B> {
    first: A,
    second: B,
}

impl<A: Memory, B: Memory> Pair<A, B> {
    /// The words of `first`, and after them those of `second`, cut at 8,192.
    pub fn new(first: A, second: B) -> Pair<A, B>
        ensures made { result ≡ record { first = first; second = second } }
        ensures words { pair_words A.Memory B.Memory result ≡ joined (A.words first) (B.words second) }
        ensures delay { pair_delay A.Memory B.Memory result ≡ joined_delay (A.words first) (B.words second) (A.delay first) (B.delay second) }
        ensures frame { pair_frame A.Memory B.Memory result ≡ A.frame first ++ B.frame second }
    {
        Pair { first, second }
    }

    /// The two memories.
    pub fn into_parts(self) -> (A, B)
        ensures { result ≡ (self.first, self.second) }
    {
        let Pair { first, second } = self;
        (first, second)
    }

    // Kept: `delay`, `read` and `write` each choose the part by these two; a value for the part and its number would be taken apart again in each.
    /// How many words the first has, and how many there are.
    fn sizes(&mut self) -> (u32, u32)
        ensures front { result.0 ≡ length (A.words self.old.first) }
        ensures whole { result.1 ≡ length (pair_words A.Memory B.Memory self.old) }
        ensures first { Same A.words A.delay A.frame self.old.first self.new.first }
        ensures second { Same B.words B.delay B.frame self.old.second self.new.second }
    {
        let front = self.first.size();
        let back = self.second.size();
        (front, (front + back).min(MOST_WORDS))
    }
}

impl<A: Memory, B: Memory> Memory for Pair<A, B> {
    ghost words = { pair_words A.Memory B.Memory };

    ghost delay = { pair_delay A.Memory B.Memory };

    ghost frame = { pair_frame A.Memory B.Memory };

    ghost laws = { pair_laws A.Memory B.Memory };

    fn size(&mut self) -> u32 {
        let (_, size) = self.sizes();
        size
    }

    fn delay(&mut self, number: u32) -> u8 {
        let (front, size) = self.sizes();
        if number >= size {
            0
        } else if number < front {
            self.first.delay(number)
        } else {
            self.second.delay(number - front)
        }
    }

    fn read(&mut self, number: u32) -> Result<u32, MemoryFault>
        ensures memory { Read (pair_words A.Memory B.Memory) (pair_delay A.Memory B.Memory) (pair_frame A.Memory B.Memory) self.old number result self.new }
        ensures parts { Reached A.Memory B.Memory self.old self.new number (Read A.words A.delay A.frame self.old.first number result self.new.first) (λ n. Read B.words B.delay B.frame self.old.second n result self.new.second) }
    {
        let (front, size) = self.sizes();
        admit(number, size)?;
        if number < front {
            self.first.read(number)
        } else {
            self.second.read(number - front)
        }
    }

    fn write(&mut self, number: u32, value: u32) -> Result<(), MemoryFault>
        ensures memory { Written (pair_words A.Memory B.Memory) (pair_delay A.Memory B.Memory) (pair_frame A.Memory B.Memory) self.old number value result self.new }
        ensures parts { Reached A.Memory B.Memory self.old self.new number (Written A.words A.delay A.frame self.old.first number value result self.new.first) (λ n. Written B.words B.delay B.frame self.old.second n value result self.new.second) }
    {
        let (front, size) = self.sizes();
        admit(number, size)?;
        if number < front {
            self.first.write(number, value)
        } else {
            self.second.write(number - front, value)
        }
    }
}
