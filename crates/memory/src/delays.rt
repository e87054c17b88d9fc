// The layer that adds to the delays of the memory below it, by a rule that says which words are slow.
ghost use Rattle.std.specs.Prelude.{◌≡◌, ℕ};
ghost use Rattle.memory.specs.Delays.{slower, rule_after, slowed_words, slowed_delay, slowed_frame};
ghost use Rattle.memory.specs.Memory.{Asked, Read, Written};
ghost use Rattle.memory.specs.Lawful.{slowed_laws};

use crate::memory::{Memory, MemoryFault};

/// Which words are slow, and by how much. Only an accepted read or write may change that.
pub trait SlowRule: Drop {
    // How many clocks an access to a word waits in addition, by the word's number.
    ghost extra: { Self → ℕ → ℕ };

    // The rule after an accepted read or write of a word.
    ghost after: { Self → ℕ → Self };

    /// How many clocks an access to the word waits in addition.
    fn extra(&self, number: u32) -> u8
        ensures { result ≡ extra self.now number };

    /// Takes note of an accepted read or write of the word.
    fn note(&mut self, number: u32)
        ensures { self.new ≡ after self.old number };
}

/// A memory with the delays of the one below and the extra of a rule.
#[derive(Drop)]
pub struct Slowed<M, R> {
    below: M,
    rule: R,
}

impl<M: Memory, R: SlowRule> Slowed<M, R> {
    /// The memory `below`, with the rule's extra added to its delays.
    pub fn new(below: M, rule: R) -> Slowed<M, R>
        ensures made { result ≡ record { below = below; rule = rule } }
        ensures words { slowed_words M.Memory result ≡ M.words below }
        ensures delay { slowed_delay M.Memory R.extra result ≡ slower (M.words below) (M.delay below) (R.extra rule) }
        ensures frame { slowed_frame M.Memory result ≡ M.frame below }
    {
        Slowed { below, rule }
    }

    /// The memory below.
    pub fn into_below(self) -> M
        ensures { result ≡ self.below }
    {
        let Slowed { below, rule: _ } = self;
        below
    }
}

impl<M: Memory, R: SlowRule> Memory for Slowed<M, R> {
    ghost words = { slowed_words M.Memory };

    ghost delay = { slowed_delay M.Memory R.extra };

    ghost frame = { slowed_frame M.Memory };

    ghost laws = { slowed_laws M.Memory R.extra };

    fn size(&mut self) -> u32 {
        self.below.size()
    }

    fn delay(&mut self, number: u32) -> u8 {
        let extra = self.rule.extra(number);
        slower_delay(&mut self.below, number, extra)
    }

    fn read(&mut self, number: u32) -> Result<u32, MemoryFault>
        ensures memory { Read (slowed_words M.Memory) (slowed_delay M.Memory R.extra) (slowed_frame M.Memory) self.old number result self.new }
        ensures below { Read M.words M.delay M.frame self.old.below number result self.new.below }
        ensures rule { self.new.rule ≡ rule_after R.after (M.words self.old.below) self.old.rule number }
    {
        let word = self.below.read(number)?;
        self.rule.note(number);
        Ok(word)
    }

    fn write(&mut self, number: u32, value: u32) -> Result<(), MemoryFault>
        ensures memory { Written (slowed_words M.Memory) (slowed_delay M.Memory R.extra) (slowed_frame M.Memory) self.old number value result self.new }
        ensures below { Written M.words M.delay M.frame self.old.below number value result self.new.below }
        ensures rule { self.new.rule ≡ rule_after R.after (M.words self.old.below) self.old.rule number }
    {
        self.below.write(number, value)?;
        self.rule.note(number);
        Ok(())
    }
}

/// The delay of a word of `below`, and `extra` more.
fn slower_delay<M: Memory>(below: &mut M, number: u32, extra: u8) -> u8
    ensures { Asked M.words M.delay M.frame below.old (slower (M.words below.old) (M.delay below.old) (λ _. extra) number) result below.new }
{
    if number < below.size() {
        below.delay(number).saturating_add(extra)
    } else {
        0
    }
}
