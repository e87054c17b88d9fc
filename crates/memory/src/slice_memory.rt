// A memory over the caller's slice, whose elements are words, or parts of words.
ghost use Rattle.std.specs.Prelude.{◌≡◌};
ghost use Rattle.memory.specs.Memory.{cut, loan_of};
ghost use Rattle.memory.specs.SliceMemory.{slice_words, slice_delay, slice_frame};
ghost use Rattle.memory.specs.Lawful.{slice_laws};

use crate::element::Element;
use crate::memory::{Memory, MemoryFault, admit};

#[derive(Drop)]
pub struct SliceMemory<'a, T> {
    elements: &'a mut [T],
}

impl<'a, T: Element> SliceMemory<'a, T> {
    /// The memory of the first 8,192 words that `elements` hold.
    pub fn new(elements: &'a mut [T]) -> SliceMemory<'a, T>
        ensures lent { result.elements.now ≡ elements.old }
        ensures named { result.elements.ghost_name ≡ elements.entry.ghost_name }
        ensures words { slice_words T.Element result ≡ cut (T.held elements.old) }
        ensures delay { slice_delay T.Element result ≡ (λ _. 0) }
        ensures frame { slice_frame T.Element result ≡ loan_of T.rest elements.entry }
    {
        T::all_fit(elements);
        SliceMemory { elements }
    }

    // Behind a `&self` the elements are known to be those of the field.
    fn elements(&self) -> &[T]
        ensures { result.now ≡ self.now.elements.now }
    {
        self.elements
    }
}

impl<'a, T: Element> Memory for SliceMemory<'a, T> {
    ghost words = { slice_words T.Element };

    ghost delay = { slice_delay T.Element };

    ghost frame = { slice_frame T.Element };

    ghost laws = { slice_laws T.Element };

    fn size(&mut self) -> u32 {
        T::count(self.elements())
    }

    fn delay(&mut self, _number: u32) -> u8 {
        0
    }

    fn read(&mut self, number: u32) -> Result<u32, MemoryFault> {
        admit(number, T::count(self.elements()))?;
        Ok(T::word(self.elements(), number))
    }

    fn write(&mut self, number: u32, value: u32) -> Result<(), MemoryFault> {
        admit(number, T::count(self.elements()))?;
        T::put(self.elements, number, value);
        Ok(())
    }
}
