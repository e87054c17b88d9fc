// What the slice under a memory is made of: words, or parts of words.
ghost use Rattle.std.specs.Prelude.{◌≡◌, ℕ, ◌<◌, List, length, slice_index, slice_set};
ghost use Rattle.memory.specs.Memory.{cut, word_list};

/// What a slice is made of that holds words. No other crate can name it, so its `requires` bind no caller.
pub(crate) trait Element: Copy {
    // The words that some elements hold.
    ghost held: { List Self → List ℕ };

    // What lies past the elements that a memory over them uses.
    ghost rest: { List Self → List ℕ };

    // Kept: a function with a fact and no work, since no proof of one that is generic in the elements knows that they fit, and `new` is one.
    /// Says that each element fits its type.
    fn all_fit(elements: &[Self])
        ensures { word_list (held elements.now) ≡ cut (held elements.now) };

    /// How many words there are.
    fn count(elements: &[Self]) -> u32
        ensures { result ≡ length (word_list (held elements.now)) };

    /// The word with the number, which is there.
    fn word(elements: &[Self], number: u32) -> u32
        requires { number < length (word_list (held elements.now)) }
        ensures { result ≡ slice_index (word_list (held elements.now)) number };

    /// Replaces that word.
    fn put(elements: &mut [Self], number: u32, value: u32)
        requires { number < length (word_list (held elements.old)) }
        ensures words { word_list (held elements.new) ≡ slice_set (word_list (held elements.old)) number value }
        ensures rest { rest elements.new ≡ rest elements.old };
}
