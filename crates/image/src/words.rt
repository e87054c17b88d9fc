// The words of a segment, one after another.
ghost use Rattle.std.specs.Prelude.{◌≡◌};
ghost use Rattle.std.specs.Iterator.{YieldsFirst, item_count};
ghost use Rattle.image.specs.Views.{segment_of, words_left};

use crate::part::ImagePart;

// Holds the bytes of the words that are left.
#[derive(Debug, Drop)]
pub struct Words<'a> {
    pub(crate) rest: &'a [u8],
}

impl<'a> ImagePart<'a> {
    // The value of each of its words in turn.
    pub fn words(&self) -> Words<'a>
        ensures { words_left result ≡ (segment_of self.now).values }
    {
        Words { rest: self.words }
    }
}

impl Iterator for Words<'_> {
    type Item = u32;

    ghost next_gives = { YieldsFirst words_left };

    ghost remaining = { item_count words_left };

    fn next(&mut self) -> Option<u32> {
        let (word, rest) = self.rest.split_first_chunk()?;
        self.rest = rest;
        Some(u32::from_be_bytes(*word))
    }
}
