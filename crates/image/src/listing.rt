// What an image lists.
ghost use Rattle.std.specs.Prelude.{◌≡◌, length};
ghost use Rattle.std.specs.Option.{option_map};
ghost use Rattle.std.specs.List.{slice_get};
ghost use Rattle.image.specs.Views.{segment_of, segments_of};

use crate::image::Image;
use crate::part::ImagePart;

impl<'a> Image<'a> {
    // How many segments there are.
    pub fn count(&self) -> u32
        ensures { result ≡ length (segments_of self.now) }
    {
        self.body.count
    }

    // The segment number `i`, from 0, the lowest.
    pub fn segment(&self, i: u32) -> Option<ImagePart<'a>>
        ensures { option_map segment_of result ≡ slice_get (segments_of self.now) i }
    {
        self.body.walk(i).ok().flatten()
    }
}

impl ImagePart<'_> {
    // The number of its first word.
    pub fn first(&self) -> u32
        ensures { result ≡ (segment_of self.now).first }
    {
        self.first
    }

    // How many words it has.
    pub fn count(&self) -> usize
        ensures { result ≡ length (segment_of self.now).values }
    {
        self.words.len() / 4
    }

    // The value of its word k, counted from 0.
    pub fn word(&self, k: usize) -> Option<u32>
        ensures { result ≡ slice_get (segment_of self.now).values k }
    {
        let (words, _) = self.words.as_chunks();
        let word = words.get(k)?;
        Some(u32::from_be_bytes(*word))
    }
}
