// The segments of an image, one after another.
ghost use Rattle.std.specs.Prelude.{◌≡◌};
ghost use Rattle.std.specs.Iterator.{YieldsFirstBy, item_count};
ghost use Rattle.image.specs.Views.{segment_of, segments_of, segments_left};

use crate::image::Image;
use crate::part::ImagePart;
use std::ops::Range;

// Holds the image, and the numbers of the segments that are left.
#[derive(Debug, Drop)]
pub struct Segments<'a> {
    pub(crate) image: Image<'a>,
    pub(crate) numbers: Range<u32>,
}

impl<'a> Image<'a> {
    // Each segment in turn, the lowest first.
    pub fn segments(&self) -> Segments<'a>
        ensures { segments_left result ≡ segments_of self.now }
    {
        Segments {
            image: *self,
            numbers: 0..self.count(),
        }
    }
}

impl<'a> Iterator for Segments<'a> {
    type Item = ImagePart<'a>;

    ghost next_gives = { YieldsFirstBy segment_of segments_left };

    ghost remaining = { item_count segments_left };

    fn next(&mut self) -> Option<ImagePart<'a>> {
        let number = self.numbers.next()?;
        self.image.segment(number)
    }
}
