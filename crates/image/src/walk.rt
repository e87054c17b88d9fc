// The walk over the segments of an image, from the last to the first.
ghost use Rattle.std.specs.Prelude.{◌≡◌};
ghost use Rattle.image.specs.Reading.{last_segment, nothing_left};
ghost use Rattle.image.specs.Views.{split_of, picked, part_of, walked};

use crate::number::number;
use crate::part::ImagePart;
use crate::refusal::ImageRefusal;

// The bytes of all segments of an image, their number, and the size of the memory that they are for.
#[derive(Clone, Copy, Debug, PartialEq, Eq)]
pub(crate) struct Body<'a> {
    pub(crate) bytes: &'a [u8],
    pub(crate) count: u32,
    pub(crate) size: u32,
}

// Takes the segment at the end of `body` off, of the number `segment`, which may not pass `limit`: what stands before it, and the segment.
fn last_segment(
    body: &[u8],
    limit: u32,
    segment: u32,
) -> Result<(&[u8], ImagePart<'_>), ImageRefusal>
    ensures { split_of result ≡ last_segment segment limit body.now }
{
    let Some((rest, end)) = body.split_last_chunk::<8>() else {
        return Err(ImageRefusal::Cut {
            segment,
            left: body.len(),
        });
    };
    let first = number(end, 0);
    let count = number(end, 1);
    if count == 0 {
        return Err(ImageRefusal::Empty { segment });
    }
    let left = rest.len();
    let Some(start) = left.checked_sub(4 * count as usize) else {
        return Err(ImageRefusal::Beyond {
            segment,
            count,
            left,
        });
    };
    if u64::from(first) + u64::from(count) > u64::from(limit) {
        return Err(ImageRefusal::Overlap {
            segment,
            first,
            count,
            limit,
        });
    }
    let (before, words) = rest.split_at(start);
    Ok((before, ImagePart { first, words }))
}

// Refuses bytes that are left over.
fn whole(rest: &[u8]) -> Result<(), ImageRefusal>
    ensures { result ≡ nothing_left rest.now }
{
    if rest.is_empty() {
        Ok(())
    } else {
        Err(ImageRefusal::LeftOver(rest.len()))
    }
}

impl<'a> Body<'a> {
    // Goes over the segments from the last to the first, and gives the one numbered `wanted`.
    pub(crate) fn walk(&self, wanted: u32) -> Result<Option<ImagePart<'a>>, ImageRefusal>
        ensures { part_of result ≡ picked wanted (walked self.now) }
    {
        let mut rest = self.bytes;
        let mut limit = self.size;
        let mut found = None;
        for segment in (0..self.count).rev() {
            let (before, part) = last_segment(rest, limit, segment)?;
            if segment == wanted {
                found = Some(part);
            }
            limit = part.first;
            rest = before;
        }
        whole(rest)?;
        Ok(found)
    }
}
