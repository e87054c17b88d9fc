// Reading an image from bytes.
ghost use Rattle.std.specs.Prelude.{◌≡◌, List};
ghost use Rattle.image.specs.Accepting.{AcceptsExactly};
ghost use Rattle.image.specs.Reading.{reading};
ghost use Rattle.image.specs.Segments.{Segment};
ghost use Rattle.image.specs.Views.{told};

use crate::image::Image;
use crate::number::number;
use crate::refusal::ImageRefusal;
use crate::walk::Body;

// 53h 52h 43h 49h, with which the trailer begins.
const MARK: u32 = 0x53524349;

// Reads the image at the end of `bytes`, for a memory of `size` words. What stands before the image is ignored.
// The answer is the definition's, and with it comes that exactly what is written is accepted.
pub fn read(bytes: &[u8], size: u32) -> Result<Image<'_>, ImageRefusal>
    ensures answer { told result ≡ reading size bytes.now }
    ensures accepts { (segments : List Segment) → AcceptsExactly (told result) size bytes.now segments }
{
    opened(bytes, size)
}

// The body of `read`, apart so that what it promises besides is proved once of its answer, not at each return.
fn opened(bytes: &[u8], size: u32) -> Result<Image<'_>, ImageRefusal>
    ensures { told result ≡ reading size bytes.now }
{
    let length = bytes.len();
    let Some((rest, trailer)) = bytes.split_last_chunk::<12>() else {
        return Err(ImageRefusal::Length(length));
    };
    if length > 65_536 {
        return Err(ImageRefusal::Length(length));
    }
    let found = number(trailer, 0);
    if found != MARK {
        return Err(ImageRefusal::Mark(found));
    }
    let segments = number(trailer, 1);
    let back = number(trailer, 2);
    let before = rest.len();
    // Kept: one test of both numbers and not `checked_sub`, since one refusal tells both, with what stands before the trailer.
    if segments > 64 || back as usize > before {
        return Err(ImageRefusal::Trailer {
            segments,
            back,
            before,
        });
    }
    let body = Body {
        bytes: &rest[before - back as usize..],
        count: segments,
        size,
    };
    // The walk decides. Which segment it looks for does not matter here.
    let _ = body.walk(0)?;
    Ok(Image { body })
}
