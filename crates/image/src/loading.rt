// Loading an image into a memory.
ghost use Rattle.std.specs.Prelude.{◌≡◌, ◌≤◌, length};
ghost use Rattle.image.specs.Loading.{stored, loaded, Loads};
ghost use Rattle.image.specs.Segments.{end_of, InOrder};
ghost use Rattle.image.specs.Views.{segment_of, segments_of};

use crate::image::Image;
use crate::part::ImagePart;
use crate::reading::read;
use crate::refusal::ImageRefusal;
use memory::Memory;

// Sets the words that the image at the end of `bytes` lists, or refuses and changes nothing.
pub fn load<M: Memory>(memory: &mut M, bytes: &[u8]) -> Result<(), ImageRefusal>
    ensures { Loads M.Memory.words M.Memory.delay M.Memory.frame memory.old bytes.now result memory.new }
{
    let image = read(bytes, memory.size())?;
    set_segments(memory, &image);
    Ok(())
}

fn set_segments<M: Memory>(memory: &mut M, image: &Image)
    requires { InOrder (length (M.Memory.words memory.old)) (segments_of image.now) }
    ensures words { M.Memory.words memory.new ≡ loaded (M.Memory.words memory.old) (segments_of image.now) }
    ensures frame { M.Memory.frame memory.new ≡ M.Memory.frame memory.old }
{
    for part in image.segments() {
        set_words(memory, &part);
    }
}

fn set_words<M: Memory>(memory: &mut M, part: &ImagePart)
    requires { end_of (segment_of part.now) ≤ length (M.Memory.words memory.old) }
    ensures words { M.Memory.words memory.new ≡ stored (M.Memory.words memory.old) (segment_of part.now).first (segment_of part.now).values }
    ensures frame { M.Memory.frame memory.new ≡ M.Memory.frame memory.old }
{
    for (number, word) in (part.first()..).zip(part.words()) {
        let _ = memory.write(number, word);
    }
}
