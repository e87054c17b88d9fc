// Why bytes are not read as an image.
ghost use Rattle.std.specs.Prelude.{◌≡◌};
ghost use Rattle.image.specs.Refusals.{refusal_number, refusal_text};

use std::error::Error;
use std::fmt;

// The segments are numbered from 0, the lowest.
#[derive(Clone, Copy, Debug, PartialEq, Eq)]
pub enum ImageRefusal {
    // Under 12 or over 65,536 bytes: how many.
    Length(usize),
    // The number found in place of the mark.
    Mark(u32),
    // Over 64 segments, or more bytes of segments than stand before the trailer.
    Trailer {
        segments: u32,
        back: u32,
        before: usize,
    },
    // Fewer than 8 bytes are left for a segment.
    Cut {
        segment: u32,
        left: usize,
    },
    // A segment's count is 0.
    Empty {
        segment: u32,
    },
    // A segment has more words than are left; the bytes left are those before its first word number and count.
    Beyond {
        segment: u32,
        count: u32,
        left: usize,
    },
    // A segment passes the first number of the next one, or the memory's size.
    Overlap {
        segment: u32,
        first: u32,
        count: u32,
        limit: u32,
    },
    // Bytes of segments are left over before the first one.
    LeftOver(usize),
}

impl ImageRefusal {
    // The number that the refusal is told by, 8 to 13.
    pub fn number(&self) -> u8
        ensures { result ≡ refusal_number self.now }
    {
        match self {
            Self::Length(_) => 8,
            Self::Mark(_) => 9,
            Self::Trailer { .. } => 10,
            Self::Cut { .. } | Self::Empty { .. } | Self::Beyond { .. } => 11,
            Self::Overlap { .. } => 12,
            Self::LeftOver(_) => 13,
        }
    }
}

impl Error for ImageRefusal {}

// Kept: the eight digits are not those of the instruction words' crate, on which images would then depend for what the library prints.
impl fmt::Display for ImageRefusal {
    ghost output = { refusal_text };

    fn fmt<W: fmt::Write>(&self, f: &mut fmt::Formatter<W>) -> fmt::Result {
        match *self {
            Self::Length(length) => write!(f, "{length} bytes, and an image has 12 to 65536"),
            Self::Mark(found) => write!(f, "{found:08X} stands for the mark 53524349"),
            Self::Trailer {
                segments,
                back,
                before,
            } => write!(
                f,
                "{segments} segments of {back} bytes, and there may be 64 of the {before} bytes before the trailer"
            ),
            Self::Cut { segment, left } => write!(
                f,
                "segment {segment} has {left} bytes, and needs 8"
            ),
            Self::Empty { segment } => write!(f, "segment {segment} has no words"),
            Self::Beyond {
                segment,
                count,
                left,
            } => write!(
                f,
                "segment {segment} has {count} words, and there are {left} bytes for them"
            ),
            Self::Overlap {
                segment,
                first,
                count,
                limit,
            } => write!(
                f,
                "segment {segment} has {count} words from number {first} on, and has to end before number {limit}"
            ),
            Self::LeftOver(left) => write!(f, "{left} bytes are left over before segment 0"),
        }
    }
}
