// One segment of an image, in the image's bytes.

#[derive(Clone, Copy, Debug, PartialEq, Eq)]
pub struct ImagePart<'a> {
    pub(crate) first: u32,
    pub(crate) words: &'a [u8],
}
