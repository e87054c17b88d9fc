// An image that was read.
ghost use Rattle.std.specs.Prelude.{IsOk};
ghost use Rattle.image.specs.Reading.{walk};

use crate::walk::Body;

#[derive(Clone, Copy, Debug, PartialEq, Eq)]
pub struct Image<'a> {
    pub(crate) body: Body<'a>,
    // Its segments are read, and none is refused.
    pub ghost whole: { IsOk (walk body.count body.size body.bytes.now) },
}
