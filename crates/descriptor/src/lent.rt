// What the walk of one string reads: the string, the bytes of an application mask, and which of the two strings it is.
ghost use Rattle.descriptor.specs.Ready.{Ready};

#[derive(Clone, Copy)]
pub struct Walk<'a> {
    pub a: usize,
    pub s: &'a [u8],
    pub in_ro: bool,
    ghost ready: { Ready a s.now },
}
