// What apply is asked of a bank, beside the descriptors: a staged set, and lanes, bit i − 1 for lane i.
ghost use Rattle.control_set.specs.Asked.{Asked};

use descriptor::Descriptors;

#[derive(Clone, Copy)]
pub struct Chosen<'a> {
    pub desc: Descriptors<'a>,
    pub set: usize,
    pub lanes: u8,
    pub bank: &'a [u8],
    ghost asked: { Asked desc.count set bank.now },
}
