// Reading one descriptor string entry by entry: a reader over the lent string that keeps its position.
#![tactic(auto)]

ghost use Rattle.std.specs.Prelude.{◌≡◌, length};
ghost use Rattle.rules.specs.Reader.{take_of};
ghost use Rattle.reader.specs.Take.{EndsWithin, taking_of, reader_of, taken_by, moved_by};

use descriptor::Descriptors;
use rules::{Refusal, Taken};

// What a reader takes, and the position after it: another one only past an entry.
#[derive(Clone, Copy)]
pub struct Taking {
    pub taken: Result<Option<Taken>, Refusal>,
    pub at: usize,
}

// What is taken from a string at a position: 9, the end, 1, 2, and the entry.
fn take_at(count: usize, s: &[u8], at: usize) -> Result<Option<Taken>, Refusal>
    ensures answer { result ≡ take_of count s.now at }
    ensures inside { EndsWithin (length s.now) result }
{
    let alone = Descriptors {
        count,
        rw: s,
        ro: &s[..0],
    };
    alone.check_limits()?;
    if s.len() <= at {
        return Ok(None);
    }
    let length = alone.length_read(at)?;
    Ok(Some(Taken { start: at, length }))
}

// A lent string and the position in it: document 01's form of the reader, a struct with the slice and a position.
#[derive(Drop)]
pub struct Reader<'a> {
    pub src: &'a [u8],
    pub at: usize,
}

impl<'a> Reader<'a> {
    // A reader at the beginning of a string.
    pub fn new(src: &'a [u8]) -> Reader<'a>
        ensures { result ≡ reader_of src.entry }
    {
        Reader { src, at: 0 }
    }

    // Takes, with the count of applications: the next entry's start and length, none at the end, or a refusal.
    pub fn take(&mut self, count: usize) -> Result<Option<Taken>, Refusal>
        ensures { (result ≡ taken_by count self.old) × (self.new ≡ moved_by count self.old) }
    {
        let taken = take_at(count, self.src, self.at)?;
        if let Some(entry) = taken {
            self.at = entry.start + entry.length;
        }
        Ok(taken)
    }
}

// What a reader that stands at a position takes, and the position after it.
pub fn take_from(count: usize, src: &[u8], at: usize) -> Taking
    ensures { result ≡ taking_of count src.now at }
{
    let mut r = Reader { src, at };
    let taken = r.take(count);
    Taking { taken, at: r.at }
}
