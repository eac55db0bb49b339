// The walk of the strings, entry by entry, and what the load tests before it.
ghost use Rattle.std.specs.Prelude.{◌≡◌, ◌≤◌, length, false};
ghost use Rattle.rules.specs.Load.{pass_in};
ghost use Rattle.descriptor.specs.Counts.{alone, counted_of, walk_alone, Small, SmallEnd};
ghost use Rattle.descriptor.specs.Walks.{stopped_of, refusal_at, entered_by, SmallEntered};

use crate::decode::Past;
use crate::lent::Walk;
use crate::state::Count;
use rules::{Passed, Refusal, State};

// An entry that fails a check: the check's number, its name in document 01, and how many entries of its string stand before it.
#[derive(Clone, Copy)]
pub struct Stop {
    pub number: usize,
    pub entries: usize,
}

impl Stop {
    // The refusal, with so many entries before the string.
    pub fn after(self, before: usize) -> Refusal
        requires { (before ≤ 255) × (self.entries ≤ 255) }
        ensures { result ≡ refusal_at self before }
    {
        Refusal::AtEntry(self.number, before + self.entries)
    }
}

// What the walk makes of a decode that ends it: a refusal with its entry's place among those of the string (document 01 asks for `let .. else`, which
// doesn't bind the number that the refusal leaves with; past an entry, its counts).
fn stopped(decoded: Result<Past, usize>, entries: usize) -> Result<Count, Stop>
    ensures { result ≡ stopped_of decoded entries }
{
    match decoded {
        Ok(past) => Ok(past.counts),
        Err(number) => Err(Stop { number, entries }),
    }
}

impl Walk<'_> {
    // The walk of the string from its beginning on, or of its first entry alone: the counts at its end. `pass` asks for the first entry
    // here, since the compiler leaves `decode` a call where the load has it a second time
    // (the load then takes 2.7 times as long; with `scan` larger by a test too).
    pub fn scan(self, one: bool, begin: Count) -> Result<Count, Stop>
        requires { Small begin }
        ensures answer { result ≡ counted_of (walk_alone one self.entry.a self.entry.s.now (alone self.entry.in_ro begin)) }
        ensures small { SmallEnd result }
    {
        let mut at = 0;
        let mut c = begin;
        // By each entry's Length, and out of it at a refusal: no range to go over.
        while at < self.s.len() {
            let decoded = self.decode(at, c);
            let Ok(past) = decoded else {
                return stopped(decoded, c.entries);
            };
            if one {
                return Ok(past.counts);
            }
            at = past.at;
            c = past.counts;
        }
        Ok(c)
    }

    // The walk of the RW string, up to the RO string. That a walk is of its state's string is asked here, of `pass` and of the text's `entries`: a
    // state comes from outside, and each caller has just chosen the string by it.
    pub fn to_ro(self, begin: State) -> Result<Entered, Refusal>
        requires { self.in_ro ≡ false }
        ensures answer { result ≡ entered_by self.entry.a self.entry.s.now begin }
        ensures small { SmallEntered result }
    {
        if begin.ro {
            return Ok(Entered {
                before: begin.before as usize,
                staged: begin.staged as usize,
                counts: Count::from(begin),
            });
        }
        match self.scan(false, Count::from(begin)) {
            Err(stop) => Err(stop.after(begin.before as usize)),
            Ok(c) => Ok(Entered {
                before: c.entries,
                staged: c.sum,
                counts: Count { entries: 0, ..c },
            }),
        }
    }

    // The first entry of the string, for a load that keeps a state in it.
    pub fn pass(self, st: State) -> Result<Option<Passed>, Refusal>
        requires { self.in_ro ≡ st.ro }
        ensures { result ≡ pass_in self.entry.a self.entry.s.now st }
    {
        if self.s.len() == 0 {
            return Ok(None);
        }
        match self.scan(true, Count::from(st)) {
            Err(stop) => Err(stop.after(st.before as usize)),
            Ok(c) => Ok(Some(Passed {
                state: c.within(st),
                length: self.s[1] as usize,
            })),
        }
    }
}

// Where the RO string begins or goes on: how many entries stand before it, the staged length, and the counts.
#[derive(Clone, Copy)]
pub struct Entered {
    pub before: usize,
    pub staged: usize,
    pub counts: Count,
}
