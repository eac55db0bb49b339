// The search for an entry by its number, and by a byte that its space covers, once the load has accepted the strings.
ghost use Rattle.std.specs.Prelude.{◌≡◌, ◌+◌, ◌*◌, ◌≤◌, suc, IfSome, IfNone};
ghost use Rattle.rules.specs.Descriptor.{entry_limit};
ghost use Rattle.descriptor.specs.Marks.{past as past_of, OnEntry, mark_after, Passable};
ghost use Rattle.descriptor.specs.Locate.{located_after};
ghost use Rattle.descriptor.specs.Cover.{Reachable, Hits, Misses};

use crate::lent::Walk;
use crate::{Located, Mark};

// Past the entry at a mark. What it asks (`OnEntry`) is no fact of a mark: past the last entry none stands at it.
pub fn past(a: usize, s: &[u8], mark: Mark) -> Mark
    requires { OnEntry a s.now mark }
    ensures { result ≡ past_of a s.now mark }
{
    let at = mark.at;
    Mark {
        at: at + (s[at + 1] as usize),
        sum: mark.sum + (s[at + 2 + a] as usize),
    }
}

// An entry that a search found: its number in the string, and where it stands.
#[derive(Clone, Copy)]
pub struct Hit {
    pub number: usize,
    pub mark: Mark,
}

impl Walk<'_> {
    // Past n entries of the string, whose spaces begin at a sum.
    #[tactic(auto, unfolding(crate::specs::Marks::mark_after))]
    fn seek(self, sum: usize, n: usize) -> Mark
        requires { Passable self.a self.s.now sum n }
        ensures { result ≡ mark_after self.entry.a self.entry.s.now sum n }
    {
        let mut mark = Mark { at: 0, sum };
        for _i in 0..n {
            mark = past(self.a, self.s, mark);
        }
        mark
    }

    // Where entry n of the string stands.
    #[tactic(auto, unfolding(crate::specs::Marks::mark_after))]
    pub fn locate(self, sum: usize, n: usize) -> Located
        requires { Passable self.a self.s.now sum (suc n) }
        ensures { result ≡ located_after self.entry.in_ro self.entry.a self.entry.s.now sum n }
    {
        let mark = self.seek(sum, n);
        Located {
            ro: self.in_ro,
            mark,
            length: self.s[mark.at + 1] as usize,
        }
    }

    // The first of n entries of the string whose space ends past a byte. Every entry that is looked at is counted, with those looked at before, by
    // a counter that is lent, since it goes on from one string to the other; `cover` answers it. It is told of no entry behind that first one.
    #[tactic(auto, unfolding(crate::specs::Marks::mark_after))]
    pub fn look(self, sum: usize, n: usize, offset: usize, looked: &mut usize) -> Option<Hit>
        requires { Reachable self.a self.s.now sum n offset × (sum ≤ offset) × (looked.old + n ≤ 2 * entry_limit) }
        ensures hit { IfSome result (λ h. Hits self.entry.a self.entry.s.now sum n offset looked.old looked.new h) }
        ensures none { IfNone result (Misses self.entry.a self.entry.s.now sum n offset looked.old looked.new) }
    {
        let mut mark = Mark { at: 0, sum };
        for number in 0..n {
            let after = past(self.a, self.s, mark);
            *looked += 1;
            let end = after.sum; // of the entry's space
            if offset < end {
                return Some(Hit { number, mark });
            }
            mark = after;
        }
        None
    }
}
