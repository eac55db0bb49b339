// What a walk keeps between two entries: at the beginning, past an entry, and into the RO string. Within a string only the counts change: a
// walk that hands the whole state on makes the load take 2.7 times as long.
ghost use Rattle.std.specs.Prelude.{◌≡◌, Bool, ◌+◌, ◌≤◌, ◌<◌};
ghost use Rattle.rules.specs.declared.Entry.{Entry};
ghost use Rattle.rules.specs.Descriptor.{entry_limit};
ghost use Rattle.rules.specs.Load.{start as start_of, next as next_of, into_ro, entry_number};
ghost use Rattle.descriptor.specs.Counts.{alone, count_of, with_count, Small};

use rules::State;

// The entries of its string that a walk has passed, the sum, and whether a media-side table entry has been passed. Numbers of a machine word, of
// which `Small` says in contracts that a state holds them: with the state's own u8 and u16 `scan` is too large to be inlined (LLVM's cost 345 of
// 250), and the load of a small map takes 48 ns for 33; and the definitions make counts of any state, so no ghost field can say it.
#[derive(Clone, Copy)]
pub struct Count {
    pub entries: usize,
    pub sum: usize,
    pub media: bool,
}

// The beginning of a load. Named as the rules name it: as a default it would say less.
pub fn start() -> State
    ensures { result ≡ start_of }
{
    State {
        ro: false,
        media: false,
        entries: 0,
        before: 0,
        sum: 0,
        staged: 0,
    }
}

impl From<State> for Count {
    ghost from_gives = { λ st c. (c ≡ count_of st) × Small c };

    fn from(st: State) -> Count {
        Count {
            entries: usize::from(st.entries),
            sum: usize::from(st.sum),
            media: st.media,
        }
    }
}

impl Count {
    // Past an entry, by its MemoryLength and its side.
    pub fn next(self, memory: usize, media: bool) -> Count
        requires { (self.entries < entry_limit) × (self.sum + memory ≤ 256) }
        ensures { (ro : Bool) (e : Entry) → e.memory ≡ memory → e.media ≡ media → result ≡ count_of (next_of (alone ro self) e) }
    {
        Count {
            entries: self.entries + 1,
            sum: self.sum + memory,
            media: self.media | media,
        }
    }

    // A state with these counts.
    pub fn within(self, st: State) -> State
        requires { Small self }
        ensures { result ≡ with_count st self }
    {
        State {
            media: self.media,
            entries: self.entries as u8,
            sum: self.sum as u16,
            ..st
        }
    }
}

pub fn into_ro(st: State) -> State
    ensures { result ≡ into_ro st }
{
    State {
        ro: true,
        entries: 0,
        before: st.entries,
        staged: st.sum,
        ..st
    }
}

// The number of the next entry.
pub fn entry_number(st: State) -> usize
    ensures { result ≡ entry_number st }
{
    usize::from(st.before) + usize::from(st.entries)
}
