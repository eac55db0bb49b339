// The types that every call speaks in, and the layout of a bank. The rules are the definitions of specs/, the theorems about them
// are in proofs/.
#![tactic(auto)]

ghost use Rattle.std.specs.Prelude.{◌≡◌};
ghost use Rattle.rules.specs.Words.{number_of};
ghost use Rattle.rules.specs.Layout.{set_start, app_sel_start};

// A bank's size in bytes.
pub const BANK_SIZE: usize = 784;

// The active set's part of a bank.
pub const ACTIVE_START: usize = 512;

pub const ACTIVE_END: usize = 768;

// The AppSels of the staged sets 0 and 1, a byte for each of 8 lanes.
const APP_SELS_0: usize = 768;

const APP_SELS_1: usize = 776;

// The most entries that a string may have.
pub const ENTRY_LIMIT: usize = 16;

// Where a set begins in a bank: the staged sets 0 and 1, and the active set. A set is a number and no enum, here and in all calls: a call may
// name any number, and 10 refuses one that names no set (document 01).
pub fn set_start(set: usize) -> usize
    ensures { result ≡ set_start set }
{
    if set < 2 {
        return 256 * set;
    }
    ACTIVE_START
}

// Where the AppSels of a staged set begin, those of lanes 1 to 8 in a row.
pub fn app_sel_start(set: usize) -> usize
    ensures { result ≡ app_sel_start set }
{
    if set == 0 {
        return APP_SELS_0;
    }
    APP_SELS_1
}

// A refusal: its number alone (8 to 12, and all of the reader's), with the entry that it names (1 to 7, 16), or with the lane (13, 14). The
// documents 01 and 02 name a refusal by its number alone, tools print the number and C gets it: an enum of names would be a second name for each,
// with a table between.
#[derive(Clone, Copy)]
pub enum Refusal {
    Plain(usize),
    AtEntry(usize, usize),
    AtLane(usize, usize),
}

impl Refusal {
    // Its number.
    pub fn number(self) -> usize
        ensures { result ≡ number_of self }
    {
        match self {
            Refusal::Plain(n) => n,
            Refusal::AtEntry(n, _) => n,
            Refusal::AtLane(n, _) => n,
        }
    }
}

// An entry of a descriptor string, decoded: where it starts in its string, what its bytes say, and its offset in a set.
// `media` is PropertyFlags bit 0 of an ID of the table; `codes`, `min`, `max` (as bytes) and `step` are 0 where the ID has no such extra: the
// definitions speak of this type and no code makes one, so an Option would guard nothing.
#[derive(Clone, Copy)]
pub struct Entry {
    pub id: usize,
    pub start: usize,
    pub length: usize,
    pub mask: usize,
    pub memory: usize,
    pub media: bool,
    pub codes: usize,
    pub min: usize,
    pub max: usize,
    pub step: usize,
    pub offset: usize,
}

// What a walk of the strings keeps after an entry: whether it is in the RO string, whether a media-side table entry has been passed, how many
// entries of this string have been, how many stand before this string, the sum of all MemoryLengths passed and, in the RO string, the staged length.
// `ro` is a flag beside `before` and `staged`, and no enum of the two strings: C hands any state in, so each combination is a state with an answer.
#[derive(Clone, Copy)]
pub struct State {
    pub ro: bool,
    pub media: bool,
    pub entries: u8,
    pub before: u8,
    pub sum: u16,
    pub staged: u16,
}

// What the load of both strings, and fresh, answer: both entry counts, staged and active length.
#[derive(Clone, Copy)]
pub struct Loaded {
    pub rw_count: usize,
    pub ro_count: usize,
    pub staged_length: usize,
    pub active_length: usize,
}

// One entry of a load that is made entry by entry: the state after it, and its Length.
#[derive(Clone, Copy)]
pub struct Passed {
    pub state: State,
    pub length: usize,
}

// The seven calls of demand 3, with any numbers.
#[derive(Clone, Copy)]
pub enum Call {
    Select {
        set: usize,
        lane: usize,
        app: usize,
    },
    Write {
        set: usize,
        field: Field,
        value: i64,
    },
    Read {
        set: usize,
        field: Field,
    },
    ByteWrite {
        set: usize,
        offset: usize,
        byte: u8,
    },
    ByteRead {
        set: usize,
        offset: usize,
    },
    Publish {
        field: Field,
        value: i64,
    },
    Apply {
        set: usize,
        lanes: u8,
    },
}

// Document 01's two kinds of answer: of these calls, of weight, and of the call beside the entry call (which hands back bytes alone): yes, where
// that one hands back an entry's bytes. "An accepted call without another answer says yes."
#[derive(Clone, Copy)]
pub enum Answer {
    Yes,
    Number(i64),
}

// Where a field lies: its offset in the set, the page and byte that Table 4-1 of OIF-CMIS-VCS-01.1 gives this offset, and its lowest
// bit. Page and byte are 0 where the table gives none, and no Option holds them: the definition says so and tools print them (a rule of the project).
#[derive(Clone, Copy)]
pub struct Placed {
    pub offset: usize,
    pub page: usize,
    pub byte: usize,
    pub bit: usize,
}

// A field: its entry, part and lane.
#[derive(Clone, Copy)]
pub struct Field {
    pub entry: usize,
    pub part: usize,
    pub lane: usize,
}

// The field that a bit belongs to, none in a gap, and the number of entries looked at.
#[derive(Clone, Copy)]
pub struct Owned {
    pub field: Option<Field>,
    pub looked: usize,
}

// An entry that a reader takes: its start and length.
#[derive(Clone, Copy)]
pub struct Taken {
    pub start: usize,
    pub length: usize,
}
