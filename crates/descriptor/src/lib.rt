// Reading: the load of both descriptor strings, where an entry stands, and an entry's own bytes.
// A byte is widened to a `usize` by `as`, here and in all crates but in `state.rt`: `usize::from` is no plainer, and most proofs have to be told its value.
#![tactic(auto)]

ghost use Rattle.std.specs.Prelude.{cond, true, ◌≡◌, ◌++◌, ◌+◌, ◌≤◌, length, drop};
ghost use Rattle.rules.specs.Parameter.{row_of};
ghost use Rattle.rules.specs.Descriptor.{mask_bytes};
ghost use Rattle.descriptor.specs.Limits.{limits_of};
ghost use Rattle.rules.specs.Load.{sized, load_of, resume_of, pass_of};
ghost use Rattle.rules.specs.MapProgram.{map_output};
ghost use Rattle.rules.specs.Beside.{entry_answer, entry_bytes};
ghost use Rattle.descriptor.specs.Locate.{located_of};
ghost use Rattle.descriptor.specs.Find.{in_range, range_of, accepted_in, held_in, shown_in, found_of};
ghost use Rattle.descriptor.specs.Rows.{is_limited};
ghost use Rattle.descriptor.specs.Reading.{read_by, patterns_by, range_by, length_by};
ghost use Rattle.descriptor.specs.Cover.{spaced_in, cover_of};
ghost use Rattle.descriptor.specs.Lent.{over};

mod table; // the table of IDs
mod rows; // the class of an ID
mod state; // what a walk keeps
mod lent; // what the walk of a string reads
mod decode; // one entry: its checks
mod walk; // the walk of the strings
mod reading; // one entry: what a call needs of it
mod search; // an entry by its number, and by a byte of its space
mod text; // the map program's text

use crate::decode::{byte_at, length_at};
use crate::lent::Walk;
use crate::reading::EntryAt;
use crate::rows::row_of;
use crate::state::{into_ro, start};
use crate::table::values_of;
use crate::text::{put_refused, put_strings};
use rules::{Answer, Field, Loaded, Passed, Refusal, State};

// The rows of the table that `entry_read` is lent. By these it says of an entry what the table says (`read-entry`
// of proofs/EntryReads).
pub use crate::table::{CLASSES, ROWS, Row, Side};

// Where an entry stands in a string and in a set: its start, and its offset (the sum of all MemoryLengths before it).
#[derive(Clone, Copy)]
pub struct Mark {
    pub at: usize,
    pub sum: usize,
}

// Where the entry of a number stands, in which string, and its length there.
#[derive(Clone, Copy)]
pub struct Located {
    pub ro: bool,
    pub mark: Mark,
    pub length: usize,
}

// Where the fields of an entry lie: its offset in a set, its parts, and the bits of a lane.
#[derive(Clone, Copy)]
pub struct Fields {
    pub offset: usize,
    pub parts: usize,
    pub width: usize,
}

// What a call is lent of a module: the count of its applications, and both descriptor strings.
#[derive(Clone, Copy)]
pub struct Descriptors<'a> {
    pub count: usize,
    pub rw: &'a [u8],
    pub ro: &'a [u8],
}

impl<'a> Descriptors<'a> {
    // 9: the count is 1 to 15 and no string is over 120.
    pub fn limits(self) -> bool
        ensures { result ≡ over sized self.entry }
    {
        (1..=15).contains(&self.count) & ((self.rw.len() <= 120) & (self.ro.len() <= 120))
    }

    // 9, of descriptors that don't pass `limits`.
    #[tactic(auto, unfolding(crate::specs::Limits::limits_of))]
    pub fn check_limits(self) -> Result<(), Refusal>
        ensures { result ≡ over limits_of self.entry }
    {
        if self.limits() {
            return Ok(());
        }
        Err(Refusal::Plain(9))
    }

    // The load: the check of both strings, their entry counts and lengths. 9 is looked at before the descriptors are handed on in memory.
    pub fn load(self) -> Result<Loaded, Refusal>
        ensures { result ≡ over load_of self.entry }
    {
        self.check_limits()?;
        self.walked()
    }

    // The same by the look at 9 that `resume` has, for `locate`: with one more, `locate` isn't inlined in `find`, and the entry call and those that name
    // a field take a tenth longer on a small map.
    fn walked(self) -> Result<Loaded, Refusal>
        ensures { result ≡ over load_of self.entry }
    {
        self.resume(start())
    }

    // The load taken up again: given what it kept after an entry, and the bytes not yet read, it answers what the load answers. In the RW string
    // these are its rest and the RO string; in the RO string, whose rest they are, `rw` isn't read.
    pub fn resume(self, st: State) -> Result<Loaded, Refusal>
        ensures { result ≡ resume_of self.entry.count st self.entry.rw.now self.entry.ro.now }
    {
        self.check_limits()?;
        let last = self.walk(false).to_ro(st)?;
        match self.walk(true).scan(false, last.counts) {
            Err(stop) => Err(stop.after(last.before)),
            Ok(end) => Ok(Loaded {
                rw_count: last.before,
                ro_count: end.entries,
                staged_length: last.staged,
                active_length: end.sum,
            }),
        }
    }

    // One entry of a load that is made entry by entry, so that it can be broken off after it; none at the end.
    pub fn pass(self, st: State) -> Result<Option<Passed>, Refusal>
        ensures { result ≡ pass_of self.entry.count st self.entry.rw.now self.entry.ro.now }
    {
        self.check_limits()?;
        if st.ro {
            return self.walk(true).pass(st);
        }
        if 0 < self.rw.len() {
            return self.walk(false).pass(st);
        }
        self.walk(true).pass(into_ro(st))
    }

    // Where the entry of a number stands, or the refusal of the entry call.
    pub fn locate(self, entry: usize) -> Result<Located, Refusal>
        ensures { result ≡ over located_of self.entry entry }
    {
        let loaded = self.walked()?;
        if entry < loaded.rw_count {
            return Ok(self.walk(false).locate(0, entry));
        }
        let n = entry - loaded.rw_count;
        if n < loaded.ro_count {
            return Ok(self.walk(true).locate(loaded.staged_length, n));
        }
        Err(Refusal::Plain(10))
    }

    // The call beside the entry call: yes, or the refusal ("An accepted call without another answer says yes").
    pub fn entry_check(self, entry: usize) -> Result<Answer, Refusal>
        ensures { result ≡ over entry_answer self.entry entry }
    {
        self.locate(entry)?;
        Ok(Answer::Yes)
    }

    // The entry call: the entry's own bytes, a part of the string that it stands in; refused, an empty part.
    pub fn entry_bytes(self, entry: usize) -> &'a [u8]
        ensures { result.now ≡ over entry_bytes self.entry entry }
    {
        let Ok(found) = self.locate(entry) else {
            return &self.rw[..0];
        };
        let end = found.mark.at + found.length;
        &self.string(found.ro)[found.mark.at..end]
    }

    // One of the two strings.
    fn string(self, ro: bool) -> &'a [u8]
        ensures { result.now ≡ cond ro self.entry.ro.now self.entry.rw.now }
    {
        if ro { self.ro } else { self.rw }
    }

    // What a walk of it reads, past 9.
    fn walk(self, in_ro: bool) -> Walk<'a>
        requires { over sized self ≡ true }
        ensures { (result.a ≡ mask_bytes self.entry.count) × (result.s.now ≡ cond in_ro self.entry.ro.now self.entry.rw.now) × (result.in_ro ≡ in_ro) }
    {
        Walk {
            a: mask_bytes(self.count),
            s: self.string(in_ro),
            in_ro,
        }
    }

    // The field of an entry, part and lane, for a call that is told whether its bank is too short: 9, 8, then 16 and 1 to 7, and 10 for an
    // entry, part or lane that doesn't exist. The flag stays: what it says of a short bank is promised to any caller
    // (a rule of the project).
    pub fn find(self, short: bool, field: Field) -> Result<Named, Refusal>
        ensures { result ≡ over found_of self.entry short field.entry field.part field.lane }
    {
        if short {
            self.check_limits()?;
            return Err(Refusal::Plain(8));
        }
        let place = self.locate(field.entry)?;
        self.walk(place.ro).named(place.mark).holding(field)
    }

    // The first entry whose space covers a byte, if there is one, once the load has accepted the strings: those of the RW string are looked at,
    // then those of the RO string, and none past it. A branch for each string: where its spaces begin and which numbers its entries have differ too.
    pub fn cover(self, offset: usize) -> Result<Option<Covered>, Refusal>
        ensures { result ≡ over cover_of self.entry offset }
    {
        let loaded = self.load()?;
        let (rw, ro) = (self.walk(false), self.walk(true));
        let mut looked = 0;
        if let Some(first) = rw.look(0, loaded.rw_count, offset, &mut looked) {
            return Ok(Some(rw.covered(first, 0, looked)));
        }
        let before = loaded.staged_length;
        if let Some(last) = ro.look(before, loaded.ro_count, offset, &mut looked) {
            return Ok(Some(ro.covered(last, loaded.rw_count, looked)));
        }
        Ok(None)
    }
}

// From one number to another, both included.
#[derive(Clone, Copy)]
pub struct Range {
    pub low: i64,
    pub high: i64,
}

impl Range {
    pub fn has(self, value: i64) -> bool
        ensures { result ≡ in_range self value }
    {
        (self.low..=self.high).contains(&value)
    }
}

// The numbers of 4 bits, which codes are.
const FOUR_BITS: Range = Range { low: 0, high: 15 };

// The values that the fields of an entry accept: every number within a range, or the codes of 0 to 15 that have a bit.
#[derive(Clone, Copy)]
pub enum Accepted {
    Within(Range),
    Codes(usize),
}

impl Accepted {
    #[tactic(auto, unfolding(crate::specs::Find::accepted_in))]
    pub fn has(self, value: i64) -> bool
        ensures { result ≡ accepted_in self value }
    {
        match self {
            Accepted::Within(range) => range.has(value),
            Accepted::Codes(codes) => FOUR_BITS.has(value) && (codes >> value) & 1 == 1,
        }
    }

    // The range of all of them.
    fn range(self) -> Range
        ensures { result ≡ range_of self }
    {
        match self {
            Accepted::Within(range) => range,
            Accepted::Codes(_) => FOUR_BITS,
        }
    }
}

// What a call needs of the entry that it names: whether it stands in the RO string, its ID, where its fields lie, whether their
// numbers are signed, the values that they accept, and the step of a 12h entry.
#[derive(Clone, Copy)]
pub struct Named {
    pub ro: bool,
    pub id: usize,
    pub fields: Fields,
    pub signed: bool,
    pub accepted: Accepted,
    pub step: Option<usize>,
}

impl Named {
    // 10: a part that the entry doesn't have, or a lane that doesn't exist.
    #[tactic(auto, unfolding(crate::specs::Find::held_in))]
    fn holding(self, field: Field) -> Result<Named, Refusal>
        ensures { result ≡ held_in self field.part field.lane }
    {
        if (field.part < self.fields.parts) & (1..=8).contains(&field.lane) {
            return Ok(self);
        }
        Err(Refusal::Plain(10))
    }

    // 10: a set that doesn't exist; 11: a staged set, of an RO entry, whose fields are in the active set alone. (By reference: handed on by value the
    // struct is copied by wide moves behind narrow stores, 3 to 5 ns a call; `spaced` has another number for the same test.)
    #[tactic(auto, unfolding(crate::specs::Find::shown_in))]
    pub fn shown(&self, set: usize) -> Result<(), Refusal>
        ensures { result ≡ shown_in self.now set }
    {
        if !(set < 3) {
            return Err(Refusal::Plain(10));
        }
        if (set < 2) & self.ro {
            return Err(Refusal::Plain(11));
        }
        Ok(())
    }
}

// What apply needs of an RW entry: its application mask, and what a call needs of it; and where the next one stands.
#[derive(Clone, Copy)]
pub struct Read {
    pub mask: u16,
    pub named: Named,
    pub next: Mark,
}

impl<'a> Descriptors<'a> {
    // The RW entry at a mark, whether or not the strings load. It is promised of any rows lent and of any place, and can't fail, here and in the
    // next two (a rule of the project: what a public function promised it still does), so the rows stay lent and what there is none of is 0.
    pub fn entry_read(self, classes: &[u8; 19], rows: &[Row; 11], mark: Mark) -> Read
        ensures { result ≡ read_by classes.now rows.now self.entry.count self.entry.rw.now mark.at mark.sum }
    {
        let a = mask_bytes(self.count);
        if (mark.at <= 120) & (mark.sum <= 256) {
            if mark.at + 2 + a < self.rw.len() {
                return self.rw_entry(mark.at).read(classes, rows, mark.sum);
            }
        }
        Read {
            mask: 0,
            named: Named {
                ro: false,
                id: 0,
                fields: Fields {
                    offset: 0,
                    parts: 0,
                    width: 0,
                },
                signed: false,
                accepted: Accepted::Within(Range { low: 0, high: 0 }),
                step: None,
            },
            next: mark,
        }
    }

    // The accepted patterns of the RW entry at a place, a bit for each, if its fields have 2 or 4 bits a lane; none of another, and past
    // byte 120.
    pub fn patterns_read(self, start: usize) -> usize
        ensures { result ≡ patterns_by self.entry.count self.entry.rw.now start }
    {
        if start <= 120 {
            return self.rw_entry(start).patterns();
        }
        0
    }

    // Min and Max of the RW entry at a place; of an entry without, the lowest and the highest number of the table; 0 past byte 120.
    pub fn range_read(self, start: usize) -> Range
        ensures { result ≡ range_by self.entry.count self.entry.rw.now start }
    {
        if start <= 120 {
            let values = values_of(byte_at(self.rw, start));
            return self.rw_entry(start).accepted(values).range();
        }
        Range { low: 0, high: 0 }
    }

    // The Length of the RW entry at a place, or 1 or 2, the checks of it; 1 past the string's end. No other check is made, 9 not either.
    pub fn length_read(self, start: usize) -> Result<usize, Refusal>
        ensures { result ≡ length_by self.entry.count self.entry.rw.now start }
    {
        if self.rw.len() <= start {
            return Err(Refusal::Plain(1));
        }
        let row = row_of(self.rw[start]);
        // No `map_err`, here and where a `Stop` becomes a refusal: it promises of a closure, and the proof is longer than these two arms.
        match length_at(row, mask_bytes(self.count), self.rw, start) {
            Ok(length) => Ok(length),
            Err(number) => Err(Refusal::Plain(number)),
        }
    }

    // The RW entry that starts at a place.
    fn rw_entry(self, start: usize) -> EntryAt<'a>
        requires { start ≤ 120 }
        ensures { (result.a ≡ mask_bytes self.entry.count) × (result.s.now ≡ self.entry.rw.now) × (result.at ≡ start) }
    {
        EntryAt {
            a: mask_bytes(self.count),
            s: self.rw,
            at: start,
        }
    }
}

// Whether an entry's Min and Max say what its fields accept: of these alone apply judges the range, which `range_read` answers of any. By ID, and
// not by `values_of`: as a `match` of its own apply took 3 to 8 hundredths longer.
pub fn has_range(id: usize) -> bool
    ensures { result ≡ is_limited (row_of id).values }
{
    (id == 0x09) | (id == 0x0A) | (id == 0x0D)
}

// The entry whose space covers a byte of a set: its number, where its fields lie, the number of entries looked at, and the string that
// it stands in.
#[derive(Clone, Copy)]
pub struct Covered {
    pub number: usize,
    pub fields: Fields,
    pub looked: usize,
    pub ro: bool,
}

impl Covered {
    // 10: a set that doesn't exist, or a staged set, where an RO entry has no space.
    #[tactic(auto, unfolding(crate::specs::Cover::spaced_in))]
    pub fn spaced(&self, set: usize) -> Result<(), Refusal>
        ensures { result ≡ spaced_in self.now set }
    {
        if (set < 3) & !((set < 2) & self.ro) {
            return Ok(());
        }
        Err(Refusal::Plain(10))
    }
}

// What the map program prints for an input, written from the beginning of a buffer that is lent (no heap), with its length.
pub fn map_text(input: &[u8], out: &mut [u8; 1024]) -> usize
    ensures size { result ≡ length (map_output input.now) }
    ensures room { result ≤ 1024 }
    ensures text { out.new ≡ map_output input.now ++ drop (length (map_output input.now)) out.old }
{
    let rw_end = 2 + byte_at(input, 1) as usize;
    let ro_size = byte_at(input, rw_end) as usize;
    let ro_start = rw_end + 1;
    if input.len() != ro_start + ro_size {
        return put_refused(out, Refusal::Plain(9));
    }
    let count = input[0] as usize;
    let desc = Descriptors {
        count,
        rw: &input[2..rw_end],
        ro: &input[ro_start..],
    };
    put_strings(desc, out)
}

// The least Length of an ID, A included.
pub fn least_length(count: usize, id: u8) -> usize
    ensures { result ≡ (row_of id).least + mask_bytes count }
{
    (row_of(id).least as usize) + mask_bytes(count)
}

// A, the bytes of an application mask.
#[tactic(auto, unfolding(rules::specs::Descriptor::mask_bytes))]
pub fn mask_bytes(count: usize) -> usize
    ensures { (result ≡ mask_bytes count) × (1 ≤ result) × (result ≤ 2) }
{
    if count <= 8 {
        return 1;
    }
    2
}
