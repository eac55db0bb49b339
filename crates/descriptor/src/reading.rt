// The reading of an entry: what a call needs of the one that it names, and what apply needs of an RW entry. The walks read less.
ghost use Rattle.std.specs.Prelude.{◌≡◌, ◌+◌, ◌*◌, ◌≤◌};
ghost use Rattle.rules.specs.Descriptor.{byte_at, high_first, entry_at, entry_limit};
ghost use Rattle.rules.specs.Accept.{signed_byte};
ghost use Rattle.descriptor.specs.Wide.{accepted_at, step_at};
ghost use Rattle.descriptor.specs.Find.{fields_of, named_of};
ghost use Rattle.descriptor.specs.Cover.{covered_at};
ghost use Rattle.descriptor.specs.Ready.{Readable};
ghost use Rattle.descriptor.specs.Marks.{OnEntry};
ghost use Rattle.descriptor.specs.Reading.{row_by, spaced_by, shaped, read_of, patterns_of};

use crate::decode::byte_at;
use crate::lent::Walk;
use crate::rows::{class_in, row_of};
use crate::search::{Hit, past};
use crate::table::{ROWS, Row, Values, values_of};
use crate::{Accepted, Covered, Fields, Mark, Named, Range, Read};

// The numbers of a signed byte.
const SIGNED_BYTE: Range = Range {
    low: -128,
    high: 127,
};

// An entry of a string by its start, with A, the bytes of an application mask. A place is that of one of its bytes, behind A.
#[derive(Clone, Copy)]
pub struct EntryAt<'a> {
    pub a: usize,
    pub s: &'a [u8],
    pub at: usize,
    ghost readable: { Readable a at },
}

impl EntryAt<'_> {
    fn id(self) -> u8
        ensures { result ≡ byte_at self.entry.s.now self.entry.at }
    {
        byte_at(self.s, self.at)
    }

    // The byte at a place, 0 past the string's end.
    fn byte(self, place: u8) -> u8
        ensures { result ≡ byte_at self.entry.s.now (self.entry.at + self.entry.a + place) }
    {
        byte_at(self.s, self.at + self.a + place as usize)
    }

    // The byte at a place as a signed number.
    fn signed(self, place: u8) -> i64
        ensures { result ≡ signed_byte (byte_at self.entry.s.now (self.entry.at + self.entry.a + place)) }
    {
        i64::from(self.byte(place).cast_signed())
    }

    // What its fields accept, by what they hold.
    #[tactic(auto, unfolding(crate::specs::Wide::accepted_at))]
    pub fn accepted(self, values: Values) -> Accepted
        ensures { result ≡ accepted_at values self.entry.s.now (self.entry.at + self.entry.a) }
    {
        match values {
            Values::UpTo(high) => Accepted::Within(Range { low: 0, high }),
            Values::SignedByte => Accepted::Within(SIGNED_BYTE),
            Values::Codes(mask, listed) => {
                Accepted::Codes(listed & pair_at(self.s, self.at + self.a + mask as usize) as usize)
            }
            Values::MinToMax(min, max) => Accepted::Within(Range {
                low: self.signed(min),
                high: self.signed(max),
            }),
            Values::Stepped(_) => Accepted::Within(SIGNED_BYTE),
        }
    }

    // The step of a 12h entry, the only one that a call asks for.
    #[tactic(auto, unfolding(crate::specs::Wide::step_at))]
    fn step(self, values: Values) -> Option<usize>
        ensures { result ≡ step_at values self.entry.s.now (self.entry.at + self.entry.a) }
    {
        if let Values::Stepped(step) = values {
            return Some(self.byte(step) as usize);
        }
        None
    }

    // What a call needs of it, by its ID and the row of its fields.
    fn named(self, row: Row, in_ro: bool, sum: usize) -> Named
        ensures { result ≡ shaped row (named_of in_ro (entry_at self.entry.a self.entry.s.now self.entry.at sum)) }
    {
        let id = self.id();
        let values = values_of(id);
        Named {
            ro: in_ro,
            id: id as usize,
            fields: fields_by(row, sum),
            signed: values.are_signed(),
            accepted: self.accepted(values),
            step: self.step(values),
        }
    }

    // Its application mask.
    fn mask(self) -> u16
        ensures { result ≡ high_first self.entry.s.now (self.entry.at + 2) self.entry.a }
    {
        let at = self.at + 2;
        if self.a == 1 {
            return byte_at(self.s, at) as u16;
        }
        pair_at(self.s, at)
    }

    // What apply needs of an RW entry, by any rows lent.
    pub fn read(self, classes: &[u8; 19], rows: &[Row; 11], sum: usize) -> Read
        requires { OnEntry self.a self.s.now (record { at = self.at; sum = sum }) }
        ensures { result ≡ read_of classes.now rows.now (entry_at self.entry.a self.entry.s.now self.entry.at sum) }
    {
        let row = row_in(classes, rows, self.id());
        let mark = Mark { at: self.at, sum };
        Read {
            mask: self.mask(),
            named: self.named(row, false, sum),
            next: past(self.a, self.s, mark),
        }
    }

    // The accepted patterns of fields of 2 or 4 bits a lane, a bit for each: 0 to 2, or the codes of the table that are in its mask; none of
    // other fields.
    pub fn patterns(self) -> usize
        ensures { result ≡ patterns_of (entry_at self.entry.a self.entry.s.now self.entry.at 0) }
    {
        let id = self.id();
        // Its numbers, the only ones of such fields without a mask.
        if id == 0x03 {
            return 0x0007;
        }
        match self.accepted(values_of(id)) {
            Accepted::Codes(codes) => codes,
            Accepted::Within(_) => 0,
        }
    }
}

impl Walk<'_> {
    // Where the fields of the entry at a mark lie.
    pub fn fields(self, mark: Mark) -> Fields
        ensures { result ≡ fields_of (entry_at self.entry.a self.entry.s.now mark.at mark.sum) }
    {
        fields_by(row_of(byte_at(self.s, mark.at)), mark.sum)
    }

    // The entry that a search found, with so many entries before the string, as the one whose space covers a byte.
    pub fn covered(self, hit: Hit, before: usize, looked: usize) -> Covered
        requires { before + hit.number ≤ 2 * entry_limit }
        ensures { result ≡ covered_at self.entry.in_ro self.entry.a self.entry.s.now hit before looked }
    {
        Covered {
            number: before + hit.number,
            fields: self.fields(hit.mark),
            looked,
            ro: self.in_ro,
        }
    }

    // What a call needs of the entry at a mark, by the table's own rows.
    pub fn named(self, mark: Mark) -> Named
        requires { mark.at ≤ 120 }
        ensures { result ≡ named_of self.entry.in_ro (entry_at self.entry.a self.entry.s.now mark.at mark.sum) }
    {
        let entry = EntryAt {
            a: self.a,
            s: self.s,
            at: mark.at,
        };
        entry.named(row_of(entry.id()), self.in_ro, mark.sum)
    }
}

// Where the fields of an entry lie, by its row and its offset.
fn fields_by(row: Row, sum: usize) -> Fields
    ensures { result ≡ spaced_by row sum }
{
    Fields {
        offset: sum,
        parts: row.parts as usize,
        width: row.width as usize,
    }
}

// Two bytes of a string as one number, high byte first; a byte past the end is 0.
fn pair_at(s: &[u8], at: usize) -> u16
    requires { at ≤ 500 }
    ensures { result ≡ high_first s.now at 2 }
{
    u16::from_be_bytes([byte_at(s, at), byte_at(s, at + 1)])
}

// The row of an ID by any rows lent; a class behind them has that of 00h, which has no fields.
#[tactic(auto, unfolding(crate::specs::Reading::row_by))]
fn row_in(classes: &[u8; 19], rows: &[Row; 11], id: u8) -> Row
    ensures { result ≡ row_by classes.now rows.now id }
{
    let class = class_in(classes, id) as usize;
    rows.get(class).copied().unwrap_or(ROWS[0])
}
