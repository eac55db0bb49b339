// One entry of a walk: its checks, 16 and 1 to 7, once for every walk.
ghost use Rattle.std.specs.Prelude.{◌≡◌, ◌<◌, ◌+◌, ◌≤◌, length, ltb, IfSome};
ghost use Rattle.rules.specs.Descriptor.{byte_at, media_side, entry_at, content_checks, entry_limit, unlimited, decode_within, decode_at};
ghost use Rattle.descriptor.specs.Rows.{row_at};
ghost use Rattle.descriptor.specs.Decode.{length_at, decoding_of, StepIn, reserved_by, stands_by, late_by, Standing};
ghost use Rattle.descriptor.specs.Counts.{alone, Small};

use crate::lent::Walk;
use crate::rows::row_of;
use crate::state::Count;
use crate::table::{Row, Side};
use rules::ENTRY_LIMIT;

// That a place is one of the string is asked of each function here, since it is the loop's test: a struct of both would be made in each turn.
// Past an entry: the place and the counts after it. A refusal is the number of the check, which is its only name in document 01.
#[derive(Clone, Copy)]
pub struct Past {
    pub at: usize,
    pub counts: Count,
}

// A byte of a string, 0 past its end.
pub fn byte_at(s: &[u8], i: usize) -> u8
    ensures { result ≡ byte_at s.now i }
{
    s.get(i).copied().unwrap_or(0)
}

// 5: whether the step of an entry is a reserved code, by the row of its ID; the entry's start and A are given as one number.
#[tactic(auto, unfolding(crate::specs::Decode::reserved_by))]
fn reserved_step(row: Row, s: &[u8], from: usize) -> bool
    requires { IfSome row.last_step (StepIn row s.now from) }
    ensures { result ≡ reserved_by row s.now from }
{
    let Some(last) = row.last_step else {
        return false;
    };
    let step = s[from + (row.least as usize) - 1];
    !(last - 3..=last).contains(&step)
}

// Whether an entry with its PropertyFlags at a place is media side, where the least Length has them: a member of the row for
// that takes LLVM's cost of `scan` over its limit (255 of 250), and the load of a small map 52 ns for 33. (Here and in `late_host` the tests in one
// `&&` make the load take 88 ns, for 72, on 16 entries.)
fn media_at(least: u8, s: &[u8], at: usize) -> bool
    requires { 3 < least → at < length s.now }
    ensures { result ≡ media_side (ltb 3 least) (byte_at s.now at) }
{
    if 3 < least {
        return s[at] % 2 == 1;
    }
    false
}

// Whether an ID of a side may stand in a string.
fn stands(side: Side, in_ro: bool) -> bool
    ensures { result ≡ stands_by side in_ro }
{
    match side {
        Side::Rw => !in_ro,
        Side::Ro => in_ro,
        Side::Both => true,
    }
}

// 6: a host-side ID of 02h to 08h after a media-side table entry.
fn late_host(id: u8, media: bool, passed: bool) -> bool
    ensures { result ≡ late_by id media passed }
{
    if passed {
        return (0x02..=0x08).contains(&id) & !media;
    }
    false
}

// 1 and 2, for the entry at a place, with the row of its ID: its Length.
pub fn length_at(row: Row, a: usize, s: &[u8], at: usize) -> Result<usize, usize>
    requires { (row ≡ row_at (byte_at s.now at)) × (at < length s.now) × (a ≤ 2) }
    ensures { result ≡ length_at a s.now at }
{
    if at + 1 == s.len() {
        return Err(1);
    }
    let length = s[at + 1] as usize;
    if s.len() < at + length {
        return Err(1);
    }
    if length < (row.least as usize) + a {
        return Err(2);
    }
    Ok(length)
}

impl Walk<'_> {
    // 3 to 7, for the entry at a place, with the row of its ID and its Length; refused, the number of the first check that it fails.
    fn content(self, row: Row, length: usize, at: usize, c: Count) -> Result<Past, usize>
        requires standing { Standing row self.a self.s.now at c }
        requires length_is { length ≡ byte_at self.s.now (at + 1) }
        ensures { result ≡ decoding_of at (alone self.entry.in_ro c) (content_checks (alone self.entry.in_ro c) (entry_at self.entry.a self.entry.s.now at c.sum)) }
    {
        let s = self.s;
        if !stands(row.side, self.in_ro) {
            return Err(3);
        }
        let memory = s[at + 2 + self.a] as usize;
        if memory < (row.needed as usize) {
            return Err(4);
        }
        if reserved_step(row, s, at + self.a) {
            return Err(5);
        }
        let media = media_at(row.least, s, at + 3 + self.a);
        if late_host(s[at], media, c.media) {
            return Err(6);
        }
        if 256 < c.sum + memory {
            return Err(7);
        }
        Ok(Past {
            at: at + length,
            counts: c.next(memory, media),
        })
    }

    // The entry at a place, whatever stands before it: 1 and 2, then 3 to 7.
    fn checked(self, at: usize, c: Count) -> Result<Past, usize>
        requires at_bound { at < length self.s.now }
        requires small { Small c × (c.entries < entry_limit) }
        ensures { result ≡ decoding_of at (alone self.entry.in_ro c) (decode_within unlimited self.entry.a self.entry.s.now at (alone self.entry.in_ro c)) }
    {
        let row = row_of(self.s[at]);
        let length = length_at(row, self.a, self.s, at)?;
        self.content(row, length, at, c)
    }

    // The entry at a place: 16, then 1 to 7.
    pub fn decode(self, at: usize, c: Count) -> Result<Past, usize>
        requires { (at < length self.s.now) × Small c }
        ensures { result ≡ decoding_of at (alone self.entry.in_ro c) (decode_at self.entry.a self.entry.s.now at (alone self.entry.in_ro c)) }
    {
        if ENTRY_LIMIT <= c.entries {
            return Err(16);
        }
        self.checked(at, c)
    }
}
