// The map program's text, written into the buffer that is lent.
ghost use Rattle.std.specs.Prelude.{◌≡◌, ◌∷◌, [], ◌+◌, ◌*◌, ◌≤◌, ◌<◌, length};
ghost use Rattle.std.specs.List.{All};
ghost use Rattle.rules.specs.Words.{number_of};
ghost use Rattle.rules.specs.Descriptor.{entry_at, entry_limit};
ghost use Rattle.rules.specs.Load.{entry_number, load_of, entries_of};
ghost use Rattle.rules.specs.Demands.{Accepted};
ghost use Rattle.rules.specs.MapProgram.{decimal, line, end_line, refused_line, map_text};
ghost use Rattle.descriptor.specs.Lent.{over};
ghost use Rattle.descriptor.specs.Text.{Adds, Printed, entry_line, Printable, Listing};

use crate::Descriptors;
use crate::lent::Walk;
use crate::state::{Count, entry_number, into_ro, start};
use rules::{Refusal, State};

// The text so far: the first bytes of the buffer that is lent. What follows them is as it was. It isn't written by `write!`, which
// promises its text of an Ok alone, and printing can't fail; nor has it a model, since a list would not say whose buffer holds it. Each method asks
// for the room of what it adds, and for numbers below 1000, which is no fact of the text: a type for these would be made at each call of one.
#[derive(Drop)]
struct Text<'a> {
    out: &'a mut [u8; 1024],
    length: usize,
}

impl Text<'_> {
    // One byte.
    fn push(&mut self, byte: u8)
        requires { self.old.length + 1 ≤ 1024 }
        ensures { Adds 1 (byte ∷ []) self.old self.new }
    {
        self.out[self.length] = byte;
        self.length += 1;
    }

    // A constant text.
    fn push_text(&mut self, text: &[u8])
        requires { self.old.length + length text.now ≤ 1024 }
        ensures { Adds (length text.now) text.now self.old self.new }
    {
        for byte in text {
            self.push(*byte);
        }
    }

    // One digit.
    fn digit(&mut self, digit: usize)
        requires { (digit < 10) × (self.old.length + 1 ≤ 1024) }
        ensures { Adds 1 ((48 + digit) ∷ []) self.old self.new }
    {
        self.push(b'0' + digit as u8)
    }

    // A number of up to three digits in decimal.
    fn decimal(&mut self, n: usize)
        requires { (n < 1000) × (self.old.length + 3 ≤ 1024) }
        ensures { Adds 3 (decimal n) self.old self.new }
    {
        if n >= 100 {
            self.digit(n / 100);
        }
        if n >= 10 {
            self.digit(n / 10 % 10);
        }
        self.digit(n % 10)
    }

    // A space, then a number.
    fn spaced(&mut self, n: usize)
        requires { (n < 1000) × (self.old.length + 4 ≤ 1024) }
        ensures { Adds 4 (32 ∷ decimal n) self.old self.new }
    {
        self.push(b' ');
        self.decimal(n)
    }

    // Numbers, a space before each, and the end of their line.
    fn line(&mut self, numbers: &[usize])
        requires small { All (λ n. n < 1000) numbers.now }
        requires room { self.old.length + 4 * length numbers.now + 1 ≤ 1024 }
        ensures { Adds (4 * length numbers.now + 1) (line numbers.now) self.old self.new }
    {
        for n in numbers {
            self.spaced(*n);
        }
        self.push(b'\n')
    }

    // The line of the entry at a place of a string.
    fn entry(&mut self, walk: Walk, from: usize, st: State)
        requires printable { Printable walk.a walk.s.now from st }
        requires room { self.old.length + 16 ≤ 1024 }
        ensures { Adds 16 (entry_line (entry_number st) (entry_at walk.entry.a walk.entry.s.now from st.sum)) self.old self.new }
    {
        let id = walk.s[from] as usize;
        let memory = walk.s[from + 2 + walk.a] as usize;
        self.decimal(entry_number(st));
        self.line(&[id, st.sum as usize, memory])
    }

    // A line for each entry of a string, up to its end or an entry that fails a check; the state there. A walk beside `scan`, which
    // has to stay as small as it is to be inlined (see there).
    fn entries(&mut self, walk: Walk, begin: State) -> State
        requires before_le_entry_limit { (begin.before ≤ entry_limit) × (begin.sum ≤ 256) }
        requires room { self.old.length + 4 * length walk.s.now ≤ 1024 }
        requires in_ro { walk.in_ro ≡ begin.ro }
        ensures { Listing walk.entry.a walk.entry.s.now begin self.old self.new result }
    {
        let mut from = 0;
        let mut st = begin;
        while from < walk.s.len() {
            let Ok(past) = walk.decode(from, Count::from(st)) else {
                return st;
            };
            self.entry(walk, from, st);
            from = past.at; // behind the entry, by its Length
            st = past.counts.within(st);
        }
        st
    }

    // "end", staged and active length.
    #[tactic(auto, unfolding(rules::specs::MapProgram::end_line))]
    fn end(&mut self, staged: usize, active: usize)
        requires { (staged < 1000) × (active < 1000) × (self.old.length + 12 ≤ 1024) }
        ensures { Adds 12 (end_line staged active) self.old self.new }
    {
        self.push_text(b"end");
        self.line(&[staged, active])
    }
}

// "refused" and the number.
pub fn put_refused(out: &mut [u8; 1024], r: Refusal) -> usize
    requires { number_of r < 1000 }
    ensures { Printed (refused_line r) out.old result out.new }
{
    let mut text = Text { out, length: 0 };
    text.push_text(b"refused");
    text.line(&[r.number()]);
    text.length
}

// The map of strings that load: the heading, a line for each entry, RW first, and the end.
fn put_map(desc: Descriptors, out: &mut [u8; 1024]) -> usize
    requires { over Accepted desc }
    ensures { Printed (map_text (over load_of desc.entry) (over entries_of desc.entry)) out.old result out.new }
{
    let mut text = Text { out, length: 0 };
    text.push_text(b"entry id offset length\n");
    let m = text.entries(desc.walk(false), start());
    let e = text.entries(desc.walk(true), into_ro(m));
    text.end(m.sum as usize, e.sum as usize);
    text.length
}

// The map of both strings, or their refusal.
pub fn put_strings(desc: Descriptors, out: &mut [u8; 1024]) -> usize
    ensures { Printed (map_text (over load_of desc.entry) (over entries_of desc.entry)) out.old result out.new }
{
    match desc.load() {
        Err(r) => put_refused(out, r),
        Ok(_) => put_map(desc, out),
    }
}
