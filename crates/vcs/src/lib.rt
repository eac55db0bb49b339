// The calls with flat answers, for C: `vcs_c` exports each (include/vcs.h).
// Each takes the count, both strings and the numbers of a field one by one, as C has them; the crates below take them as structs.
#![tactic(auto)]

ghost use Rattle.std.specs.Prelude.{◌≡◌};
ghost use Rattle.rules.specs.Load.{load_of, resume_of, pass_of};
ghost use Rattle.rules.specs.Words.{the_field};
ghost use Rattle.rules.specs.declared.Call.{Call};
ghost use Rattle.rules.specs.Bank.{fresh_call, bank_call};
ghost use Rattle.rules.specs.Beside.{place_of, owner_call, owner_at_call, weight_call};
ghost use Rattle.rules.specs.Reader.{take_of, moved_to};
ghost use Rattle.descriptor.specs.Locate.{located_of};
ghost use Rattle.vcs.specs.Flat.{flat_loaded, state_of, flat_passed, flat_entry, flat_placed, flat_owned, flat_answer, flat_taken, call_of};

mod flat; // flat answers

pub use crate::flat::{
    FlatAnswer, FlatCall, FlatEntry, FlatLoaded, FlatOwned, FlatPassed, FlatPlaced, FlatState,
    FlatTaken, Reason,
};
use control_set::{
    apply, byte_read, byte_write, fresh, perform, publish, read, select, weight, write,
};
use descriptor::Descriptors;
use placement::{owner, owner_at, place};
use reader::take_from;
use rules::{Call, Field, State};

// The load: both entry counts, staged and active length.
pub fn vcs_load(count: usize, rw: &[u8], ro: &[u8]) -> FlatLoaded
    ensures { result ≡ flat_loaded (load_of count rw.now ro.now) }
{
    FlatLoaded::from(Descriptors { count, rw, ro }.load())
}

// One entry of a load that is made entry by entry: its length and the state after it, or the end (1).
pub fn vcs_pass(count: usize, rw: &[u8], ro: &[u8], state: FlatState) -> FlatPassed
    ensures { result ≡ flat_passed (pass_of count (state_of state) rw.now ro.now) }
{
    FlatPassed::from(Descriptors { count, rw, ro }.pass(State::from(state)))
}

// The load taken up again after an entry.
pub fn vcs_resume(count: usize, rw: &[u8], ro: &[u8], state: FlatState) -> FlatLoaded
    ensures { result ≡ flat_loaded (resume_of count (state_of state) rw.now ro.now) }
{
    FlatLoaded::from(Descriptors { count, rw, ro }.resume(State::from(state)))
}

// The entry call: which string (0 RW, 1 RO), start and length there, and the offset in a set.
pub fn vcs_entry(count: usize, rw: &[u8], ro: &[u8], entry: usize) -> FlatEntry
    ensures { result ≡ flat_entry (located_of count rw.now ro.now entry) }
{
    FlatEntry::from(Descriptors { count, rw, ro }.locate(entry))
}

// Place: a field's offset in a set, its page and byte, and its lowest bit there.
pub fn vcs_place(
    count: usize,
    rw: &[u8],
    ro: &[u8],
    set: usize,
    entry: usize,
    part: usize,
    lane: usize,
) -> FlatPlaced
    ensures { result ≡ flat_placed (place_of count rw.now ro.now set entry part lane) }
{
    FlatPlaced::from(place(
        Descriptors { count, rw, ro },
        set,
        Field { entry, part, lane },
    ))
}

// Owner: the field that a bit of a set belongs to, or gap (1), and the number of entries looked at.
pub fn vcs_owner(
    count: usize,
    rw: &[u8],
    ro: &[u8],
    set: usize,
    offset: usize,
    bit: usize,
) -> FlatOwned
    ensures { result ≡ flat_owned (owner_call count rw.now ro.now set offset bit) }
{
    FlatOwned::from(owner(Descriptors { count, rw, ro }, set, offset, bit))
}

// Owner by an address: the same of a bit of a byte of a page.
pub fn vcs_owner_at(
    count: usize,
    rw: &[u8],
    ro: &[u8],
    set: usize,
    page: usize,
    byte: usize,
    bit: usize,
) -> FlatOwned
    ensures { result ≡ flat_owned (owner_at_call count rw.now ro.now set page byte bit) }
{
    FlatOwned::from(owner_at(Descriptors { count, rw, ro }, set, page, byte, bit))
}

// Fresh: the bank cleared, and both entry counts, staged and active length.
pub fn vcs_fresh(count: usize, rw: &[u8], ro: &[u8], bank: &mut [u8]) -> FlatLoaded
    ensures answer { result ≡ flat_loaded (fresh_call count rw.now ro.now bank.old).0 }
    ensures after { bank.new ≡ (fresh_call count rw.now ro.now bank.old).1 }
{
    FlatLoaded::from(fresh(Descriptors { count, rw, ro }, bank))
}

// Select: the AppSel of a lane of a staged set is stored.
pub fn vcs_select(
    count: usize,
    rw: &[u8],
    ro: &[u8],
    bank: &mut [u8],
    set: usize,
    lane: usize,
    app: usize,
) -> FlatAnswer
    ensures answer { result ≡ flat_answer (bank_call count rw.now ro.now (Call.Select set lane app) bank.old).0 }
    ensures after { bank.new ≡ (bank_call count rw.now ro.now (Call.Select set lane app) bank.old).1 }
{
    FlatAnswer::from(select(Descriptors { count, rw, ro }, bank, set, lane, app))
}

// Write: an accepted value is stored in a field of a staged set.
pub fn vcs_write(
    count: usize,
    rw: &[u8],
    ro: &[u8],
    bank: &mut [u8],
    set: usize,
    entry: usize,
    part: usize,
    lane: usize,
    value: i64,
) -> FlatAnswer
    ensures answer { result ≡ flat_answer (bank_call count rw.now ro.now (Call.Write set (the_field entry part lane) value) bank.old).0 }
    ensures after { bank.new ≡ (bank_call count rw.now ro.now (Call.Write set (the_field entry part lane) value) bank.old).1 }
{
    FlatAnswer::from(write(
        Descriptors { count, rw, ro },
        bank,
        set,
        Field { entry, part, lane },
        value,
    ))
}

// Read: the number of a field.
pub fn vcs_read(
    count: usize,
    rw: &[u8],
    ro: &[u8],
    bank: &[u8],
    set: usize,
    entry: usize,
    part: usize,
    lane: usize,
) -> FlatAnswer
    ensures answer { result ≡ flat_answer (bank_call count rw.now ro.now (Call.Read set (the_field entry part lane)) bank.now).0 }
{
    FlatAnswer::from(read(
        Descriptors { count, rw, ro },
        bank,
        set,
        Field { entry, part, lane },
    ))
}

// Byte write: each field in a byte of a staged set takes its own bits, and its gaps become 0.
pub fn vcs_byte_write(
    count: usize,
    rw: &[u8],
    ro: &[u8],
    bank: &mut [u8],
    set: usize,
    offset: usize,
    value: u8,
) -> FlatAnswer
    ensures answer { result ≡ flat_answer (bank_call count rw.now ro.now (Call.ByteWrite set offset value) bank.old).0 }
    ensures after { bank.new ≡ (bank_call count rw.now ro.now (Call.ByteWrite set offset value) bank.old).1 }
{
    FlatAnswer::from(byte_write(Descriptors { count, rw, ro }, bank, set, offset, value))
}

// Byte read: a byte of a set, its gaps as 0.
pub fn vcs_byte_read(
    count: usize,
    rw: &[u8],
    ro: &[u8],
    bank: &[u8],
    set: usize,
    offset: usize,
) -> FlatAnswer
    ensures { result ≡ flat_answer (bank_call count rw.now ro.now (Call.ByteRead set offset) bank.now).0 }
{
    FlatAnswer::from(byte_read(Descriptors { count, rw, ro }, bank, set, offset))
}

// Publish: an accepted value is stored in a field of an RO entry.
pub fn vcs_publish(
    count: usize,
    rw: &[u8],
    ro: &[u8],
    bank: &mut [u8],
    entry: usize,
    part: usize,
    lane: usize,
    value: i64,
) -> FlatAnswer
    ensures answer { result ≡ flat_answer (bank_call count rw.now ro.now (Call.Publish (the_field entry part lane) value) bank.old).0 }
    ensures after { bank.new ≡ (bank_call count rw.now ro.now (Call.Publish (the_field entry part lane) value) bank.old).1 }
{
    FlatAnswer::from(publish(
        Descriptors { count, rw, ro },
        bank,
        Field { entry, part, lane },
        value,
    ))
}

// Apply: the fields of the chosen lanes are copied from a staged set to the active set, all or nothing.
pub fn vcs_apply(
    count: usize,
    rw: &[u8],
    ro: &[u8],
    bank: &mut [u8],
    set: usize,
    lanes: u8,
) -> FlatAnswer
    ensures answer { result ≡ flat_answer (bank_call count rw.now ro.now (Call.Apply set lanes) bank.old).0 }
    ensures after { bank.new ≡ (bank_call count rw.now ro.now (Call.Apply set lanes) bank.old).1 }
{
    FlatAnswer::from(apply(Descriptors { count, rw, ro }, bank, set, lanes))
}

// Perform: any of the seven calls, by its kind.
pub fn vcs_perform(
    count: usize,
    rw: &[u8],
    ro: &[u8],
    bank: &mut [u8],
    call: FlatCall,
) -> FlatAnswer
    ensures answer { result ≡ flat_answer (bank_call count rw.now ro.now (call_of call) bank.old).0 }
    ensures after { bank.new ≡ (bank_call count rw.now ro.now (call_of call) bank.old).1 }
{
    FlatAnswer::from(perform(Descriptors { count, rw, ro }, bank, Call::from(call)))
}

// Weight: the active number of a lane of a 12h entry, in thousandths.
pub fn vcs_weight(
    count: usize,
    rw: &[u8],
    ro: &[u8],
    bank: &[u8],
    entry: usize,
    lane: usize,
) -> FlatAnswer
    ensures { result ≡ flat_answer (weight_call count rw.now ro.now bank.now entry lane) }
{
    FlatAnswer::from(weight(Descriptors { count, rw, ro }, bank, entry, lane))
}

// What a reader takes at a position: the next entry's start and length, or the end (1), and the position after it.
pub fn vcs_take(count: usize, string: &[u8], position: usize) -> FlatTaken
    ensures { result ≡ flat_taken (take_of count string.now position) (moved_to (take_of count string.now position) position) }
{
    FlatTaken::from(take_from(count, string, position))
}
