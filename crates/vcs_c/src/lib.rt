// The C interface (include/vcs.h): an export of each function of `vcs`, with its clauses.
// No crate can use a static library, so each export is a function beside that of `vcs`, a library.
#![tactic(auto)]

ghost use Rattle.std.specs.Prelude.{◌≡◌};
ghost use Rattle.rules.specs.Load.{load_of, resume_of, pass_of};
ghost use Rattle.rules.specs.Words.{the_field};
ghost use Rattle.rules.specs.declared.Call.{Call};
ghost use Rattle.rules.specs.Bank.{fresh_call, bank_call};
ghost use Rattle.rules.specs.Beside.{place_of, owner_call, owner_at_call, weight_call};
ghost use Rattle.rules.specs.Reader.{take_of, moved_to};
ghost use Rattle.descriptor.specs.Locate.{located_of};
ghost use Rattle.vcs.specs.Flat.{flat_loaded, state_of, flat_passed, flat_entry, flat_placed, flat_owned, flat_answer, flat_taken, call_of};

use rules::Call;
use vcs::{
    FlatAnswer, FlatCall, FlatEntry, FlatLoaded, FlatOwned, FlatPassed, FlatPlaced, FlatState,
    FlatTaken,
};

#[unsafe(no_mangle)]
pub extern "C" fn vcs_load(count: usize, rw: &[u8], ro: &[u8]) -> FlatLoaded
    ensures { result ≡ flat_loaded (load_of count rw.now ro.now) }
{
    vcs::vcs_load(count, rw, ro)
}

#[unsafe(no_mangle)]
pub extern "C" fn vcs_pass(count: usize, rw: &[u8], ro: &[u8], state: FlatState) -> FlatPassed
    ensures { result ≡ flat_passed (pass_of count (state_of state) rw.now ro.now) }
{
    vcs::vcs_pass(count, rw, ro, state)
}

#[unsafe(no_mangle)]
pub extern "C" fn vcs_resume(count: usize, rw: &[u8], ro: &[u8], state: FlatState) -> FlatLoaded
    ensures { result ≡ flat_loaded (resume_of count (state_of state) rw.now ro.now) }
{
    vcs::vcs_resume(count, rw, ro, state)
}

#[unsafe(no_mangle)]
pub extern "C" fn vcs_entry(count: usize, rw: &[u8], ro: &[u8], entry: usize) -> FlatEntry
    ensures { result ≡ flat_entry (located_of count rw.now ro.now entry) }
{
    vcs::vcs_entry(count, rw, ro, entry)
}

#[unsafe(no_mangle)]
pub extern "C" fn vcs_place(
    count: usize,
    rw: &[u8],
    ro: &[u8],
    set: usize,
    entry: usize,
    part: usize,
    lane: usize,
) -> FlatPlaced
    ensures { result ≡ flat_placed (place_of count rw.now ro.now set entry part lane) }
{
    vcs::vcs_place(count, rw, ro, set, entry, part, lane)
}

#[unsafe(no_mangle)]
pub extern "C" fn vcs_owner(
    count: usize,
    rw: &[u8],
    ro: &[u8],
    set: usize,
    offset: usize,
    bit: usize,
) -> FlatOwned
    ensures { result ≡ flat_owned (owner_call count rw.now ro.now set offset bit) }
{
    vcs::vcs_owner(count, rw, ro, set, offset, bit)
}

#[unsafe(no_mangle)]
pub extern "C" fn vcs_owner_at(
    count: usize,
    rw: &[u8],
    ro: &[u8],
    set: usize,
    page: usize,
    byte: usize,
    bit: usize,
) -> FlatOwned
    ensures { result ≡ flat_owned (owner_at_call count rw.now ro.now set page byte bit) }
{
    vcs::vcs_owner_at(count, rw, ro, set, page, byte, bit)
}

#[unsafe(no_mangle)]
pub extern "C" fn vcs_fresh(count: usize, rw: &[u8], ro: &[u8], bank: &mut [u8]) -> FlatLoaded
    ensures answer { result ≡ flat_loaded (fresh_call count rw.now ro.now bank.old).0 }
    ensures after { bank.new ≡ (fresh_call count rw.now ro.now bank.old).1 }
{
    vcs::vcs_fresh(count, rw, ro, bank)
}

#[unsafe(no_mangle)]
pub extern "C" fn vcs_select(
    count: usize,
    rw: &[u8],
    ro: &[u8],
    bank: &mut [u8],
    set: usize,
    lane: usize,
    app: usize,
) -> FlatAnswer
    ensures answer { result ≡ flat_answer (bank_call count rw.now ro.now (Call.Select set lane app) bank.old).0 }
    ensures after { bank.new ≡ (bank_call count rw.now ro.now (Call.Select set lane app) bank.old).1 }
{
    vcs::vcs_select(count, rw, ro, bank, set, lane, app)
}

#[unsafe(no_mangle)]
pub extern "C" fn vcs_write(
    count: usize,
    rw: &[u8],
    ro: &[u8],
    bank: &mut [u8],
    set: usize,
    entry: usize,
    part: usize,
    lane: usize,
    value: i64,
) -> FlatAnswer
    ensures answer { result ≡ flat_answer (bank_call count rw.now ro.now (Call.Write set (the_field entry part lane) value) bank.old).0 }
    ensures after { bank.new ≡ (bank_call count rw.now ro.now (Call.Write set (the_field entry part lane) value) bank.old).1 }
{
    vcs::vcs_write(count, rw, ro, bank, set, entry, part, lane, value)
}

#[unsafe(no_mangle)]
pub extern "C" fn vcs_read(
    count: usize,
    rw: &[u8],
    ro: &[u8],
    bank: &[u8],
    set: usize,
    entry: usize,
    part: usize,
    lane: usize,
) -> FlatAnswer
    ensures answer { result ≡ flat_answer (bank_call count rw.now ro.now (Call.Read set (the_field entry part lane)) bank.now).0 }
{
    vcs::vcs_read(count, rw, ro, bank, set, entry, part, lane)
}

#[unsafe(no_mangle)]
pub extern "C" fn vcs_byte_write(
    count: usize,
    rw: &[u8],
    ro: &[u8],
    bank: &mut [u8],
    set: usize,
    offset: usize,
    value: u8,
) -> FlatAnswer
    ensures answer { result ≡ flat_answer (bank_call count rw.now ro.now (Call.ByteWrite set offset value) bank.old).0 }
    ensures after { bank.new ≡ (bank_call count rw.now ro.now (Call.ByteWrite set offset value) bank.old).1 }
{
    vcs::vcs_byte_write(count, rw, ro, bank, set, offset, value)
}

#[unsafe(no_mangle)]
pub extern "C" fn vcs_byte_read(
    count: usize,
    rw: &[u8],
    ro: &[u8],
    bank: &[u8],
    set: usize,
    offset: usize,
) -> FlatAnswer
    ensures { result ≡ flat_answer (bank_call count rw.now ro.now (Call.ByteRead set offset) bank.now).0 }
{
    vcs::vcs_byte_read(count, rw, ro, bank, set, offset)
}

#[unsafe(no_mangle)]
pub extern "C" fn vcs_publish(
    count: usize,
    rw: &[u8],
    ro: &[u8],
    bank: &mut [u8],
    entry: usize,
    part: usize,
    lane: usize,
    value: i64,
) -> FlatAnswer
    ensures answer { result ≡ flat_answer (bank_call count rw.now ro.now (Call.Publish (the_field entry part lane) value) bank.old).0 }
    ensures after { bank.new ≡ (bank_call count rw.now ro.now (Call.Publish (the_field entry part lane) value) bank.old).1 }
{
    vcs::vcs_publish(count, rw, ro, bank, entry, part, lane, value)
}

#[unsafe(no_mangle)]
pub extern "C" fn vcs_apply(
    count: usize,
    rw: &[u8],
    ro: &[u8],
    bank: &mut [u8],
    set: usize,
    lanes: u8,
) -> FlatAnswer
    ensures answer { result ≡ flat_answer (bank_call count rw.now ro.now (Call.Apply set lanes) bank.old).0 }
    ensures after { bank.new ≡ (bank_call count rw.now ro.now (Call.Apply set lanes) bank.old).1 }
{
    vcs::vcs_apply(count, rw, ro, bank, set, lanes)
}

#[unsafe(no_mangle)]
pub extern "C" fn vcs_perform(
    count: usize,
    rw: &[u8],
    ro: &[u8],
    bank: &mut [u8],
    call: FlatCall,
) -> FlatAnswer
    ensures answer { result ≡ flat_answer (bank_call count rw.now ro.now (call_of call) bank.old).0 }
    ensures after { bank.new ≡ (bank_call count rw.now ro.now (call_of call) bank.old).1 }
{
    vcs::vcs_perform(count, rw, ro, bank, call)
}

#[unsafe(no_mangle)]
pub extern "C" fn vcs_weight(
    count: usize,
    rw: &[u8],
    ro: &[u8],
    bank: &[u8],
    entry: usize,
    lane: usize,
) -> FlatAnswer
    ensures { result ≡ flat_answer (weight_call count rw.now ro.now bank.now entry lane) }
{
    vcs::vcs_weight(count, rw, ro, bank, entry, lane)
}

#[unsafe(no_mangle)]
pub extern "C" fn vcs_take(count: usize, string: &[u8], position: usize) -> FlatTaken
    ensures { result ≡ flat_taken (take_of count string.now position) (moved_to (take_of count string.now position) position) }
{
    vcs::vcs_take(count, string, position)
}
