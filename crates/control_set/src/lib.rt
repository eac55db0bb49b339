// Setting: the calls on a lent bank of two staged sets and the active set. Descriptors and bank stand apart in all of them: the one is copied, the
// other lent to be changed, so a struct of both would be made once a call.
#![tactic(auto)]

ghost use Rattle.std.specs.Prelude.{◌≡◌, ◌≤◌, length};
ghost use Rattle.rules.specs.declared.Call.{Call};
ghost use Rattle.rules.specs.Layout.{bank_size};
ghost use Rattle.rules.specs.Bank.{fresh_bank, fresh_call, bank_call};
ghost use Rattle.rules.specs.Beside.{weight_call};
ghost use Rattle.control_set.specs.Store.{Storable, stored_by, store_of};
ghost use Rattle.descriptor.specs.Lent.{over};

mod bank; // a field of a bank
mod chosen; // what apply is asked
mod copy; // apply's copy
mod field; // a field of a byte
mod gate; // 9, 8 and the checks of the entries
mod judge; // 14 in an entry
mod lanes; // masks of lanes
mod number; // numbers and bits
mod place; // a field's bits in its set
mod plan; // 13, 14 and the bits that are copied
mod served; // what 13 lets pass

use crate::bank::{app_sel_at, byte_of, read_field, write_field};
use crate::chosen::Chosen;
use crate::copy::copy_planned;
use crate::gate::{admit, admit_byte, admit_field};
use crate::lanes::Lane;
use crate::number::{bits_of, number_of, weight_of};
use crate::place::Place;
use crate::plan::{Plan, plan_all};
use descriptor::{Descriptors, Named};
use rules::{Answer, BANK_SIZE, Call, Field, Loaded, Refusal};

// Clears a bank.
fn clear(bank: &mut [u8])
    requires { bank_size ≤ length bank.old }
    ensures { bank.new ≡ fresh_bank bank.old }
{
    bank[..BANK_SIZE].fill(0);
}

// fresh: clears the bank and answers both entry counts and both lengths.
pub fn fresh(desc: Descriptors, bank: &mut [u8]) -> Result<Loaded, Refusal>
    ensures answer { result ≡ (over fresh_call desc.entry bank.old).0 }
    ensures after { bank.new ≡ (over fresh_call desc.entry bank.old).1 }
{
    let loaded = admit(desc, bank.len())?;
    clear(bank);
    Ok(loaded)
}

// select: stores the AppSel of a lane of a staged set. In each call 10 and 11 of a set stand with what else it refuses by these numbers, a lane or
// an RO entry: a function of the set alone would make two tests of one.
pub fn select(
    desc: Descriptors,
    bank: &mut [u8],
    set: usize,
    lane: usize,
    app: usize,
) -> Result<Answer, Refusal>
    ensures answer { result ≡ (over bank_call desc.entry (Call.Select set lane app) bank.old).0 }
    ensures after { bank.new ≡ (over bank_call desc.entry (Call.Select set lane app) bank.old).1 }
{
    admit(desc, bank.len())?;
    if !((set < 3) & (1..=8).contains(&lane)) {
        return Err(Refusal::Plain(10));
    }
    if set == 2 {
        return Err(Refusal::Plain(11));
    }
    if desc.count < app {
        return Err(Refusal::Plain(12));
    }
    bank[app_sel_at(set, Lane { number: lane })] = app as u8;
    Ok(Answer::Yes)
}

// A call that sets a number, past 10 and 11: 12 for a value that the field doesn't accept, else its bits go into the field.
fn store(bank: &mut [u8], set: usize, f: Named, field: Field, value: i64) -> Result<Answer, Refusal>
    requires { Storable bank.old set f field.part field.lane value }
    ensures answer { result ≡ stored_by f value }
    ensures after { bank.new ≡ store_of bank.old set f field.part field.lane value }
{
    if !f.accepted.has(value) {
        return Err(Refusal::Plain(12));
    }
    let lane = Lane { number: field.lane };
    let place = Place::of(set, &f.fields, field.part, lane);
    write_field(bank, place, bits_of(value));
    Ok(Answer::Yes)
}

// write: stores an accepted value in a field of a staged set.
pub fn write(
    desc: Descriptors,
    bank: &mut [u8],
    set: usize,
    field: Field,
    value: i64,
) -> Result<Answer, Refusal>
    ensures answer { result ≡ (over bank_call desc.entry (Call.Write set field value) bank.old).0 }
    ensures after { bank.new ≡ (over bank_call desc.entry (Call.Write set field value) bank.old).1 }
{
    let f = admit_field(desc, bank.len(), field)?;
    if !(set < 3) {
        return Err(Refusal::Plain(10));
    }
    if (set == 2) | f.ro {
        return Err(Refusal::Plain(11));
    }
    store(bank, set, f, field, value)
}

// read: answers the number of a field.
pub fn read(desc: Descriptors, bank: &[u8], set: usize, field: Field) -> Result<Answer, Refusal>
    ensures answer { result ≡ (over bank_call desc.entry (Call.Read set field) bank.now).0 }
{
    let f = admit_field(desc, bank.len(), field)?;
    f.shown(set)?;
    let lane = Lane { number: field.lane };
    let place = Place::of(set, &f.fields, field.part, lane);
    let bits = read_field(bank, place);
    Ok(Answer::Number(number_of(f.signed, bits)))
}

// byte write: each field in a byte of a staged set takes its own bits; gaps become 0.
pub fn byte_write(
    desc: Descriptors,
    bank: &mut [u8],
    set: usize,
    offset: usize,
    value: u8,
) -> Result<Answer, Refusal>
    ensures answer { result ≡ (over bank_call desc.entry (Call.ByteWrite set offset value) bank.old).0 }
    ensures after { bank.new ≡ (over bank_call desc.entry (Call.ByteWrite set offset value) bank.old).1 }
{
    let fields = admit_byte(desc, bank.len(), set, offset)?;
    if set == 2 {
        return Err(Refusal::Plain(11));
    }
    bank[byte_of(set, offset)] = if fields { value } else { 0 };
    Ok(Answer::Yes)
}

// byte read: the byte of a set where it has fields; gaps show 0.
pub fn byte_read(
    desc: Descriptors,
    bank: &[u8],
    set: usize,
    offset: usize,
) -> Result<Answer, Refusal>
    ensures { result ≡ (over bank_call desc.entry (Call.ByteRead set offset) bank.now).0 }
{
    let shown = admit_byte(desc, bank.len(), set, offset)?;
    if shown {
        return Ok(Answer::Number(i64::from(bank[byte_of(set, offset)])));
    }
    Ok(Answer::Number(0))
}

// publish: stores an accepted value in a field of an RO entry.
pub fn publish(
    desc: Descriptors,
    bank: &mut [u8],
    field: Field,
    value: i64,
) -> Result<Answer, Refusal>
    ensures answer { result ≡ (over bank_call desc.entry (Call.Publish field value) bank.old).0 }
    ensures after { bank.new ≡ (over bank_call desc.entry (Call.Publish field value) bank.old).1 }
{
    let f = admit_field(desc, bank.len(), field)?;
    if !f.ro {
        return Err(Refusal::Plain(11));
    }
    store(bank, 2, f, field, value)
}

// apply: copies the fields of the chosen lanes from a staged set to the active set, all or nothing.
pub fn apply(desc: Descriptors, bank: &mut [u8], set: usize, lanes: u8) -> Result<Answer, Refusal>
    ensures answer { result ≡ (over bank_call desc.entry (Call.Apply set lanes) bank.old).0 }
    ensures after { bank.new ≡ (over bank_call desc.entry (Call.Apply set lanes) bank.old).1 }
{
    let loaded = admit(desc, bank.len())?;
    if 2 < set {
        return Err(Refusal::Plain(10));
    }
    if set == 2 {
        return Err(Refusal::Plain(11));
    }
    let chosen = Chosen {
        desc,
        set,
        lanes,
        bank: &*bank,
    };
    // Cleared before the AppSels are read: the compiler would keep these in memory across that.
    let mut plan: Plan = [0; 264];
    let served = chosen.served()?;
    plan_all(served, loaded.rw_count, &mut plan)?;
    copy_planned(set, loaded.staged_length, &plan, bank);
    Ok(Answer::Yes)
}

// Any of the seven calls.
pub fn perform(desc: Descriptors, bank: &mut [u8], call: Call) -> Result<Answer, Refusal>
    ensures answer { result ≡ (over bank_call desc.entry call bank.old).0 }
    ensures after { bank.new ≡ (over bank_call desc.entry call bank.old).1 }
{
    match call {
        Call::Select { set, lane, app } => select(desc, bank, set, lane, app),
        Call::Write { set, field, value } => write(desc, bank, set, field, value),
        Call::Read { set, field } => read(desc, bank, set, field),
        Call::ByteWrite { set, offset, byte } => byte_write(desc, bank, set, offset, byte),
        Call::ByteRead { set, offset } => byte_read(desc, bank, set, offset),
        Call::Publish { field, value } => publish(desc, bank, field, value),
        Call::Apply { set, lanes } => apply(desc, bank, set, lanes),
    }
}

// weight: the active number of a lane of a 12h entry, in thousandths.
pub fn weight(desc: Descriptors, bank: &[u8], entry: usize, lane: usize) -> Result<Answer, Refusal>
    ensures { result ≡ over weight_call desc.entry bank.now entry lane }
{
    let f = admit_field(
        desc,
        bank.len(),
        Field {
            entry,
            part: 0,
            lane,
        },
    )?;
    // Of what `find` answers, 12h alone has a step.
    let Some(step) = f.step else {
        return Err(Refusal::Plain(10));
    };
    let place = Place::of(2, &f.fields, 0, Lane { number: lane });
    let bits = read_field(bank, place);
    Ok(Answer::Number(weight_of(step, bits.cast_signed())))
}
