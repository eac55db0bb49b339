// What every call on a bank checks first: 9, 8, then the entries.
ghost use Rattle.control_set.specs.Gate.{SizeChecked, Gated, FieldGated, ByteGated};
ghost use Rattle.descriptor.specs.Lent.{over};

use descriptor::{Descriptors, Named};
use rules::{BANK_SIZE, Field, Loaded, Refusal};

// 9, then 8.
fn check_size(desc: Descriptors, size: usize) -> Result<(), Refusal>
    ensures { over SizeChecked desc.entry size result }
{
    desc.check_limits()?;
    if size < BANK_SIZE {
        return Err(Refusal::Plain(8));
    }
    Ok(())
}

// 9, 8 and the checks of the entries: what the load answers, or the refusal.
pub fn admit(desc: Descriptors, size: usize) -> Result<Loaded, Refusal>
    ensures { over Gated desc.entry size result }
{
    check_size(desc, size)?;
    desc.load()
}

// The same for a call that names a field, with what it needs of the entry; 10 for an entry, part or lane that doesn't exist.
pub fn admit_field(desc: Descriptors, size: usize, field: Field) -> Result<Named, Refusal>
    ensures { over FieldGated desc.entry size field.entry field.part field.lane result }
{
    desc.find(size < BANK_SIZE, field)
}

// The same for a call that names a byte: 9, 8, the entries' checks, then a set or offset that doesn't exist; else whether the byte has fields.
pub fn admit_byte(
    desc: Descriptors,
    size: usize,
    set: usize,
    offset: usize,
) -> Result<bool, Refusal>
    ensures { over ByteGated desc.entry size set offset result }
{
    check_size(desc, size)?;
    let covered = desc.cover(offset)?;
    let Some(by) = covered else {
        return Err(Refusal::Plain(10));
    };
    by.spaced(set)?;
    Ok(offset - by.fields.offset < by.fields.parts * by.fields.width)
}
