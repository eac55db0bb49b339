// Placing: where a field lies, and whose a bit is.
#![tactic(auto)]

mod address;

ghost use Rattle.std.specs.Prelude.{◌≡◌, ◌≤◌, ◌<◌, Ok};
ghost use Rattle.rules.specs.Beside.{placed_in, place_of, owner_call, owner_at_call};
ghost use Rattle.placement.specs.Owner.{field_in, Near, owned_from};
ghost use Rattle.descriptor.specs.Lent.{over};

use crate::address::{Address, address_of, offset_of};
use descriptor::{Covered, Descriptors};
use rules::{Field, Owned, Placed, Refusal};

// A place in a set: its offset, the address of this offset (0 and 0 where it has none: see `Placed`), and its lowest bit.
fn placed_in(set: usize, offset: usize, bit: usize) -> Placed
    ensures { Ok result ≡ placed_in set offset bit }
{
    let at = address_of(set, offset).unwrap_or(Address { page: 0, byte: 0 });
    Placed {
        offset,
        page: at.page,
        byte: at.byte,
        bit,
    }
}

// Place: a field's offset in a set, its page and byte by Table 4-1, and its lowest bit there; refused as read is. The two numbers are those of
// `Place::of` of control_set, which is private as every function is that not all arguments suit.
pub fn place(desc: Descriptors, set: usize, field: Field) -> Result<Placed, Refusal>
    ensures { result ≡ over place_of desc.entry set field.entry field.part field.lane }
{
    // Place takes no bank: none is too short.
    let f = desc.find(false, field)?;
    f.shown(set)?;
    let first = (field.lane - 1) * f.fields.width;
    let offset = f.fields.offset + field.part * f.fields.width + first / 8;
    Ok(placed_in(set, offset, first % 8))
}

// The field that has a bit of the space of the entry that covers it, the byte counted from the entry's offset: the lanes of all parts in a row,
// W bits each, 8 to a part. With the number of entries looked at.
fn field_in(c: Covered, byte: usize, bit: usize) -> Owned
    requires { (c.fields.parts < 16) × (c.fields.width < 16) × (byte ≤ 256) × (bit < 8) }
    ensures { Ok result ≡ field_in c.number c.fields.parts c.fields.width c.looked byte bit }
{
    if !(byte < c.fields.parts * c.fields.width) {
        return Owned {
            field: None,
            looked: c.looked,
        };
    }
    let before = (byte * 8 + bit) / c.fields.width;
    Owned {
        field: Some(Field {
            entry: c.number,
            part: before / 8,
            lane: before % 8 + 1,
        }),
        looked: c.looked,
    }
}

// A bit's owner, from the entry that covers its byte, if one does.
fn owned(covered: Option<Covered>, set: usize, offset: usize, bit: usize) -> Result<Owned, Refusal>
    requires { Near (Ok covered) offset }
    ensures { result ≡ owned_from (Ok covered) set offset bit }
{
    let Some(c) = covered else {
        return Err(Refusal::Plain(10));
    };
    c.spaced(set)?;
    if !(bit < 8) {
        return Err(Refusal::Plain(10));
    }
    Ok(field_in(c, offset - c.fields.offset, bit))
}

// Owner: the field that a bit of a set belongs to, none in a gap, and the number of entries looked at.
pub fn owner(desc: Descriptors, set: usize, offset: usize, bit: usize) -> Result<Owned, Refusal>
    ensures { result ≡ over owner_call desc.entry set offset bit }
{
    let covered = desc.cover(offset)?;
    owned(covered, set, offset, bit)
}

// Owner by an address, the page and byte that Table 4-1 gives an offset of the set. A call of `owner` here would keep `owner` from being
// inlined in its export.
pub fn owner_at(
    desc: Descriptors,
    set: usize,
    page: usize,
    byte: usize,
    bit: usize,
) -> Result<Owned, Refusal>
    ensures { result ≡ over owner_at_call desc.entry set page byte bit }
{
    let Some(offset) = offset_of(set, Address { page, byte }) else {
        desc.load()?;
        return Err(Refusal::Plain(10));
    };
    let covered = desc.cover(offset)?;
    owned(covered, set, offset, bit)
}
