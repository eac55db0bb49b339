// 14: the lanes in which an entry holds a value not accepted.
ghost use Rattle.std.specs.Prelude.{◌≡◌, Bool, ℕ, ◌^◌, ◌<◌};
ghost use Rattle.rules.specs.Descriptor.{mask_bytes, entry_at};
ghost use Rattle.control_set.specs.Field.{Spot, bits_at};
ghost use Rattle.control_set.specs.Lanes.{Lanes};
ghost use Rattle.control_set.specs.Plan.{Stands, passing, in_range, refused_in};

use crate::bank::read_field;
use crate::chosen::Chosen;
use crate::lanes::{Lane, has_bit, lanes_where};
use crate::place::{Place, PlacedFields};
use descriptor::{Fields, Range, has_range};

// Whether a signed byte lies in a range.
fn in_range(range: Range, bits: u8) -> bool
    ensures { result ≡ in_range range bits }
{
    range.has(i64::from(bits.cast_signed()))
}

// The lanes in which the bits of a field pass a test, in any part of some fields of this width, which is constant in each instance: as a
// parameter at run time it made apply a quarter slower (366 ns for 285, at 16 entries).
fn passing_lanes<const WIDTH: usize, F: Fn(u8) -> bool>(
    chosen: Chosen,
    f: PlacedFields,
    test: F,
) -> u8
    requires width_value { WIDTH ≡ f.fields.width }
    requires callable { (bits : ℕ) → bits < 2 ^ WIDTH → F.pre test bits }
    ensures { (t : ℕ → Bool) → ((bits : ℕ) (v : Bool) → bits < 2 ^ WIDTH → F.post test bits v → v ≡ t bits) → Lanes 9 (passing chosen.entry.set f.fields chosen.entry.bank.now t) result }
{
    let Chosen { set, bank, .. } = chosen;
    let f = f.fields;
    let mut lanes = 0;
    for part in 0..f.parts {
        let passes = |lane: Lane| -> bool
            requires { Spot bank.now set f.offset part WIDTH lane.number × F.pre test (bits_at bank.now set f.offset part WIDTH lane.number) }
            ensures { F.post test (bits_at bank.entry.now set f.offset part WIDTH lane.number) result }
        {
            let fields = Fields { width: WIDTH, ..f };
            test(read_field(bank, Place::of(set, &fields, part, lane)))
        };
        lanes = lanes | lanes_where(passes);
    }
    lanes
}

// The refused lanes of the entry at a place, which has this ID and these fields. One without patterns and without a range accepts every
// number.
pub fn refused_lanes(chosen: Chosen, start: usize, id: usize, f: PlacedFields) -> u8
    requires { Stands chosen.desc.count chosen.desc.rw.now start id f.fields }
    ensures { Lanes 9 (refused_in chosen.entry.set (entry_at (mask_bytes chosen.entry.desc.count) chosen.entry.desc.rw.now start f.fields.offset) chosen.entry.bank.now) result }
{
    let width = f.fields.width;
    if (width == 2) | (width == 4) {
        let patterns = chosen.desc.patterns_read(start);
        let unlisted = |bits: u8| !has_bit(patterns, bits as usize);
        if width == 2 {
            return passing_lanes::<2, _>(chosen, f, unlisted);
        }
        return passing_lanes::<4, _>(chosen, f, unlisted);
    }
    if has_range(id) {
        let range = chosen.desc.range_read(start);
        return passing_lanes::<8, _>(chosen, f, |bits| !in_range(range, bits));
    }
    0
}
