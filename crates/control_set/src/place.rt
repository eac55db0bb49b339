// Where the fields of an entry lie in a set, and where one of them does in a bank.
ghost use Rattle.std.specs.Prelude.{◌≡◌, ◌+◌, ◌<◌};
ghost use Rattle.rules.specs.Place.{Width, lane_bit};
ghost use Rattle.rules.specs.Layout.{bank_size, HasBytes, set_start};
ghost use Rattle.control_set.specs.Field.{Room, byte_in};
ghost use Rattle.control_set.specs.Placed.{Placed};

use crate::bank::byte_of;
use crate::lanes::Lane;
use descriptor::Fields;

// The fields of an entry that has some.
#[derive(Clone, Copy)]
pub struct PlacedFields {
    pub fields: Fields,
    ghost placed: { Placed fields.offset fields.parts fields.width },
}

// The byte of a field, its lowest bit there, and how many bits it has.
#[derive(Clone, Copy)]
pub struct Place {
    pub at: usize,
    pub bit: usize,
    pub width: usize,
    ghost inside: { at < bank_size },
    ghost room: { Room bit width },
}

impl Place {
    // Of a lane's field in a part of an entry, in a set.
    pub fn of(set: usize, f: &Fields, part: usize, lane: Lane) -> Place
        requires { HasBytes set × Width f.now.width × (byte_in f.now.offset part f.now.width lane.number < 256) }
        ensures { (result.at ≡ set_start set + byte_in f.now.offset part f.now.width lane.number) × (result.bit ≡ lane_bit f.now.width lane.number) × (result.width ≡ f.now.width) }
    {
        let width = f.width;
        let first = (lane.number - 1) * width;
        Place {
            at: byte_of(set, f.offset + part * width + first / 8),
            bit: first % 8,
            width,
        }
    }
}
