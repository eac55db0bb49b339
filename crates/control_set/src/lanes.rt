// Masks, and those of lanes: bit i − 1 for lane i.
ghost use Rattle.std.specs.Prelude.{◌≡◌, cond, ◌-◌, ◌≤◌, ◌<◌};
ghost use Rattle.rules.specs.Numbers.{bit_of};
ghost use Rattle.rules.specs.Refuse.{chooses};
ghost use Rattle.rules.specs.Bank.{merge};
ghost use Rattle.control_set.specs.Lanes.{AtLowest, SpreadsAll};

use crate::field::merged;
use rules::Refusal;

// A lane, by its number.
#[derive(Clone, Copy)]
pub struct Lane {
    pub number: usize,
    ghost real: { (1 ≤ number) × (number ≤ 8) },
}

// Whether a mask has a bit. Of 64 at most: so it stays private, and `Accepted::has` of descriptor has a test of its own.
pub fn has_bit(mask: usize, bit: usize) -> bool
    requires { bit < 64 }
    ensures { result ≡ bit_of mask bit }
{
    (mask >> bit) & 1 == 1
}

pub fn has_lane(lanes: u8, lane: Lane) -> bool
    ensures { result ≡ chooses lanes lane.number }
{
    has_bit(lanes as usize, lane.number - 1)
}

// The mask with a lane in it or not.
pub fn with_lane(lanes: u8, lane: Lane, has: bool) -> u8
    ensures { result ≡ merge lanes (lane.number - 1) 1 (cond has 1 0) }
{
    merged(lanes, lane.number - 1, 1, has as u8)
}

// The mask of the lanes that a test is true of.
pub fn lanes_where<F: Fn(Lane) -> bool>(test: F) -> u8
    requires { (lane : _) → F.pre test lane }
    ensures { (lane : _) → F.post test lane (chooses result lane.number) }
{
    let mut lanes = 0;
    for number in 1..=8 {
        let lane = Lane { number };
        lanes = with_lane(lanes, lane, test(lane));
    }
    lanes
}

// Refused with a number at the lowest lane of a mask, if it has one.
pub fn at_lowest(number: usize, lanes: u8) -> Result<(), Refusal>
    ensures { AtLowest number (chooses lanes) result }
{
    if lanes == 0 {
        return Ok(());
    }
    Err(Refusal::AtLane(number, lanes.trailing_zeros() as usize + 1))
}

// All bits of the fields of four lanes: of 2, of 4 and of 8 bits a lane.
struct Spread(u8, u16, u32);

// By the mask of the four.
static SPREADS: [Spread; 16] = [
    Spread(0x00, 0x0000, 0x00000000),
    Spread(0x03, 0x000F, 0x000000FF),
    Spread(0x0C, 0x00F0, 0x0000FF00),
    Spread(0x0F, 0x00FF, 0x0000FFFF),
    Spread(0x30, 0x0F00, 0x00FF0000),
    Spread(0x33, 0x0F0F, 0x00FF00FF),
    Spread(0x3C, 0x0FF0, 0x00FFFF00),
    Spread(0x3F, 0x0FFF, 0x00FFFFFF),
    Spread(0xC0, 0xF000, 0xFF000000),
    Spread(0xC3, 0xF00F, 0xFF0000FF),
    Spread(0xCC, 0xF0F0, 0xFF00FF00),
    Spread(0xCF, 0xF0FF, 0xFF00FFFF),
    Spread(0xF0, 0xFF00, 0xFFFF0000),
    Spread(0xF3, 0xFF0F, 0xFFFF00FF),
    Spread(0xFC, 0xFFF0, 0xFFFFFF00),
    Spread(0xFF, 0xFFFF, 0xFFFFFFFF),
];

// All bits of the fields of a part in the lanes of a mask, lane 1 lowest, by width: five cells have none, so that an entry's width is the
// place of its bits; a struct of the four would need a match on the width for each entry, and a fact of each of its arms.
pub fn spread_all(lanes: u8, spreads: &mut [usize; 9])
    ensures { SpreadsAll lanes spreads.new }
{
    let Spread(low2, low4, low8) = SPREADS[(lanes & 15) as usize];
    let Spread(high2, high4, high8) = SPREADS[(lanes >> 4) as usize];
    spreads[1] = lanes as usize;
    spreads[2] = (low2 as usize) + ((high2 as usize) << 8);
    spreads[4] = (low4 as usize) + ((high4 as usize) << 16);
    spreads[8] = (low8 as usize) + ((high8 as usize) << 32);
}
