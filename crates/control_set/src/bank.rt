// A byte, an AppSel and a field of a lent bank. That the bank is not too short is asked of each function that has it: as an array of `BANK_SIZE`
// bytes each call would first cut it from its slice, with an arm for an error that can't be (the gate refuses 8), and say that what is behind
// stays as it was.
ghost use Rattle.std.specs.Prelude.{◌≡◌, ◌+◌, ◌^◌, ◌≤◌, ◌<◌, length};
ghost use Rattle.rules.specs.Layout.{bank_size, HasBytes, set_start, app_sel_at};
ghost use Rattle.control_set.specs.Field.{bits_in, with_bits_in};

use crate::field::{get, merged};
use crate::lanes::Lane;
use crate::place::Place;
use rules::{app_sel_start, set_start};

// Where a byte of a set stands in a bank. A set is a number behind the gate too: a type of those that have bytes would be made once a call.
pub fn byte_of(set: usize, offset: usize) -> usize
    requires { HasBytes set × (offset < 256) }
    ensures { (result ≡ set_start set + offset) × (result < bank_size) }
{
    set_start(set) + offset
}

// Where the AppSel of a lane of a staged set stands.
pub fn app_sel_at(set: usize, lane: Lane) -> usize
    requires { set < 2 }
    ensures { (result ≡ app_sel_at set lane.number) × (result < bank_size) }
{
    app_sel_start(set) + (lane.number - 1)
}

// The bits of a field.
pub fn read_field(bank: &[u8], place: Place) -> u8
    requires { bank_size ≤ length bank.now }
    ensures { result ≡ bits_in bank.now place.at place.bit place.width }
{
    get(bank[place.at], place.bit, place.width)
}

// Other bits into a field; all others keep their content.
pub fn write_field(bank: &mut [u8], place: Place, value: u8)
    requires whole { bank_size ≤ length bank.old }
    requires value_bound { value < 2 ^ place.width }
    ensures { bank.new ≡ with_bits_in bank.old place.at place.bit place.width value }
{
    bank[place.at] = merged(bank[place.at], place.bit, place.width, value);
}
