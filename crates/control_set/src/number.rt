// The number that a field's bits stand for, the bits that stand for a number, and a number's weight.
ghost use Rattle.std.specs.Prelude.{◌≡◌, pos};
ghost use Rattle.rules.specs.Accept.{to_bits, thousandths, weight_of};
ghost use Rattle.control_set.specs.Field.{InBits};
ghost use Rattle.control_set.specs.Values.{number_by};

// The number that a field's bits stand for. Only fields of 8 bits hold signed numbers.
pub fn number_of(signed: bool, bits: u8) -> i64
    ensures { result ≡ number_by signed bits }
{
    if signed {
        return i64::from(bits.cast_signed());
    }
    i64::from(bits)
}

// The bits that stand for a number. A negative one has those of a byte: only fields of 8 bits hold it.
pub fn bits_of(value: i64) -> u8
    requires { InBits 8 value }
    ensures { result ≡ to_bits 8 value }
{
    value.rem_euclid(256) as u8
}

// What a step is worth, in thousandths. A step is its code, its only name in document 01.
fn scale(step: usize) -> i64
    ensures { result ≡ pos (thousandths step) }
{
    match step {
        0 => 10,
        1 => 20,
        2 => 25,
        _ => 40,
    }
}

// The weight of a 12h field's number, in thousandths.
pub fn weight_of(step: usize, value: i8) -> i64
    ensures { result ≡ weight_of step value }
{
    i64::from(value) * scale(step)
}
