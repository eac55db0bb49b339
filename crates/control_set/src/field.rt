// A field of W bits, shifted out of a register byte and merged into one with a mask.
ghost use Rattle.std.specs.Prelude.{◌≡◌, ◌-◌, ◌^◌, ◌≤◌, ◌<◌};
ghost use Rattle.rules.specs.Numbers.{cut};
ghost use Rattle.rules.specs.Bank.{merge};
ghost use Rattle.control_set.specs.Field.{Room};

// A mask of the `width` lowest bits.
pub fn ones(width: usize) -> u8
    requires { (0 < width) × (width ≤ 8) }
    ensures { result ≡ 2 ^ width - 1 }
{
    255 >> (8 - width)
}

// The `width` bits of a byte from a bit on.
pub fn get(byte: u8, bit: usize, width: usize) -> u8
    requires { Room bit width }
    ensures { result ≡ cut byte bit width }
{
    (byte >> bit) & ones(width)
}

// The byte with a value in these bits; the others keep their content.
pub fn merged(byte: u8, bit: usize, width: usize, value: u8) -> u8
    requires room { Room bit width }
    requires value_bound { value < 2 ^ width }
    ensures { result ≡ merge byte bit width value }
{
    (byte & !(ones(width) << bit)) | (value << bit)
}
