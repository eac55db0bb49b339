// Document 01's table with the lines that 02 adds: constant rows, indexed by ID class, as document 01 asks; accepted values by ID. What they say
// of an ID is proved for every ID. A class is the place of its row and an ID a byte of a string, here and in all crates: document 01 has no
// other names for them, and a string may have any ID.
ghost use Rattle.std.specs.Prelude.{◌≡◌};
ghost use Rattle.descriptor.specs.Rows.{are_signed, values_of};

// The class of each ID below 13h; every ID from 13h on has the class of 00h.
pub static CLASSES: [u8; 19] = [0, 1, 2, 3, 4, 2, 2, 5, 4, 6, 6, 2, 2, 7, 4, 8, 8, 9, 10];

// The strings that an ID may stand in.
#[derive(Clone, Copy)]
pub enum Side {
    Rw,
    Ro,
    Both,
}

// What the table says of a class: least Length (+ A), bytes needed, the strings that its IDs may stand in, the last step code that is not reserved,
// the first being three below it, and what its fields are: parts, and bits a lane. PropertyFlags are read where the least Length has them; the
// step is its last byte.
#[derive(Clone, Copy)]
pub struct Row {
    pub least: u8,
    pub needed: u8,
    pub side: Side,
    pub last_step: Option<u8>,
    pub parts: u8,
    pub width: u8,
}

// A row on a line of its own, in this order.
macro_rules! row {
    ($least:expr, $needed:expr, $side:ident, $last_step:expr, $parts:expr, $width:expr) => {
        Row {
            least: $least,
            needed: $needed,
            side: Side::$side,
            last_step: $last_step,
            parts: $parts,
            width: $width,
        }
    };
}

pub static ROWS: [Row; 11] = [
    row!(3, 0, Both, None, 0, 0), // 00h reserves space; 13h to FFh are opaque
    row!(3, 0, Rw, None, 0, 0), // 01h: opaque
    row!(4, 1, Rw, None, 1, 1), // 02h, 05h, 06h, 0Bh, 0Ch
    row!(4, 2, Rw, None, 1, 2), // 03h
    row!(6, 4, Rw, None, 1, 4), // 04h, 08h, 0Eh
    row!(7, 8, Rw, None, 2, 4), // 07h
    row!(8, 8, Rw, Some(4), 1, 8), // 09h, 0Ah
    row!(8, 8, Rw, Some(3), 1, 8), // 0Dh
    row!(4, 8, Rw, None, 1, 8), // 0Fh, 10h
    row!(4, 16, Ro, None, 2, 8), // 11h
    row!(6, 8, Ro, Some(3), 1, 8), // 12h
];

// The codes that a code mask may allow, a bit for each, and the place of the mask in an entry (+ A): of 04h and 0Eh, 07h and 08h.
const CODES: usize = 0xFFFF; // 0 to 15

const CODES_07: usize = 0xF8FF; // 0 to 7, 11 to 15

const CODES_08: usize = 0x800F; // 0 to 3, 15

const MASK_AT: u8 = 4;

const MASK_AT_07: u8 = 5;

// What the fields of an ID hold. A place is that of a byte of an entry (+ A).
#[derive(Clone, Copy)]
pub enum Values {
    // Every number from 0 to a highest one.
    UpTo(i64),
    // Every number of a signed byte.
    SignedByte,
    // The codes that have a bit in a mask of two bytes at a place, of some that it may allow, a bit for each.
    Codes(u8, usize),
    // The numbers of a signed byte from Min to Max, each a byte at its place.
    MinToMax(u8, u8),
    // Every number of a signed byte, beside a step at a place.
    Stepped(u8),
}

impl Values {
    // Whether they are numbers in two's complement.
    pub fn are_signed(self) -> bool
        ensures { result ≡ are_signed self }
    {
        match self {
            Values::UpTo(_) => false,
            Values::SignedByte => true,
            Values::Codes(_, _) => false,
            Values::MinToMax(_, _) => true,
            Values::Stepped(_) => true,
        }
    }
}

// An arm for each ID: with alternatives in one arm the proof has joins to pass.
#[tactic(auto, unfolding(crate::specs::Rows::values_of, rules::specs::Parameter::row_of, crate::specs::Find::code_bits, rules::specs::Accept::within, rules::specs::Numbers::sum))]
pub fn values_of(id: u8) -> Values
    ensures { result ≡ values_of id }
{
    match id {
        0x02 => Values::UpTo(1),
        0x03 => Values::UpTo(2),
        0x04 => Values::Codes(MASK_AT, CODES),
        0x05 => Values::UpTo(1),
        0x06 => Values::UpTo(1),
        0x07 => Values::Codes(MASK_AT_07, CODES_07),
        0x08 => Values::Codes(MASK_AT, CODES_08),
        0x09 => Values::MinToMax(5, 6),
        0x0A => Values::MinToMax(5, 6),
        0x0B => Values::UpTo(1),
        0x0C => Values::UpTo(1),
        0x0D => Values::MinToMax(6, 5), // Max stands before Min
        0x0E => Values::Codes(MASK_AT, CODES),
        0x0F => Values::UpTo(255),
        0x10 => Values::UpTo(255),
        0x11 => Values::SignedByte,
        0x12 => Values::Stepped(5),
        _ => Values::UpTo(0),
    }
}
