// Table 4-1 of OIF-CMIS-VCS-01.1, "CMIS base Control Set Memory Map": a line for each set, and address and offset by it.
ghost use Rattle.std.specs.Prelude.{◌≡◌};
ghost use Rattle.placement.specs.Address.{row_as, line_is, is_inside, address_is, offset_is};

// Bytes of a page, from the first to the last.
#[derive(Clone, Copy)]
pub struct Bytes {
    pub page: usize,
    pub first: usize,
    pub last: usize,
}

#[derive(Clone, Copy)]
pub struct Line {
    pub main: Bytes,
    pub overflow: Bytes,
}

#[derive(Clone, Copy)]
pub struct Address {
    pub page: usize,
    pub byte: usize,
}

impl Bytes {
    // Whether an address is one of its bytes.
    fn has(self, at: Address) -> bool
        ensures { result ≡ is_inside self at.page at.byte }
    {
        at.page == self.page && (self.first..=self.last).contains(&at.byte)
    }
}

// The page, its first and last byte; the overflow page, its first and last byte: six numbers, as a line of the table has them. As literals with
// names each line of the table would take a dozen lines below.
fn row(
    page: usize,
    first: usize,
    last: usize,
    over: usize,
    over_first: usize,
    over_last: usize,
) -> Line
    ensures { result ≡ row_as page first last over over_first over_last }
{
    Line {
        main: Bytes { page, first, last },
        overflow: Bytes {
            page: over,
            first: over_first,
            last: over_last,
        },
    }
}

// The line of a set; a set that doesn't exist has that of the active set.
#[tactic(auto, unfolding(rules::specs::Address::line_of))]
fn line_of(set: usize) -> Line
    ensures { result ≡ line_is set }
{
    match set {
        0 => row(0x10, 153, 175, 0x18, 144, 199), // staged set 0
        1 => row(0x10, 188, 210, 0x18, 200, 255), // staged set 1
        _ => row(0x11, 214, 234, 0x19, 152, 207), // active set
    }
}

// The address of an offset of a set, where the table gives it one. The two pages, here and below, differ in what comes before them.
pub fn address_of(set: usize, offset: usize) -> Option<Address>
    ensures { result ≡ address_is set offset }
{
    let Line { main, overflow } = line_of(set);
    let bytes = main.last + 1 - main.first;
    if offset < bytes {
        return Some(Address {
            page: main.page,
            byte: main.first + offset,
        });
    }
    let past = offset - bytes;
    if past < overflow.last + 1 - overflow.first {
        return Some(Address {
            page: overflow.page,
            byte: overflow.first + past,
        });
    }
    None
}

// The offset of an address of a set, where the table gives the address to it.
pub fn offset_of(set: usize, at: Address) -> Option<usize>
    ensures { result ≡ offset_is set at.page at.byte }
{
    let Line { main, overflow } = line_of(set);
    if main.has(at) {
        return Some(at.byte - main.first);
    }
    if !overflow.has(at) {
        return None;
    }
    Some(main.last + 1 - main.first + (at.byte - overflow.first))
}
