// The class of an ID, and its row.
ghost use Rattle.std.specs.Prelude.{◌≡◌, ◌<◌};
ghost use Rattle.descriptor.specs.Rows.{class_of, row_at};
ghost use Rattle.descriptor.specs.Reading.{class_by};

use crate::table::{CLASSES, ROWS, Row};

// By classes lent, whatever they are; an ID behind them has class 0.
#[tactic(auto, unfolding(crate::specs::Reading::class_by))]
pub fn class_in(table: &[u8; 19], id: u8) -> u8
    ensures { result ≡ class_by table.now id }
{
    table.get(id as usize).copied().unwrap_or(0)
}

fn class_of(id: u8) -> usize
    ensures { (result ≡ class_of id) × (result < 11) }
{
    class_in(&CLASSES, id) as usize
}

// The row of an ID.
pub fn row_of(id: u8) -> Row
    ensures { result ≡ row_at id }
{
    ROWS[class_of(id)]
}
