// Apply's copy: the planned bits of a staged set, to the active set.
ghost use Rattle.std.specs.Prelude.{◌≡◌, ℕ, ◌≤◌, ◌<◌, length, get_or, set};
ghost use Rattle.rules.specs.Layout.{bank_size};
ghost use Rattle.control_set.specs.Plan.{merge_by, Merged};

use crate::bank::byte_of;
use crate::plan::Plan;
use rules::{ACTIVE_END, ACTIVE_START};

// The copier: the bits of a mask, into a byte of the active set, which is all that it is lent.
fn put_bits(active: &mut [u8], at: usize, mask: u8, staged: u8)
    requires { at < length active.old }
    ensures { active.new ≡ set active.old at (merge_by (get_or active.old at 0) staged mask) }
{
    active[at] = (active[at] & !mask) | (staged & mask);
}

// Bytes of a set in one block. The copy ends with a whole one, so that the compiler merges them by wide moves alone.
const BLOCK: usize = 32;

// The blocks that have one of the first bytes of the set; behind these the plan has no bits. Places and no `iter_mut().zip()`: of a slice
// that was changed through these a proof knows the length alone.
pub fn copy_planned(staged: usize, size: usize, plan: &Plan, bank: &mut [u8])
    requires set { (staged < 2) × (size ≤ 256) × (bank_size ≤ length bank.old) }
    requires none { (k : ℕ) → size ≤ k → get_or plan.now k 0 ≡ 0 }
    ensures { Merged 256 staged plan.now bank.old bank.new }
{
    for at in 0..BLOCK * size.div_ceil(BLOCK) {
        let byte = bank[byte_of(staged, at)];
        put_bits(&mut bank[ACTIVE_START..ACTIVE_END], at, plan[at], byte);
    }
}
