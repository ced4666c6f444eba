// Parts of what a host lends, as offsets: an entry, and the table.
ghost use Rattle.std.specs.Prelude.{[]};
ghost use Rattle.boundary.specs.Boundary.{lent_over};
ghost use Rattle.boundary.specs.Parts.{Looked, Viewed};

use crate::numbers::state_in;
use answer::Refusal;
use medium::head::try_table_view;
use medium::layout::{index, row_at};

#[unsafe(no_mangle)]
pub extern "C" fn keeper_look(
    state: &[u32],
    n: u32,
    medium: &[u8],
    waiting: &[u8],
    value: &mut u64,
) -> u32
    ensures { Looked n (lent_over state.now medium.now [] [] [] waiting.now) result value.new }
{
    *value = 0;
    let Some(held) = state_in(state) else {
        return Refusal::Unfit.number();
    };
    if let Err(why) = held.try_look(n, medium, waiting) {
        return why.number();
    }
    let numbers = held.numbers;
    let row = row_at(numbers.slots, n);
    if n <= numbers.f {
        *value = (32 + row) as u64;
        return 0;
    }
    *value = row as u64;
    0
}

#[unsafe(no_mangle)]
pub extern "C" fn keeper_table_view(medium: &[u8], value: &mut u64) -> u32
    ensures { Viewed medium.now result value.new }
{
    *value = 0;
    if let Err(why) = try_table_view(medium) {
        return why.number();
    }
    let slots = index(number::get4(medium, 4));
    *value = (32 + 32 * slots) as u64;
    0
}
