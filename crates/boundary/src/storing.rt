// What reaches the medium: format, force, write-back, cut.
ghost use Rattle.std.specs.Prelude.{◌≡◌, []};
ghost use Rattle.scope.specs.Keeper.{value_of, refusal_of};
ghost use Rattle.scope.specs.Refusals.{Format, Force, WriteBack, Cut, told};
ghost use Rattle.scope.specs.Calls.{act};
ghost use Rattle.medium.specs.Lent.{on_medium};
ghost use Rattle.boundary.specs.Boundary.{no_value, back_value, handed_over, over, lent_over, Tells};

use crate::numbers::{back_value, number_of, put_dropped, put_state, put_stored, state_in, tell};
use answer::Refusal;

#[unsafe(no_mangle)]
pub extern "C" fn keeper_format(medium: &mut [u8], cells: u32, slots: u32) -> u32
    ensures number { result ≡ refusal_of (act (Format cells slots) (on_medium medium.old)).answer }
    ensures bytes { medium.new ≡ (act (Format cells slots) (on_medium medium.old)).keeper.medium }
{
    number_of(medium::head::format(medium, cells, slots))
}

#[unsafe(no_mangle)]
pub extern "C" fn keeper_force(
    state: &mut [u32],
    medium: &mut [u8],
    waiting: &[u8],
    value: &mut u64,
    reason: &mut u32,
    entry: &mut u32,
) -> u32
    ensures { let after = handed_over result value.new state.new medium.new [] [] [] waiting.now in
        let wrong = told Force (lent_over state.old medium.old [] [] [] waiting.now) in (after ≡ over value_of Force state.old medium.old [] [] [] waiting.now) × Tells wrong reason.new entry.new }
{
    let Some(held) = state_in(state) else {
        *value = 0;
        return tell::<()>(Err(Refusal::Unfit), reason, entry);
    };
    let out = held.force(medium, waiting);
    put_stored(state, out.state);
    *value = out.answer.unwrap_or(0);
    tell(out.answer, reason, entry)
}

#[unsafe(no_mangle)]
pub extern "C" fn keeper_write_back(
    state: &mut [u32],
    cell: u32,
    medium: &mut [u8],
    current: &[u64],
    first: &mut [u32],
    last: &[u32],
    value: &mut u64,
) -> u32
    ensures { let after = handed_over result value.new state.new medium.new current.now first.new last.now [] in after ≡ over back_value (WriteBack cell) state.old medium.old current.now first.old last.now [] }
{
    let Some(held) = state_in(state) else {
        *value = 0;
        return Refusal::Unfit.number();
    };
    let out = held.write_back(cell, medium, current, first, last);
    put_state(state, out.state);
    *value = out.answer.map_or(0, back_value);
    number_of(out.answer)
}

#[unsafe(no_mangle)]
pub extern "C" fn keeper_cut(
    state: &mut [u32],
    p: u32,
    medium: &mut [u8],
    first: &[u32],
    reason: &mut u32,
    entry: &mut u32,
) -> u32
    ensures { let after = handed_over result 0 state.new medium.new [] first.now [] [] in
        let wrong = told (Cut p) (lent_over state.old medium.old [] first.now [] []) in (after ≡ over no_value (Cut p) state.old medium.old [] first.now [] []) × Tells wrong reason.new entry.new }
{
    let Some(held) = state_in(state) else {
        return tell::<()>(Err(Refusal::Unfit), reason, entry);
    };
    let out = held.cut(p, medium, first);
    put_dropped(state, out.state);
    tell(out.answer, reason, entry)
}
