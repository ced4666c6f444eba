// One transaction: begin, read, write, commit, abort.
ghost use Rattle.std.specs.Prelude.{◌≡◌, []};
ghost use Rattle.scope.specs.Keeper.{value_of};
ghost use Rattle.scope.specs.Refusals.{Begin, Read, Write, Commit, Abort, told};
ghost use Rattle.boundary.specs.Boundary.{no_value, handed_over, over, lent_over, Tells};

use crate::numbers::{number_of, put_committed, put_made, put_state, state_in, tell};
use answer::Refusal;

#[unsafe(no_mangle)]
pub extern "C" fn keeper_begin(
    state: &mut [u32],
    current: &mut [u64],
    first: &mut [u32],
    last: &mut [u32],
    waiting: &mut [u8],
    reason: &mut u32,
    entry: &mut u32,
) -> u32
    ensures { let after = handed_over result 0 state.new [] current.new first.new last.new waiting.new in
        let wrong = told Begin (lent_over state.old [] current.old first.old last.old waiting.old) in (after ≡ over no_value Begin state.old [] current.old first.old last.old waiting.old) × Tells wrong reason.new entry.new }
{
    let Some(held) = state_in(state) else {
        return tell::<()>(Err(Refusal::Unfit), reason, entry);
    };
    let out = held.begin(current, first, last, waiting);
    put_made(state, out.state);
    tell(out.answer, reason, entry)
}

#[unsafe(no_mangle)]
pub extern "C" fn keeper_read(state: &mut [u32], cell: u32, current: &[u64], value: &mut u64) -> u32
    ensures { let after = handed_over result value.new state.new [] current.now [] [] [] in after ≡ over value_of (Read cell) state.old [] current.now [] [] [] }
{
    let Some(held) = state_in(state) else {
        *value = 0;
        return Refusal::Unfit.number();
    };
    let out = held.read(cell, current);
    put_state(state, out.state);
    *value = out.answer.unwrap_or(0);
    number_of(out.answer)
}

#[unsafe(no_mangle)]
pub extern "C" fn keeper_write(
    state: &mut [u32],
    cell: u32,
    new: u64,
    current: &mut [u64],
    first: &mut [u32],
    last: &mut [u32],
    waiting: &mut [u8],
) -> u32
    ensures { let after = handed_over result 0 state.new [] current.new first.new last.new waiting.new in after ≡ over no_value (Write cell new) state.old [] current.old first.old last.old waiting.old }
{
    let Some(held) = state_in(state) else {
        return Refusal::Unfit.number();
    };
    let out = held.write(cell, new, current, first, last, waiting);
    put_made(state, out.state);
    number_of(out.answer)
}

#[unsafe(no_mangle)]
pub extern "C" fn keeper_commit(
    state: &mut [u32],
    medium: &mut [u8],
    waiting: &mut [u8],
    value: &mut u64,
    reason: &mut u32,
    entry: &mut u32,
) -> u32
    ensures { let after = handed_over result value.new state.new medium.new [] [] [] waiting.new in
        let wrong = told Commit (lent_over state.old medium.old [] [] [] waiting.old) in (after ≡ over value_of Commit state.old medium.old [] [] [] waiting.old) × Tells wrong reason.new entry.new }
{
    let Some(held) = state_in(state) else {
        *value = 0;
        return tell::<()>(Err(Refusal::Unfit), reason, entry);
    };
    let out = held.commit(medium, waiting);
    put_committed(state, out.state);
    *value = out.answer.unwrap_or(0);
    tell(out.answer, reason, entry)
}

#[unsafe(no_mangle)]
pub extern "C" fn keeper_abort(
    state: &mut [u32],
    current: &mut [u64],
    first: &mut [u32],
    last: &mut [u32],
    waiting: &mut [u8],
    reason: &mut u32,
    entry: &mut u32,
) -> u32
    ensures { let after = handed_over result 0 state.new [] current.new first.new last.new waiting.new in
        let wrong = told Abort (lent_over state.old [] current.old first.old last.old waiting.old) in (after ≡ over no_value Abort state.old [] current.old first.old last.old waiting.old) × Tells wrong reason.new entry.new }
{
    let Some(held) = state_in(state) else {
        return tell::<()>(Err(Refusal::Unfit), reason, entry);
    };
    let out = held.abort(current, first, last, waiting);
    put_made(state, out.state);
    tell(out.answer, reason, entry)
}
