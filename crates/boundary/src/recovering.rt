// Recovery: a start, then steps.
ghost use Rattle.std.specs.Prelude.{◌≡◌, []};
ghost use Rattle.scope.specs.Refusals.{RecoveryStep};
ghost use Rattle.boundary.specs.Boundary.{step_value, handed_over, over, start_over, start_told, Tells};

use crate::numbers::{number_of, put_state, state_in, step_value, tell};
use answer::Refusal;
use keeper::State;

#[unsafe(no_mangle)]
pub extern "C" fn keeper_recovery_start(
    medium: &[u8],
    current: &mut [u64],
    first: &mut [u32],
    last: &mut [u32],
    waiting: &[u8],
    state: &mut [u32],
    reason: &mut u32,
    entry: &mut u32,
) -> u32
    ensures { let after = handed_over result 0 state.new medium.now current.new first.new last.new waiting.now in
        let wrong = start_told state.old medium.now current.old first.old last.old waiting.now in (after ≡ start_over state.old medium.now current.old first.old last.old waiting.now) × Tells wrong reason.new entry.new }
{
    if state.len() != 7 {
        return tell::<()>(Err(Refusal::Unfit), reason, entry);
    }
    let out = State::recovery_start(medium, current, first, last, waiting);
    put_state(state, out.state);
    tell(out.answer, reason, entry)
}

#[unsafe(no_mangle)]
pub extern "C" fn keeper_recovery_step(
    state: &mut [u32],
    medium: &mut [u8],
    current: &[u64],
    value: &mut u64,
) -> u32
    ensures { let after = handed_over result value.new state.new medium.new current.now [] [] [] in after ≡ over step_value RecoveryStep state.old medium.old current.now [] [] [] }
{
    let Some(held) = state_in(state) else {
        *value = 0;
        return Refusal::Unfit.number();
    };
    let out = held.recovery_step(medium, current);
    put_state(state, out.state);
    *value = out.answer.map_or(0, step_value);
    number_of(out.answer)
}
