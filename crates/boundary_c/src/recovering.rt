// Recovery: a start, then steps.
ghost use Rattle.std.specs.Prelude.{◌≡◌, []};
ghost use Rattle.scope.specs.Refusals.{RecoveryStep};
ghost use Rattle.boundary.specs.Boundary.{step_value, handed_over, over, start_over, start_told, Tells};

#[unsafe(no_mangle)]
pub extern "C" fn keeper_recovery_start(
    medium: &[u8],
    current: &mut [u64],
    first: &mut [u32],
    last: &mut [u32],
    waiting: &[u8],
    state: &mut [u32],
    reason: &mut u32,
    entry: &mut u32,
) -> u32
    ensures { let after = handed_over result 0 state.new medium.now current.new first.new last.new waiting.now in
        let wrong = start_told state.old medium.now current.old first.old last.old waiting.now in (after ≡ start_over state.old medium.now current.old first.old last.old waiting.now) × Tells wrong reason.new entry.new }
{
    boundary::recovering::keeper_recovery_start(
        medium, current, first, last, waiting, state, reason, entry,
    )
}

#[unsafe(no_mangle)]
pub extern "C" fn keeper_recovery_step(
    state: &mut [u32],
    medium: &mut [u8],
    current: &[u64],
    value: &mut u64,
) -> u32
    ensures { let after = handed_over result value.new state.new medium.new current.now [] [] [] in after ≡ over step_value RecoveryStep state.old medium.old current.now [] [] [] }
{
    boundary::recovering::keeper_recovery_step(state, medium, current, value)
}
