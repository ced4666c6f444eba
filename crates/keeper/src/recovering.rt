// Recovery, by the calls of the crate `recovery`.
ghost use Rattle.std.specs.Prelude.{◌≡◌, []};
ghost use Rattle.scope.specs.Keeper.{done};
ghost use Rattle.scope.specs.Refusals.{RecoveryStart, RecoveryStep, told};
ghost use Rattle.scope.specs.Calls.{act};
ghost use Rattle.answer.specs.Answer.{told_in};
ghost use Rattle.state.specs.Lent.{stateless};
ghost use Rattle.recovery.specs.Answers.{stepped};
ghost use Rattle.keeper.specs.Answers.{answer_of, handed, leaves};

use crate::{Outcome, State, done};
use recovery::Step;
use state::{Numbers, Phase};

// The state that a refused start hands back.
const NO_STATE: State = State {
    numbers: Numbers {
        cells: 0,
        slots: 0,
        h: 0,
        f: 0,
        l: 0,
        o: 0,
    },
    phase: Phase::Idle,
};

impl State {
    // Recovery start: reads the entries that count and replays them over the table, undoing what has no end. `first` and `last` become
    // zero, waiting rows and medium keep their bytes, and nothing is stored. Refuses 1 and 2, with the state of zeros.
    #[tactic(auto, unfolding(crate::specs::Answers::leaves, crate::specs::Answers::handed, state::specs::Lent::left))]
    pub fn recovery_start(
        medium: &[u8],
        current: &mut [u64],
        first: &mut [u32],
        last: &mut [u32],
        waiting: &[u8],
    ) -> Outcome<u64>
        ensures { let before = stateless medium.now current.old first.old last.old waiting.now in
            let after = leaves (answer_of done result.answer) result.state medium.now current.new first.new last.new waiting.now in
            (after ≡ act RecoveryStart before) × (told_in result.answer ≡ told RecoveryStart before) }
    {
        match recovery::recovery_start(medium, current, first, last, waiting) {
            Ok(numbers) => done(0, numbers, Phase::Recovering),
            Err(why) => NO_STATE.refused(why),
        }
    }

    // Recovery step: the lowest cell whose table value differs from the current one is stored; if none, the head with h = l, where h < l;
    // else nothing. Refuses 1, 10.
    pub fn recovery_step(self, medium: &mut [u8], current: &[u64]) -> Outcome<Step>
        ensures { let before = handed self medium.old current.now [] [] [] in
            let after = leaves (answer_of stepped result.answer) result.state medium.new current.now [] [] [] in
            (after ≡ act RecoveryStep before) × (told_in result.answer ≡ told RecoveryStep before) }
    {
        match recovery::recovery_step(self.numbers, self.phase, medium, current) {
            Ok(next) => done(next.step, next.numbers, next.phase),
            Err(why) => self.refused(why),
        }
    }
}
