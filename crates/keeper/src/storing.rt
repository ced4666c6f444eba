// What reaches the medium: force, write-back, cut. Each makes one store at most.
ghost use Rattle.std.specs.Prelude.{◌≡◌, []};
ghost use Rattle.scope.specs.Keeper.{done};
ghost use Rattle.scope.specs.Refusals.{Force, WriteBack, Cut, told};
ghost use Rattle.scope.specs.Calls.{act};
ghost use Rattle.answer.specs.Answer.{told_in};
ghost use Rattle.keeper.specs.Answers.{answer_of, written_back, handed, leaves};

use crate::{Back, Outcome, State, done};
use forcing::force_step;
use medium::head::store_head;
use medium::layout::index;
use medium::table::store_cell;
use state::Numbers;

impl State {
    // Force: stores entry f+1 from the waiting rows and answers its number; with f = l it stores nothing and answers 0.
    // Refuses 1, 10, 7. Costs one row; stores that row.
    #[inline(always)]
    pub fn force(self, medium: &mut [u8], waiting: &[u8]) -> Outcome<u64>
        ensures { let before = handed self medium.old [] [] [] waiting.now in
            let after = leaves (answer_of done result.answer) result.state medium.new [] [] [] waiting.now in
            (after ≡ act Force before) × (told_in result.answer ≡ told Force before) }
    {
        let State { numbers, phase } = self;
        if let Err(why) = refusal::force(numbers, phase, medium, waiting) {
            return self.refused(why);
        }
        if numbers.f >= numbers.l {
            return done(0, numbers, phase);
        }
        let next = force_step(numbers, medium, waiting);
        done(u64::from(next.f), next, phase)
    }

    // Write-back: with `first` 0 the cell is clean; else its current value is stored and `first` becomes 0. Refuses 1, 10, 4, 8.
    // Costs one cell; stores that cell.
    #[inline(always)]
    pub fn write_back(
        self,
        cell: u32,
        medium: &mut [u8],
        current: &[u64],
        first: &mut [u32],
        last: &[u32],
    ) -> Outcome<Back>
        ensures { let before = handed self medium.old current.now first.old last.now [] in
            let after = leaves (answer_of written_back result.answer) result.state medium.new current.now first.new last.now [] in
            (after ≡ act (WriteBack cell) before) × (told_in result.answer ≡ told (WriteBack cell) before) }
    {
        let State { numbers, phase } = self;
        let why = refusal::write_back(numbers, phase, cell, medium, current, first, last);
        if let Err(why) = why {
            return self.refused(why);
        }
        let at = index(cell);
        if first[at] == 0 {
            return done(Back::Clean, numbers, phase);
        }
        store_cell(medium, numbers.slots, cell, current[at]);
        first[at] = 0;
        done(Back::Stored, numbers, phase)
    }

    // Cut to p: the head is stored with h = p; p may be h. Refuses 1, 10, 9, 7, 9. Goes once over the cells' `first`; stores the head.
    #[inline(always)]
    pub fn cut(self, p: u32, medium: &mut [u8], first: &[u32]) -> Outcome<u64>
        ensures { let before = handed self medium.old [] first.now [] [] in
            let after = leaves (answer_of done result.answer) result.state medium.new [] first.now [] [] in
            (after ≡ act (Cut p) before) × (told_in result.answer ≡ told (Cut p) before) }
    {
        let State { numbers, phase } = self;
        if let Err(why) = refusal::cut(numbers, phase, p, medium, first) {
            return self.refused(why);
        }
        store_head(medium, numbers.cells, numbers.slots, p);
        done(0, Numbers { h: p, ..numbers }, phase)
    }
}
