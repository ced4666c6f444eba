// One transaction: begin, read, write, commit, abort. Commit stores its entry and all before it; the others store nothing.
ghost use Rattle.std.specs.Prelude.{◌≡◌, []};
ghost use Rattle.scope.specs.Calls.{rolled_back, act};
ghost use Rattle.scope.specs.Refusals.{Begin, Read, Write, Commit, Abort, told};
ghost use Rattle.scope.specs.Keeper.{done};
ghost use Rattle.state.specs.State.{phase_of};
ghost use Rattle.scope.specs.Row.{faultless};
ghost use Rattle.answer.specs.Answer.{told_in};
ghost use Rattle.keeper.specs.Answers.{answer_of, handed, leaves};
ghost use Rattle.keeper.specs.Rolling.{Rolling};

use crate::{Outcome, State, done};
use forcing::{force_all, make_commit};
use medium::layout::index;
use row::Entry;
use state::{Numbers, Phase};

impl State {
    // Read: answers the cell's current value. Refuses 1, 10, 3, 4. Costs one cell.
    #[inline(always)]
    pub fn read(self, cell: u32, current: &[u64]) -> Outcome<u64>
        ensures { let before = handed self [] current.now [] [] [] in
            let after = leaves (answer_of done result.answer) result.state [] current.now [] [] [] in
            (after ≡ act (Read cell) before) × (told_in result.answer ≡ told (Read cell) before) }
    {
        let State { numbers, phase } = self;
        if let Err(why) = refusal::read(numbers, phase, cell, current) {
            return self.refused(why);
        }
        done(current[index(cell)], numbers, phase)
    }

    // Write: appends an update with the old current value and makes the new one current; sets `last`, and `first` where it was 0.
    // Refuses 1, 10, 3, 4, 5, 6. Costs one row and one cell.
    #[inline(always)]
    pub fn write(
        self,
        cell: u32,
        value: u64,
        current: &mut [u64],
        first: &mut [u32],
        last: &mut [u32],
        waiting: &mut [u8],
    ) -> Outcome<u64>
        ensures { let before = handed self [] current.old first.old last.old waiting.old in
            let after = leaves (answer_of done result.answer) result.state [] current.new first.new last.new waiting.new in
            (after ≡ act (Write cell value) before) × (told_in result.answer ≡ told (Write cell value) before) }
    {
        let State { numbers, phase } = self;
        if let Err(why) = refusal::write(numbers, phase, cell, current, first, last, waiting) {
            return self.refused(why);
        }
        let n = numbers.l + 1;
        let old = current[index(cell)];
        journal::append(
            waiting,
            numbers.slots,
            n,
            Entry::Update {
                cell,
                old,
                new: value,
            },
        );
        workspace::assign(current, first, last, cell, value, n);
        done(0, Numbers { l: n, ..numbers }, Phase::Run)
    }

    // Commit: appends the commit entry, storing nothing, then takes force's step until f = l, and answers its number, l+1. The transaction is
    // durable once the stores are, which the host brings to its medium one by one, rows f+1 to l+1 in that order.
    // Refuses 1, 10, 3, 7, before anything is changed. Goes twice over the rows that are not stored: judged, then stored.
    #[inline(always)]
    pub fn commit(self, medium: &mut [u8], waiting: &mut [u8]) -> Outcome<u64>
        ensures { let before = handed self medium.old [] [] [] waiting.old in
            let after = leaves (answer_of done result.answer) result.state medium.new [] [] [] waiting.new in
            (after ≡ act Commit before) × (told_in result.answer ≡ told Commit before) }
    {
        let State { numbers, phase } = self;
        if let Err(why) = refusal::commit(numbers, phase, medium, waiting) {
            return self.refused(why);
        }
        let made = make_commit(numbers, waiting);
        let stored = force_all(made, medium, waiting);
        done(u64::from(made.l), stored, Phase::Idle)
    }

    // Abort: in run appends the abort entry and restores the transaction's cells in falling order; in idle it does nothing.
    // Refuses 1, 10, 7. Goes twice over the transaction's rows: judged, then restored.
    #[inline(always)]
    pub fn abort(
        self,
        current: &mut [u64],
        first: &mut [u32],
        last: &mut [u32],
        waiting: &mut [u8],
    ) -> Outcome<u64>
        ensures { let before = handed self [] current.old first.old last.old waiting.old in
            let after = leaves (answer_of done result.answer) result.state [] current.new first.new last.new waiting.new in
            (after ≡ act Abort before) × (told_in result.answer ≡ told Abort before) }
    {
        let State { numbers, phase } = self;
        if let Err(why) = refusal::abort(numbers, phase, current, first, last, waiting) {
            return self.refused(why);
        }
        if phase.is_run() {
            return self.roll_back(Phase::Idle, current, first, last, waiting);
        }
        done(0, numbers, phase)
    }

    // Begin: opens a transaction; in run it first does what abort does. Refuses 1, 10, 7, 5, 6. In idle it touches no row; in run it
    // costs what abort does.
    #[inline(always)]
    pub fn begin(
        self,
        current: &mut [u64],
        first: &mut [u32],
        last: &mut [u32],
        waiting: &mut [u8],
    ) -> Outcome<u64>
        ensures { let before = handed self [] current.old first.old last.old waiting.old in
            let after = leaves (answer_of done result.answer) result.state [] current.new first.new last.new waiting.new in
            (after ≡ act Begin before) × (told_in result.answer ≡ told Begin before) }
    {
        let State { numbers, phase } = self;
        if let Err(why) = refusal::begin(numbers, phase, current, first, last, waiting) {
            return self.refused(why);
        }
        if phase.is_run() {
            return self.roll_back(Phase::Run, current, first, last, waiting);
        }
        let l = numbers.l;
        done(0, Numbers { o: l, ..numbers }, Phase::Run)
    }

    // The abort entry appended, the open transaction's cells restored, and the phase after it.
    #[inline(always)]
    fn roll_back(
        self,
        next: Phase,
        current: &mut [u64],
        first: &mut [u32],
        last: &mut [u32],
        waiting: &mut [u8],
    ) -> Outcome<u64>
        requires { Rolling self.numbers current.old first.old last.old waiting.old }
        ensures { let after = leaves (answer_of done result.answer) result.state [] current.new first.new last.new waiting.new in
            let before = handed self [] current.old first.old last.old waiting.old in
            (after ≡ record { answer = done 0; keeper = rolled_back (phase_of next) before }) × (told_in result.answer ≡ faultless) }
    {
        let numbers = self.numbers;
        let l = numbers.l;
        let n = l + 1;
        journal::append(waiting, numbers.slots, n, Entry::Abort);
        workspace::rollback(
            waiting,
            numbers.slots,
            numbers.cells,
            numbers.o,
            l,
            n,
            current,
            first,
            last,
        );
        let ended = Numbers {
            l: n,
            o: n,
            ..numbers
        };
        done(0, ended, next)
    }
}
