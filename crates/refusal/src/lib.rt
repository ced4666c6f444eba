// What each call refuses with: the papers' table, each call's tests in their order, one after the other, so that a call leaves at the first
// that holds. A function here changes nothing and is total: the calls ask it first. Calls that judge rows tell beside 7 what is wrong
// with the lowest bad one.
// A call leaves at a state that is not sound before it looks at what it is lent.
#![tactic(auto)]

ghost use Rattle.std.specs.Prelude.{◌≡◌, [], ℕ, ◌-◌, ◌&&◌, ◌≤◌};
ghost use Rattle.scope.specs.Row.{lowest_fault};
ghost use Rattle.scope.specs.Keeper.{sound};
ghost use Rattle.scope.specs.Refusals.{Begin, Read, Write, Commit, Abort, Force, WriteBack, Cut, Look, lent};
ghost use Rattle.answer.specs.Answer.{number_in, told_in};
ghost use Rattle.journal.specs.Entries.{Rows, entry_in, wrong_in};
ghost use Rattle.workspace.specs.Values.{wrong_due};
ghost use Rattle.state.specs.State.{state_of};
ghost use Rattle.state.specs.Lent.{lent_to};
ghost use Rattle.refusal.specs.Judges.{Judges, Asks, Tells, ready_tests, run_tests, cell_tests, room_tests};
ghost use Rattle.refusal.specs.Rows.{open_fault_in, moved_no, moved_fault};

use answer::Refusal;
use journal::entry_at;
use medium::layout::index;
use row::Fault;
use state::{Numbers, Phase};
use workspace::{Due, any_first, lowest_fault};

// A sound state, and the medium and the waiting rows as long as its numbers say.
#[inline(always)]
fn fit_rows(numbers: Numbers, phase: Phase, medium: &[u8], waiting: &[u8]) -> bool
    ensures { result ≡ (sound (state_of numbers phase) && lent Commit (lent_to numbers phase medium.now [] [] [] waiting.now)) }
{
    numbers.sound(phase) && numbers.fits_medium(medium.len()) && numbers.fits_rows(waiting.len())
}

// A sound state, and the workspaces as long as its numbers say.
#[inline(always)]
fn fit_workspaces(
    numbers: Numbers,
    phase: Phase,
    current: &[u64],
    first: &[u32],
    last: &[u32],
    waiting: &[u8],
) -> bool
    ensures { let k = lent_to numbers phase [] current.now first.now last.now waiting.now in
        result ≡ (sound (state_of numbers phase) && lent Abort k) }
{
    numbers.sound(phase)
        && numbers.fits_workspaces(current.len(), first.len(), last.len(), waiting.len())
}

// A sound state, and the medium, current values, `first` and `last` as long as its numbers say.
#[inline(always)]
fn fit_table(
    numbers: Numbers,
    phase: Phase,
    medium: &[u8],
    current: &[u64],
    first: &[u32],
    last: &[u32],
) -> bool
    ensures { let k = lent_to numbers phase medium.now current.now first.now last.now [] in
        result ≡ (sound (state_of numbers phase) && lent (WriteBack 0) k) }
{
    numbers.sound(phase)
        && numbers.fits_medium(medium.len())
        && numbers.fits_cells(current.len())
        && numbers.fits_cells(first.len())
        && numbers.fits_cells(last.len())
}

// A sound state, and the medium and `first` as long as its numbers say.
#[inline(always)]
fn fit_first(numbers: Numbers, phase: Phase, medium: &[u8], first: &[u32]) -> bool
    ensures { result ≡ (sound (state_of numbers phase) && lent (Cut 0) (lent_to numbers phase medium.now [] first.now [] [])) }
{
    numbers.sound(phase) && numbers.fits_medium(medium.len()) && numbers.fits_cells(first.len())
}

// 1, 10: the first tests of every call.
#[inline(always)]
fn ready(fit: bool, phase: Phase) -> Result<(), Refusal>
    ensures { Asks result (ready_tests fit phase) }
{
    if !fit {
        return Err(Refusal::Unfit);
    }
    if phase.is_recovering() {
        return Err(Refusal::WrongPhase);
    }
    Ok(())
}

// 1, 10, 3.
#[inline(always)]
fn in_run(fit: bool, phase: Phase) -> Result<(), Refusal>
    ensures { Asks result (run_tests fit phase) }
{
    ready(fit, phase)?;
    if phase.is_idle() {
        return Err(Refusal::NoTransaction);
    }
    Ok(())
}

// 4.
#[inline(always)]
fn in_table(numbers: Numbers, cell: u32) -> Result<(), Refusal>
    ensures { Asks result (cell_tests numbers cell) }
{
    if numbers.cells <= cell {
        return Err(Refusal::NoCell);
    }
    Ok(())
}

// 5, 6.
#[inline(always)]
fn has_room(numbers: Numbers, phase: Phase) -> Result<(), Refusal>
    ensures { Asks result (room_tests numbers phase) }
{
    if numbers.full(phase) {
        return Err(Refusal::Full);
    }
    if numbers.used_up(phase) {
        return Err(Refusal::UsedUp);
    }
    Ok(())
}

// 7: a waiting row from + 1, .., l does not hold what is due.
#[inline(always)]
fn rows_hold(numbers: Numbers, waiting: &[u8], from: u32, due: Due) -> Result<(), Refusal>
    requires { Rows waiting.now 0 numbers.slots 1 }
    ensures { Tells result (lowest_fault (wrong_due due waiting.now numbers.slots numbers.cells) (numbers.l - from) from) }
{
    match lowest_fault(waiting, numbers.slots, numbers.cells, from, numbers.l, due) {
        Some(fault) => Err(Refusal::BadRow(fault)),
        None => Ok(()),
    }
}

#[inline(always)]
pub fn read(numbers: Numbers, phase: Phase, cell: u32, current: &[u64]) -> Result<(), Refusal>
    ensures { Judges result (Read cell) (lent_to numbers phase [] current.now [] [] []) }
{
    let fit = numbers.sound(phase) && numbers.fits_cells(current.len());
    in_run(fit, phase)?;
    in_table(numbers, cell)
}

#[inline(always)]
pub fn write(
    numbers: Numbers,
    phase: Phase,
    cell: u32,
    current: &[u64],
    first: &[u32],
    last: &[u32],
    waiting: &[u8],
) -> Result<(), Refusal>
    ensures { (v : ℕ) → Judges result (Write cell v) (lent_to numbers phase [] current.now first.now last.now waiting.now) }
{
    let fit = fit_workspaces(numbers, phase, current, first, last, waiting);
    in_run(fit, phase)?;
    in_table(numbers, cell)?;
    has_room(numbers, phase)
}

#[inline(always)]
pub fn commit(numbers: Numbers, phase: Phase, medium: &[u8], waiting: &[u8]) -> Result<(), Refusal>
    ensures { Judges result Commit (lent_to numbers phase medium.now [] [] [] waiting.now) }
{
    let fit = fit_rows(numbers, phase, medium, waiting);
    in_run(fit, phase)?;
    rows_hold(numbers, waiting, numbers.f, Due::Entries)
}

// 7: in run a waiting row of o+1 to l isn't that update.
#[inline(always)]
fn open_rows(numbers: Numbers, phase: Phase, waiting: &[u8]) -> Result<(), Refusal>
    requires { Rows waiting.now 0 numbers.slots 1 }
    ensures { Tells result (open_fault_in numbers phase waiting.now) }
{
    if !phase.is_run() {
        return Ok(());
    }
    rows_hold(numbers, waiting, numbers.o, Due::Updates)
}

#[inline(always)]
pub fn abort(
    numbers: Numbers,
    phase: Phase,
    current: &[u64],
    first: &[u32],
    last: &[u32],
    waiting: &[u8],
) -> Result<(), Refusal>
    ensures { Judges result Abort (lent_to numbers phase [] current.now first.now last.now waiting.now) }
{
    let fit = fit_workspaces(numbers, phase, current, first, last, waiting);
    ready(fit, phase)?;
    open_rows(numbers, phase, waiting)
}

#[inline(always)]
pub fn begin(
    numbers: Numbers,
    phase: Phase,
    current: &[u64],
    first: &[u32],
    last: &[u32],
    waiting: &[u8],
) -> Result<(), Refusal>
    ensures { Judges result Begin (lent_to numbers phase [] current.now first.now last.now waiting.now) }
{
    abort(numbers, phase, current, first, last, waiting)?;
    has_room(numbers, phase)
}

#[inline(always)]
pub fn force(numbers: Numbers, phase: Phase, medium: &[u8], waiting: &[u8]) -> Result<(), Refusal>
    ensures { Judges result Force (lent_to numbers phase medium.now [] [] [] waiting.now) }
{
    let fit = fit_rows(numbers, phase, medium, waiting);
    ready(fit, phase)?;
    if numbers.f >= numbers.l {
        return Ok(());
    }
    let n = numbers.f + 1;
    match entry_at(waiting, 0, numbers.slots, numbers.cells, n) {
        Ok(_) => Ok(()),
        Err(reason) => Err(Refusal::BadRow(Fault { reason, entry: n })),
    }
}

#[inline(always)]
pub fn write_back(
    numbers: Numbers,
    phase: Phase,
    cell: u32,
    medium: &[u8],
    current: &[u64],
    first: &[u32],
    last: &[u32],
) -> Result<(), Refusal>
    ensures { Judges result (WriteBack cell) (lent_to numbers phase medium.now current.now first.now last.now []) }
{
    let fit = fit_table(numbers, phase, medium, current, first, last);
    ready(fit, phase)?;
    in_table(numbers, cell)?;
    let at = index(cell);
    if 0 < first[at] && numbers.f < last[at] {
        return Err(Refusal::NotStored);
    }
    Ok(())
}

// Cut to p, not h: 7, the medium's row of p isn't entry p; 9, it is an update.
fn cut_row(numbers: Numbers, p: u32, medium: &[u8]) -> Result<(), Refusal>
    requires { (Rows medium.now 32 numbers.slots 1) × (numbers.h ≤ p) }
    ensures number { number_in result ≡ moved_no numbers.h p (entry_in medium.now 32 numbers.slots numbers.cells p) }
    ensures fault { told_in result ≡ moved_fault (number_in result) p (wrong_in medium.now 32 numbers.slots numbers.cells p) }
{
    if p == numbers.h {
        return Ok(());
    }
    match entry_at(medium, 32, numbers.slots, numbers.cells, p) {
        Ok(what) if what.is_update() => Err(Refusal::NotACut),
        Ok(_) => Ok(()),
        Err(reason) => Err(Refusal::BadRow(Fault { reason, entry: p })),
    }
}

#[inline(always)]
pub fn cut(
    numbers: Numbers,
    phase: Phase,
    p: u32,
    medium: &[u8],
    first: &[u32],
) -> Result<(), Refusal>
    ensures { Judges result (Cut p) (lent_to numbers phase medium.now [] first.now [] []) }
{
    let fit = fit_first(numbers, phase, medium, first);
    ready(fit, phase)?;
    if p < numbers.h || numbers.f < p || numbers.o < p {
        return Err(Refusal::NotACut);
    }
    cut_row(numbers, p, medium)?;
    if any_first(first, p) {
        return Err(Refusal::NotACut);
    }
    Ok(())
}

#[inline(always)]
pub fn look(
    numbers: Numbers,
    phase: Phase,
    n: u32,
    medium: &[u8],
    waiting: &[u8],
) -> Result<(), Refusal>
    ensures { Judges result (Look n) (lent_to numbers phase medium.now [] [] [] waiting.now) }
{
    let fit = fit_rows(numbers, phase, medium, waiting);
    ready(fit, phase)?;
    if n <= numbers.h || numbers.l < n {
        return Err(Refusal::NoEntry);
    }
    Ok(())
}
