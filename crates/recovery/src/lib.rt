// Recovery: a start reads the medium and stores nothing; each step after it makes one store at most. The papers' two calls over the
// state's numbers and phase: the keeper's methods hand them on, and the listing calls them.
#![tactic(auto)]

ghost use Rattle.std.specs.Prelude.{◌≡◌, ◌&&◌, List, [], ℕ, ◌+◌, ◌*◌, ◌≤◌, length};
ghost use Rattle.std.proofs.Math.Option.{none};
ghost use Rattle.scope.specs.Bytes.{number_at};
ghost use Rattle.scope.specs.Row.{faultless};
ghost use Rattle.scope.specs.Keeper.{is_head_ok};
ghost use Rattle.scope.specs.Refusals.{RecoveryStart, RecoveryStep, lent_start, refusal, told};
ghost use Rattle.scope.specs.Calls.{step_at, act};
ghost use Rattle.answer.specs.Answer.{number_in, told_in};
ghost use Rattle.state.specs.Lent.{lent_to, stateless, left};
ghost use Rattle.recovery.specs.Answers.{stepped, start_left, step_left};

use answer::Refusal;
use medium::head::{head_ok, store_head};
use medium::layout::index;
use medium::table::{load, lowest_differing, store_cell};
use replay::entries::replay;
use replay::scan::scan;
use state::{Numbers, Phase};

// What a recovery step stored: a cell or the head, or nothing.
#[derive(Clone, Copy, PartialEq, Eq)]
pub enum Step {
    Cell(u32),
    Head,
    Clean,
}

// A step that was done, and the state after it.
#[derive(Clone, Copy)]
pub struct Stepped {
    pub step: Step,
    pub numbers: Numbers,
    pub phase: Phase,
}

// Whether the medium's head is in rule and the workspaces are as it says.
fn start_fits(medium: &[u8], current: &[u64], first: &[u32], last: &[u32], waiting: &[u8]) -> bool
    ensures { let after = result in
        after ≡ (is_head_ok medium.now && lent_start (number_at 4 0 medium.now) (number_at 4 4 medium.now) (stateless medium.now current.now first.now last.now waiting.now)) }
{
    if !head_ok(medium) {
        return false;
    }
    let cells = index(number::get4(medium, 0));
    let slots = index(number::get4(medium, 4));
    current.len() == cells
        && first.len() == cells
        && last.len() == cells
        && waiting.len() == 32 * slots
}

// Recovery start: reads the entries that count and replays them over the table, undoing what has no end, and answers the numbers of the
// state after it, which is recovering. `first` and `last` become zero, waiting rows and medium keep their bytes, and nothing is stored.
// Refuses 1 and 2, and tells beside 2 what is wrong with the lowest row that does not read, or the hole. Goes over the entries that count
// twice, judged and then replayed, once over the table, and once more over each undone row.
pub fn recovery_start(
    medium: &[u8],
    current: &mut [u64],
    first: &mut [u32],
    last: &mut [u32],
    waiting: &[u8],
) -> Result<Numbers, Refusal>
    ensures { let before = stateless medium.now current.old first.old last.old waiting.now in
        let after = start_left result medium.now current.new first.new last.new waiting.now in
        (after ≡ act RecoveryStart before) × (told_in result ≡ told RecoveryStart before) }
{
    if !start_fits(medium, current, first, last, waiting) {
        return Err(Refusal::Unfit);
    }
    let cells = number::get4(medium, 0);
    let slots = number::get4(medium, 4);
    let h = number::get4(medium, 8);
    let e = match scan(medium, slots, cells, h) {
        Ok(e) => e,
        Err(fault) => return Err(Refusal::Malformed(fault)),
    };
    load(medium, slots, current);
    if let Err(fault) = replay(medium, slots, cells, h, e, current) {
        return Err(Refusal::Malformed(fault));
    }
    first.fill(0);
    last.fill(0);
    Ok(Numbers {
        cells,
        slots,
        h,
        f: e,
        l: e,
        o: e,
    })
}

// Whether a step may be taken: 1, 10.
fn step_refusal(
    numbers: Numbers,
    phase: Phase,
    medium: &[u8],
    current: &[u64],
) -> Result<(), Refusal>
    ensures number { number_in result ≡ refusal RecoveryStep (lent_to numbers phase medium.now current.now [] [] []) }
    ensures fault { told_in result ≡ faultless }
{
    if !(numbers.sound(phase)
        && numbers.fits_medium(medium.len())
        && numbers.fits_cells(current.len()))
    {
        return Err(Refusal::Unfit);
    }
    if !phase.is_recovering() {
        return Err(Refusal::WrongPhase);
    }
    Ok(())
}

// The last step: the head, where an entry is left.
fn step_end(numbers: Numbers, medium: &mut [u8]) -> Stepped
    requires { 32 ≤ length medium.old }
    ensures { (phase : Phase) (current : List ℕ) → left (stepped result.step) result.numbers result.phase medium.new current [] [] [] ≡ step_at none (lent_to numbers phase medium.old current [] [] []) }
{
    let l = numbers.l;
    if l <= numbers.h {
        return Stepped {
            step: Step::Clean,
            numbers,
            phase: Phase::Idle,
        };
    }
    store_head(medium, numbers.cells, numbers.slots, l);
    Stepped {
        step: Step::Head,
        numbers: Numbers { h: l, ..numbers },
        phase: Phase::Idle,
    }
}

// Recovery step: the lowest cell whose table value differs from the current one is stored; if none, the head with h = l, where h < l;
// else nothing. Refuses 1, 10. Stops at the first differing cell; stores that cell or the head.
pub fn recovery_step(
    numbers: Numbers,
    phase: Phase,
    medium: &mut [u8],
    current: &[u64],
) -> Result<Stepped, Refusal>
    ensures { let before = lent_to numbers phase medium.old current.now [] [] [] in
        let after = step_left result numbers phase medium.new current.now [] [] [] in
        (after ≡ act RecoveryStep before) × (told_in result ≡ told RecoveryStep before) }
{
    step_refusal(numbers, phase, medium, current)?;
    if let Some(cell) = lowest_differing(medium, numbers.slots, current) {
        store_cell(medium, numbers.slots, cell, current[index(cell)]);
        return Ok(Stepped {
            step: Step::Cell(cell),
            numbers,
            phase,
        });
    }
    Ok(step_end(numbers, medium))
}
