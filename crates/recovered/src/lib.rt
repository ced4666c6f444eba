// A medium recovered to its end in workspaces of zeros.
#![tactic(auto)]

ghost use Rattle.std.specs.Prelude.{◌≡◌, [], ◌≤◌};
ghost use Rattle.state.specs.Lent.{lent_to};
ghost use Rattle.state.specs.declared.Phase.TheVariants as phases;
ghost use Rattle.recovered.specs.Recovered.{steps, head_number, Zeroed, Recovers};

use answer::Refusal;
use medium::head::head_ok;
use medium::layout::index;
use recovery::{Step, recovery_start, recovery_step};
use state::{Numbers, Phase};

// The state that a recovery left.
#[derive(Clone, Copy)]
pub struct Recovered {
    pub numbers: Numbers,
    pub phase: Phase,
}

// Recovery steps after a start, while a cell is stored, at most so many.
fn settle(turns: usize, numbers: Numbers, medium: &mut [u8], current: &[u64]) -> Recovered
    ensures { lent_to result.numbers result.phase medium.new current.now [] [] [] ≡ steps turns (lent_to numbers phases.Recovering medium.old current.now [] [] []) }
{
    let mut state = Recovered {
        numbers,
        phase: Phase::Recovering,
    };
    for _ in 0..turns {
        let Ok(stepped) = recovery_step(state.numbers, state.phase, medium, current) else {
            return state;
        };
        state = Recovered {
            numbers: stepped.numbers,
            phase: stepped.phase,
        };
        let Step::Cell(_) = stepped.step else {
            return state;
        };
    }
    state
}

// Recovery start, then the steps, with workspaces of zeros as the head says.
fn recover_with(
    medium: &mut [u8],
    current: &mut [u64],
    waiting: &[u8],
) -> Result<Recovered, Refusal>
    requires { Zeroed medium.old current.old waiting.now }
    ensures { Recovers medium.old result medium.new }
{
    let cells = current.len();
    let mut first = [0; 1024];
    let mut last = [0; 1024];
    let started = recovery_start(
        medium,
        current,
        &mut first[..cells],
        &mut last[..cells],
        waiting,
    );
    let numbers = started?;
    Ok(settle(cells + 1, numbers, medium, current))
}

// N or C, as a head in rule has it at 0 or 4; of any other head 0, since a start refuses it whatever workspaces it is lent.
pub fn head_number(medium: &[u8], at: usize) -> usize
    requires { at ≤ 4 }
    ensures { result ≡ head_number at medium.now }
{
    if !head_ok(medium) {
        return 0;
    }
    index(number::get4(medium, at))
}

// Recovers a medium where it stands, and answers the state after the steps, or why the start is refused. Goes over the table once for each
// cell that is stored.
pub fn recover(medium: &mut [u8]) -> Result<Recovered, Refusal>
    ensures { Recovers medium.old result medium.new }
{
    let cells = head_number(medium, 0);
    let rows = 32 * head_number(medium, 4);
    let mut current = [0; 1024];
    let waiting = [0; 32768];
    recover_with(medium, &mut current[..cells], &waiting[..rows])
}
