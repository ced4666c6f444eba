// A call as a value, its answer as one, and where on the medium its stores stand: what programs share that make calls from data. Nothing is
// checked here: the keeper does its own checking.
#![tactic(auto)]

ghost use Rattle.std.specs.Prelude.{◌≡◌, ◌+◌, ◌<◌};
ghost use Rattle.scope.specs.Keeper.{done, value_of, row_at};
ghost use Rattle.recovery.specs.Answers.{stepped};
ghost use Rattle.keeper.specs.Answers.{answer_of, written_back, handed};
ghost use Rattle.console.specs.Made.{row_place, cell_place, force_place, cut_place, back_place, step_place, Says, call_of, Made};

use answer::Refusal;
use keeper::{Back, Outcome, State};
use medium::layout;
use recovery::Step;

#[derive(Clone, Copy, Debug, PartialEq, Eq)]
pub enum Call {
    Begin,
    Write { cell: u32, value: u64 },
    Abort,
    Commit,
    Read { cell: u32 },
    Force,
    Cut { entry: u32 },
    WriteBack { cell: u32 },
    Step,
    Start,
}

// What an accepted call answers: a value, 0 where the papers name none; a cell that a write-back stored, or that was clean; or the cell or
// the head that a recovery step stored.
#[derive(Clone, Copy, Debug, PartialEq, Eq)]
pub enum Said {
    Plain(u64),
    Stored,
    Clean,
    Cell(u32),
    Head,
}

// `size` bytes of the medium from `at` on.
#[derive(Clone, Copy, Debug, PartialEq, Eq)]
pub struct Place {
    pub at: usize,
    pub size: usize,
}

// What a call did: the state that it handed back, what it answered, and where on the medium its store stands, if it made one. A commit stores
// the rows of entries f+1, f as before it, to its number, and names no place.
#[derive(Clone, Copy)]
pub struct Did {
    pub state: State,
    pub said: Result<Said, Refusal>,
    pub place: Option<Place>,
}

const HEAD: Place = Place { at: 0, size: 32 };

// Entry n's row.
#[tactic(auto, unfolding(scope::specs::Keeper::row_at))]
fn row(slots: u32, n: u64) -> Place
    requires { (0 < slots) × (0 < n) }
    ensures { result ≡ row_place slots n }
{
    let row = (n - 1) % u64::from(slots);
    Place {
        at: 32 + 32 * row as usize,
        size: 32,
    }
}

fn cell(slots: u32, c: u32) -> Place
    ensures { result ≡ cell_place slots c }
{
    Place {
        at: layout::cell_at(slots, c),
        size: 8,
    }
}

// A call that answers a value, and where its store stands.
fn plain(out: Outcome<u64>, place: Option<Place>) -> Did
    ensures { Says done out place result }
{
    Did {
        state: out.state,
        said: out.answer.map(Said::Plain),
        place,
    }
}

// Force: the row of the entry that it answers.
fn forced(out: Outcome<u64>, slots: u32) -> Did
    requires { 0 < value_of (answer_of done out.answer) → 0 < slots }
    ensures { Says done out (force_place slots (answer_of done out.answer)) result }
{
    let place = match out.answer {
        Ok(0) | Err(_) => None,
        Ok(n) => Some(row(slots, n)),
    };
    plain(out, place)
}

// Cut: the head.
fn headed(out: Outcome<u64>) -> Did
    ensures { Says done out (cut_place (answer_of done out.answer)) result }
{
    let place = match out.answer {
        Ok(_) => Some(HEAD),
        Err(_) => None,
    };
    plain(out, place)
}

// Write-back: the cell.
fn backed(out: Outcome<Back>, slots: u32, c: u32) -> Did
    ensures { Says written_back out (back_place slots c (answer_of written_back out.answer)) result }
{
    let (said, place) = match out.answer {
        Ok(Back::Stored) => (Ok(Said::Stored), Some(cell(slots, c))),
        Ok(Back::Clean) => (Ok(Said::Clean), None),
        Err(refused) => (Err(refused), None),
    };
    Did {
        state: out.state,
        said,
        place,
    }
}

// Recovery step: the cell or the head.
fn walked(out: Outcome<Step>, slots: u32) -> Did
    ensures { Says stepped out (step_place slots (answer_of stepped out.answer)) result }
{
    let (said, place) = match out.answer {
        Ok(Step::Cell(c)) => (Ok(Said::Cell(c)), Some(cell(slots, c))),
        Ok(Step::Head) => (Ok(Said::Head), Some(HEAD)),
        Ok(Step::Clean) => (Ok(Said::Clean), None),
        Err(why) => (Err(why), None),
    };
    Did {
        state: out.state,
        said,
        place,
    }
}

// The call, made.
pub fn make(
    state: State,
    call: Call,
    medium: &mut [u8],
    current: &mut [u64],
    first: &mut [u32],
    last: &mut [u32],
    waiting: &mut [u8],
) -> Did
    ensures { let before = handed state medium.old current.old first.old last.old waiting.old in
        let after = handed result.state medium.new current.new first.new last.new waiting.new in
        Made (call_of call) before result after }
{
    let slots = state.numbers.slots;
    match call {
        Call::Begin => plain(state.begin(current, first, last, waiting), None),
        Call::Write { cell, value } => plain(
            state.write(cell, value, current, first, last, waiting),
            None,
        ),
        Call::Abort => plain(state.abort(current, first, last, waiting), None),
        Call::Commit => plain(state.commit(medium, waiting), None),
        Call::Read { cell } => plain(state.read(cell, current), None),
        Call::Force => forced(state.force(medium, waiting), slots),
        Call::Cut { entry } => headed(state.cut(entry, medium, first)),
        Call::WriteBack { cell } => backed(
            state.write_back(cell, medium, current, first, last),
            slots,
            cell,
        ),
        Call::Step => walked(state.recovery_step(medium, current), slots),
        Call::Start => plain(
            State::recovery_start(medium, current, first, last, waiting),
            None,
        ),
    }
}
