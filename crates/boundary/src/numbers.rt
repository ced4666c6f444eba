// The state as seven numbers, and answers as a number and a value.
ghost use Rattle.std.specs.Prelude.{◌≡◌, length};
ghost use Rattle.scope.specs.Row.{reason_no};
ghost use Rattle.row.specs.Row as rows;
ghost use Rattle.answer.specs.Answer.{number_in, told_in};
ghost use Rattle.state.specs.State.{phase_of, state_of};
ghost use Rattle.recovery.specs.Answers.{stepped};
ghost use Rattle.keeper.specs.Answers.{written_back};
ghost use Rattle.boundary.specs.Boundary.{phase_no, numbers_of, state_held, step_value, back_value, Tells};
ghost use Rattle.boundary.specs.Held.{phase_held, phase_numbered, held_in, made, stored, committed, dropped, HasRest};

use answer::Refusal;
use keeper::{Back, State};
use recovery::Step;
use row::Reason;
use state::{Numbers, Phase};

// Functions and no From, here and at a reason's number: the numbers are the C interface's, and an impl would stand in the type's own crate.
fn phase_number(phase: Phase) -> u32
    ensures { result ≡ phase_no (phase_of phase) }
{
    match phase {
        Phase::Idle => 0,
        Phase::Run => 1,
        Phase::Recovering => 2,
    }
}

#[inline(always)]
fn phase_numbered(number: u32) -> Option<Phase>
    ensures { phase_held result ≡ phase_numbered number }
{
    match number {
        0 => Some(Phase::Idle),
        1 => Some(Phase::Run),
        2 => Some(Phase::Recovering),
        _ => None,
    }
}

// The state in a slice, if it holds one.
#[inline(always)]
pub fn state_in(s: &[u32]) -> Option<State>
    ensures { held_in result ≡ state_held s.now }
{
    let &[cells, slots, h, f, l, o, phase] = s else {
        return None;
    };
    let phase = phase_numbered(phase)?;
    let numbers = Numbers {
        cells,
        slots,
        h,
        f,
        l,
        o,
    };
    Some(State { numbers, phase })
}

// The state put back as seven numbers, store by store: as an array copied it is first built in memory and then read in wider words, and read took
// 1.3 to 1.8 times as long.
#[inline(always)]
pub fn put_state(s: &mut [u32], state: State)
    requires { length s.old ≡ 7 }
    ensures { s.new ≡ numbers_of (state_of state.numbers state.phase) }
{
    let State { numbers, phase } = state;
    s[0] = numbers.cells;
    s[1] = numbers.slots;
    s[2] = numbers.h;
    s[3] = numbers.f;
    s[4] = numbers.l;
    s[5] = numbers.o;
    s[6] = phase_number(phase);
}

// This and the next three put what their calls change and no more, beside put_state: with all seven put, force missed its bar of speed.
//
// The numbers that making an entry changes, l, o and the phase, put back beside those that stand there.
#[inline(always)]
pub fn put_made(s: &mut [u32], state: State)
    requires { HasRest made s.old (state_of state.numbers state.phase) }
    ensures { s.new ≡ numbers_of (state_of state.numbers state.phase) }
{
    let State { numbers, phase } = state;
    s[4] = numbers.l;
    s[5] = numbers.o;
    s[6] = phase_number(phase);
}

// The number that force changes: f.
#[inline(always)]
pub fn put_stored(s: &mut [u32], state: State)
    requires { HasRest stored s.old (state_of state.numbers state.phase) }
    ensures { s.new ≡ numbers_of (state_of state.numbers state.phase) }
{
    s[3] = state.numbers.f;
}

// The numbers that a commit changes, which makes an entry and stores: f, l, o and the phase.
#[inline(always)]
pub fn put_committed(s: &mut [u32], state: State)
    requires { HasRest committed s.old (state_of state.numbers state.phase) }
    ensures { s.new ≡ numbers_of (state_of state.numbers state.phase) }
{
    let numbers = state.numbers;
    s[3] = numbers.f;
    put_made(s, state);
}

// The number that a cut changes: h.
#[inline(always)]
pub fn put_dropped(s: &mut [u32], state: State)
    requires { HasRest dropped s.old (state_of state.numbers state.phase) }
    ensures { s.new ≡ numbers_of (state_of state.numbers state.phase) }
{
    s[2] = state.numbers.h;
}

// The refusal's number; 0 where the call is done.
#[inline(always)]
pub fn number_of<T: Copy>(answer: Result<T, Refusal>) -> u32
    ensures { result ≡ number_in answer }
{
    match answer {
        Ok(_) => 0,
        Err(why) => why.number(),
    }
}

// The cell, or 2^32 for the head, or 2^32 + 1 for nothing stored.
pub fn step_value(step: Step) -> u64
    ensures { result ≡ step_value (stepped step) }
{
    match step {
        Step::Cell(cell) => u64::from(cell),
        Step::Head => 1 << 32,
        Step::Clean => (1 << 32) + 1,
    }
}

// 1 for stored, 0 for clean.
pub fn back_value(back: Back) -> u64
    ensures { result ≡ back_value (written_back back) }
{
    match back {
        Back::Stored => 1,
        Back::Clean => 0,
    }
}

pub fn reason_number(reason: Reason) -> u32
    ensures { result ≡ reason_no (rows.reason reason) }
{
    match reason {
        Reason::TooShort => 1,
        Reason::OtherNumber => 2,
        Reason::UnknownKind => 3,
        Reason::FillerNotZero => 4,
        Reason::CellOutOfRange => 5,
        Reason::CellLeft => 6,
        Reason::OldLeft => 7,
        Reason::NewLeft => 8,
        Reason::NotUpdate => 9,
        Reason::Hole => 10,
    }
}

// The refusal's number, and what is wrong with a row put where the host says: the reason's number, 0 for none, and the entry's.
#[inline(always)]
pub fn tell<T: Copy>(answer: Result<T, Refusal>, reason: &mut u32, entry: &mut u32) -> u32
    ensures number { result ≡ number_in answer }
    ensures fault { Tells (told_in answer) reason.new entry.new }
{
    *reason = 0;
    *entry = 0;
    let Err(why) = answer else {
        return 0;
    };
    if let Some(fault) = why.fault() {
        *reason = reason_number(fault.reason);
        *entry = fault.entry;
    }
    why.number()
}
