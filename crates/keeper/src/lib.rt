// The keeper: its state, and its calls as methods of the state by value. Each call takes the state and the buffers that it is lent, and
// hands the state back with its answer; format and table view, which take no state, stand in `medium`.
//
// A call that is refused answers why, hands back the state that it was given and changes no byte.
#![tactic(auto)]

pub mod looking;
pub mod recovering;
pub mod storing;
pub mod transaction;

ghost use Rattle.std.specs.Prelude.{◌≡◌, Ok, Err};

use answer::Refusal;
use state::{Numbers, Phase};

// N, C, h, f, l, o and the phase. Its fields are the host's to read; a state that is not sound is refused with 1.
#[derive(Clone, Copy)]
pub struct State {
    pub numbers: Numbers,
    pub phase: Phase,
}

// Done, with what the call answers (0 where the papers name no value), or why it is refused; and the state after it.
#[derive(Clone, Copy)]
pub struct Outcome<T> {
    pub answer: Result<T, Refusal>,
    pub state: State,
}

// A write-back stored the cell, or it was clean.
#[derive(Clone, Copy, Debug, PartialEq, Eq)]
pub enum Back {
    Stored,
    Clean,
}

#[inline(always)]
fn done<T>(answer: T, numbers: Numbers, phase: Phase) -> Outcome<T>
    ensures { result ≡ record { answer = Ok answer; state = record { numbers = numbers; phase = phase } } }
{
    Outcome {
        answer: Ok(answer),
        state: State { numbers, phase },
    }
}

impl State {
    #[inline(always)]
    fn refused<T>(self, why: Refusal) -> Outcome<T>
        ensures { result ≡ record { answer = Err why; state = self } }
    {
        Outcome {
            answer: Err(why),
            state: self,
        }
    }
}
