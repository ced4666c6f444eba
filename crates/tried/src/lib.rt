// A desk: a keeper with the medium and the workspaces that it is lent. Each call of the library is a method, and its answer can be told in a line.
#![tactic(auto)]

use answer::Refusal;
use keeper::{Back, Outcome, State};
use medium::head::format;
use recovery::Step;
use state::{Numbers, Phase};
use std::fmt;
use std::fmt::Display;

// What a call answered, to be told in a line; beside a refusal's number what is wrong with a row.
#[derive(Clone, Copy)]
pub enum Told {
    Done(u64),
    Step(Step),
    Back(Back),
    Refused(Refusal),
    // A look's refusal, 0 where there is none, and how long the part is.
    Part { refused: u32, length: usize },
    // The last entry made.
    Last(u32),
}

impl From<u64> for Told {
    fn from(value: u64) -> Told {
        Told::Done(value)
    }
}

impl From<Step> for Told {
    fn from(step: Step) -> Told {
        Told::Step(step)
    }
}

impl From<Back> for Told {
    fn from(back: Back) -> Told {
        Told::Back(back)
    }
}

impl<T: Into<Told>> From<Outcome<T>> for Told {
    fn from(out: Outcome<T>) -> Told {
        match out.answer {
            Ok(value) => value.into(),
            Err(why) => Told::Refused(why),
        }
    }
}

impl Display for Told {
    fn fmt<W: fmt::Write>(&self, f: &mut fmt::Formatter<W>) -> fmt::Result {
        match *self {
            Told::Done(value) => write!(f, "done={value}"),
            Told::Step(Step::Cell(cell)) => write!(f, "cell={cell}"),
            Told::Step(Step::Head) => f.write_str("head=1"),
            Told::Back(Back::Stored) => f.write_str("stored=1"),
            Told::Step(Step::Clean) | Told::Back(Back::Clean) => f.write_str("clean=1"),
            Told::Refused(why) => {
                write!(f, "refused={}", why.number())?;
                match why.fault() {
                    Some(fault) => write!(f, " {fault}"),
                    None => Ok(()),
                }
            }
            Told::Part { refused, length } => write!(f, "refused={refused} part={length}"),
            Told::Last(entry) => write!(f, "last={entry}"),
        }
    }
}

// A refusal's number, 0 where there is none.
pub fn number<T: Drop>(answer: Result<T, Refusal>) -> u32 {
    answer.err().map_or(0, |why| why.number())
}

// Words printed, of at most 128 bytes.
pub fn say<D: Display + Drop>(words: D) {
    io::write_all(1, fmt::InlineText::<128>::of(words).as_str().as_bytes());
}

// What was tried and its answer, in one line.
pub fn tell(what: &str, told: Told) {
    say(format_args!("{what} {told}\n"));
}

// A keeper of N cells: its medium of M bytes, its workspaces, with W bytes of waiting rows, and its state.
#[derive(Clone, Copy)]
pub struct Desk<const N: usize, const M: usize, const W: usize> {
    pub medium: [u8; M],
    pub current: [u64; N],
    pub first: [u32; N],
    pub last: [u32; N],
    pub waiting: [u8; W],
    pub state: State,
}

// N = 2 and C = 4.
pub type SmallDesk = Desk<2, 176, 128>;

impl<const N: usize, const M: usize, const W: usize> Desk<N, M, W> {
    // Formatted, with no state.
    pub fn formatted(cells: u32, slots: u32) -> Self {
        let mut medium = [0; M];
        let _ = format(&mut medium, cells, slots);
        let numbers = Numbers {
            cells: 0,
            slots: 0,
            h: 0,
            f: 0,
            l: 0,
            o: 0,
        };
        Desk {
            medium,
            current: [0; N],
            first: [0; N],
            last: [0; N],
            waiting: [0; W],
            state: State {
                numbers,
                phase: Phase::Idle,
            },
        }
    }

    // Formatted and recovered.
    pub fn recovered(cells: u32, slots: u32) -> Self {
        let mut desk = Self::formatted(cells, slots);
        desk.start();
        desk.step();
        desk
    }

    // Goes on with the state after a call, and answers what the call did.
    fn after<T: Into<Told>>(&mut self, out: Outcome<T>) -> Told {
        self.state = out.state;
        Told::from(out)
    }

    pub fn start(&mut self) -> Told {
        let medium = self.medium;
        self.start_on(&medium)
    }

    // A start that is lent another medium.
    pub fn start_on(&mut self, medium: &[u8]) -> Told {
        let out = State::recovery_start(
            medium,
            &mut self.current,
            &mut self.first,
            &mut self.last,
            &self.waiting,
        );
        self.after(out)
    }

    pub fn step(&mut self) -> Told {
        let out = self.state.recovery_step(&mut self.medium, &self.current);
        self.after(out)
    }

    pub fn begin(&mut self) -> Told {
        let out = self.state.begin(
            &mut self.current,
            &mut self.first,
            &mut self.last,
            &mut self.waiting,
        );
        self.after(out)
    }

    pub fn abort(&mut self) -> Told {
        let out = self.state.abort(
            &mut self.current,
            &mut self.first,
            &mut self.last,
            &mut self.waiting,
        );
        self.after(out)
    }

    pub fn write(&mut self, cell: u32, value: u64) -> Told {
        let out = self.state.write(
            cell,
            value,
            &mut self.current,
            &mut self.first,
            &mut self.last,
            &mut self.waiting,
        );
        self.after(out)
    }

    pub fn read(&self, cell: u32) -> Told {
        Told::from(self.state.read(cell, &self.current))
    }

    pub fn commit(&mut self) -> Told {
        let out = self.state.commit(&mut self.medium, &mut self.waiting);
        self.after(out)
    }

    // What a commit answers that is lent another medium and other waiting rows.
    pub fn commit_on(&self, medium: &mut [u8], waiting: &mut [u8]) -> Told {
        Told::from(self.state.commit(medium, waiting))
    }

    pub fn force(&mut self) -> Told {
        let out = self.state.force(&mut self.medium, &self.waiting);
        self.after(out)
    }

    pub fn write_back(&mut self, cell: u32) -> Told {
        let out = self.state.write_back(
            cell,
            &mut self.medium,
            &self.current,
            &mut self.first,
            &self.last,
        );
        self.after(out)
    }

    pub fn cut(&mut self, p: u32) -> Told {
        let out = self.state.cut(p, &mut self.medium, &self.first);
        self.after(out)
    }

    pub fn look(&self, n: u32) -> Told {
        Told::Part {
            refused: number(self.state.try_look(n, &self.medium, &self.waiting)),
            length: self.state.look(n, &self.medium, &self.waiting).len(),
        }
    }

    // The last entry made.
    pub fn last_made(&self) -> Told {
        Told::Last(self.state.numbers.l)
    }
}

impl Desk<2, 176, 128> {
    // Formatted and recovered.
    pub fn fresh() -> Self {
        Self::recovered(2, 4)
    }
}
