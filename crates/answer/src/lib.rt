// Why a call is refused: the papers' numbers, each with what it means, and beside 2 and 7 what is wrong with the lowest bad row.
#![tactic(auto)]

ghost use Rattle.std.specs.Prelude.{◌≡◌};
ghost use Rattle.row.specs.Row.{fault_of};
ghost use Rattle.answer.specs.Answer.{number_of, told_with};

use row::Fault;

#[derive(Clone, Copy, Debug, PartialEq, Eq)]
pub enum Refusal {
    // 1: a parameter, a length, the head or the state is not what the rules ask
    Unfit,
    // 2: a row with the expected number does not read as an entry, or a row is missing before a later one
    Malformed(Fault),
    // 3: no transaction is open
    NoTransaction,
    // 4: the table has no such cell
    NoCell,
    // 5: the journal is full
    Full,
    // 6: the entry numbers are used up
    UsedUp,
    // 7: a row isn't the entry that it must be
    BadRow(Fault),
    // 8: the cell's last entry is not stored
    NotStored,
    // 9: the journal may not be cut there
    NotACut,
    // 10: the call is of another phase
    WrongPhase,
    // 11: no such entry
    NoEntry,
    // 12, the counter's: every cell of the span is empty
    NoPart,
}

impl Refusal {
    // The papers' number.
    #[inline(always)]
    pub fn number(self) -> u32
        ensures { result ≡ number_of self }
    {
        match self {
            Refusal::Unfit => 1,
            Refusal::Malformed(_) => 2,
            Refusal::NoTransaction => 3,
            Refusal::NoCell => 4,
            Refusal::Full => 5,
            Refusal::UsedUp => 6,
            Refusal::BadRow(_) => 7,
            Refusal::NotStored => 8,
            Refusal::NotACut => 9,
            Refusal::WrongPhase => 10,
            Refusal::NoEntry => 11,
            Refusal::NoPart => 12,
        }
    }

    // What is told beside it.
    #[inline(always)]
    pub fn fault(self) -> Option<Fault>
        ensures { fault_of result ≡ told_with self }
    {
        match self {
            Refusal::Malformed(fault) | Refusal::BadRow(fault) => Some(fault),
            _ => None,
        }
    }
}

impl From<Refusal> for u32 {
    ghost from_gives = { λ refusal number. number ≡ number_of refusal };

    fn from(refusal: Refusal) -> u32 {
        refusal.number()
    }
}
