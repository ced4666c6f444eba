// Why a cell says what it says: the transaction that decided it, and which of its entries.
#![tactic(auto)]

ghost use Rattle.std.specs.Prelude.{◌≡◌};
ghost use Rattle.scope.specs.Bytes.{number_at};
ghost use Rattle.row.specs.Row.{entry};
ghost use Rattle.walker.specs.Walk.{walk};
ghost use Rattle.reasons.specs.Reason.{untold, written, restored, told, tale, why};

use medium::head::head_ok;
use row::Entry;
use walker::after;
use workspace::first_mark;

// The word that is printed: the table's own value, a committed transaction's, or what an aborted or unfinished one gave back.
#[derive(Clone, Copy, Debug, PartialEq, Eq)]
pub enum Reason {
    Table,
    Written,
    Restored,
}

// The reason, the number of the entry that decided, and that of its transaction's end; 0 where there is none, since 0 is printed then.
#[derive(Clone, Copy)]
pub struct Decision {
    pub reason: Reason,
    pub entry: u32,
    pub end: u32,
}

// What the entries read so far say of a cell: the open transaction's first and last update of it, and what the transactions that have ended
// decide. Both are 0 where it has none, as a cell's `first` is, by whose rule (`first_mark`) the first is set.
#[derive(Clone, Copy)]
pub struct Told {
    pub first: u32,
    pub last: u32,
    pub ended: Decision,
}

// Before any entry.
#[tactic(auto, unfolding(crate::specs::Reason::untold))]
fn begun() -> Told
    ensures { result ≡ untold }
{
    Told {
        first: 0,
        last: 0,
        ended: Decision {
            reason: Reason::Table,
            entry: 0,
            end: 0,
        },
    }
}

// What is decided when a transaction commits with entry n: its last update, where it has one.
#[tactic(auto, unfolding(crate::specs::Reason::written))]
fn committed(n: u32, t: Told) -> Decision
    ensures { result ≡ written n t }
{
    if t.first == 0 {
        return t.ended;
    }
    Decision {
        reason: Reason::Written,
        entry: t.last,
        end: n,
    }
}

// What is decided when a transaction is undone, by the abort with number n or, for 0, for want of an end: its first update, where it has one.
#[tactic(auto, unfolding(crate::specs::Reason::restored))]
fn undone(n: u32, t: Told) -> Decision
    ensures { result ≡ restored n t }
{
    if t.first == 0 {
        return t.ended;
    }
    Decision {
        reason: Reason::Restored,
        entry: t.first,
        end: n,
    }
}

// Entry n is read.
#[tactic(auto, unfolding(crate::specs::Reason::told))]
fn tell(cell: u32, n: u32, what: Entry, t: Told) -> Told
    ensures { result ≡ told cell n (entry what) t }
{
    match what {
        Entry::Update { cell: its, .. } => {
            if cell != its {
                return t;
            }
            Told {
                first: first_mark(t.first, n),
                last: n,
                ..t
            }
        }
        Entry::Commit => Told {
            first: 0,
            last: 0,
            ended: committed(n, t),
        },
        Entry::Abort => Told {
            first: 0,
            last: 0,
            ended: undone(n, t),
        },
    }
}

// All that a walk from h meets is read, one entry after the other.
fn tell_all(medium: &[u8], h: u32, cell: u32) -> Told
    requires { h ≡ number_at 4 8 medium.now }
    ensures { result ≡ tale cell h (walk medium.now) untold }
{
    let mut t = begun();
    let mut n = h;
    while let Some(seen) = after(medium, n) {
        let Ok((number, what)) = seen else {
            return t;
        };
        t = tell(cell, number, what, t);
        n = number;
    }
    t
}

// Why a cell of a medium says what it says, by the entries that a walk meets. Goes once over their rows.
pub fn decide(medium: &[u8], cell: u32) -> Decision
    ensures { result ≡ why cell (number_at 4 8 medium.now) (walk medium.now) }
{
    if !head_ok(medium) {
        return undone(0, begun());
    }
    undone(0, tell_all(medium, number::get4(medium, 8), cell))
}
