// Which entries count.
ghost use Rattle.std.specs.Prelude.{◌≡◌, ◌+◌, ◌<◌};
ghost use Rattle.std.proofs.Math.Option.{none, some};
ghost use Rattle.scope.specs.Bytes.{pick};
ghost use Rattle.scope.specs.Row.{faultless, fault, hole};
ghost use Rattle.scope.specs.Recovery.{rows_of, at_most, any_holds, journal, journal_fault};
ghost use Rattle.journal.specs.Entries.{Rows};
ghost use Rattle.replay.specs.Replay.{last_of, upto, malformed};

use journal::{entry_from, first_row, next_row};
use row::{Fault, Reason};

// How many rows are read at most: C, and not past M.
pub fn at_most(slots: u32, h: u32) -> u32
    ensures { result ≡ at_most slots h }
{
    slots.min(u32::MAX - h)
}

// Whether one of the `count` rows after n holds its number. Looks at each row's number, up to the first that does. A call of its own: within
// recovery start, whose other numbers fill the registers, its counters would lie in memory.
#[inline(never)]
pub fn any_holds(medium: &[u8], slots: u32, n: u32, count: u32) -> bool
    requires { (Rows medium.now 32 slots 1) × (n + count < 4294967296) }
    ensures { result ≡ any_holds (rows_of slots medium.now) count n }
{
    let mut at = first_row(slots, n);
    for k in n..n + count {
        if number::get4(medium, at) == k + 1 {
            return true;
        }
        at = next_row(slots, at);
    }
    false
}

// Where the row after entry n's does not hold its number: the journal ends with n, or that row is a hole, since one of the `count` rows after it
// holds its number.
fn end_or_hole(medium: &[u8], slots: u32, n: u32, count: u32) -> Result<u32, Fault>
    requires { (Rows medium.now 32 slots 1) × (n + 1 + count < 4294967296) }
    ensures entries { upto result ≡ pick (any_holds (rows_of slots medium.now) count (n + 1)) none (some n) }
    ensures fault { malformed result ≡ pick (any_holds (rows_of slots medium.now) count (n + 1)) (fault hole (n + 1)) faultless }
{
    let hole = n + 1;
    if any_holds(medium, slots, hole, count) {
        return Err(Fault {
            reason: Reason::Hole,
            entry: hole,
        });
    }
    Ok(n)
}

// Entries h+1, h+2, .. of a medium are read while the row holds that number: the last entry that counts, or what is wrong with the lowest row
// with the expected number that does not read as an entry, or the hole. Goes once over those rows, and looks at the number of each row after
// them.
pub fn scan(medium: &[u8], slots: u32, cells: u32, h: u32) -> Result<u32, Fault>
    requires { Rows medium.now 32 slots 1 }
    ensures entries { upto result ≡ last_of h (journal cells slots h medium.now) }
    ensures fault { malformed result ≡ journal_fault cells slots h medium.now }
{
    let end = h + at_most(slots, h);
    let mut at = first_row(slots, h);
    for n in h..end {
        let next = n + 1;
        if number::get4(medium, at) != next {
            return end_or_hole(medium, slots, n, end - next);
        }
        if let Err(reason) = entry_from(medium, at, cells, next) {
            return Err(Fault {
                reason,
                entry: next,
            });
        }
        at = next_row(slots, at);
    }
    Ok(end)
}
