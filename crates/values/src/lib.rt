// The values that recovery gives the cells of a medium, in the caller's memory. The medium is not changed: a walk over its rows says which entries
// count, and these are replayed over the table.
#![tactic(auto)]

ghost use Rattle.std.specs.Prelude.{◌≡◌, true, ◌≤◌, replicate};
ghost use Rattle.scope.specs.Bytes.{number_at};
ghost use Rattle.scope.specs.Keeper.{is_head_ok};
ghost use Rattle.scope.specs.Recovery.{journal};
ghost use Rattle.replay.specs.Replay.{last_of};
ghost use Rattle.recovered.specs.Recovered.{head_number};
ghost use Rattle.values.specs.Values.{Values, number_of, upto, end_after};

use medium::head::head_ok;
use medium::table::load;
use replay::entries::replay;
use replay::scan::{any_holds, at_most};
use walker::after;

// Why a medium has no values: recovery start refuses its head, with 1, or a row, with 2.
#[derive(Clone, Copy, Debug, PartialEq, Eq)]
pub enum Unread {
    Head,
    Row,
}

impl Unread {
    // The number that recovery start refuses it with.
    pub fn number(self) -> u32
        ensures { result ≡ number_of self }
    {
        match self {
            Unread::Head => 1,
            Unread::Row => 2,
        }
    }
}

// The last entry of a walk that meets none after n: n, or none at a hole, where a later row holds its number.
fn end_after(medium: &[u8], h: u32, n: u32) -> Option<u32>
    requires { (h ≡ number_at 4 8 medium.now) × ((is_head_ok medium.now ≡ true) × (h ≤ n)) }
    ensures { upto result ≡ end_after medium.now n }
{
    let slots = number::get4(medium, 4);
    let most = at_most(slots, h);
    let met = n - h;
    if most <= met {
        return Some(n);
    }
    if any_holds(medium, slots, n + 1, most - met - 1) {
        return None;
    }
    Some(n)
}

// The last entry that a walk from h meets; none where it meets a row that does not read or a hole.
fn last_met(medium: &[u8], h: u32) -> Option<u32>
    requires { (h ≡ number_at 4 8 medium.now) × (is_head_ok medium.now ≡ true) }
    ensures { upto result ≡ last_of h (journal (number_at 4 0 medium.now) (number_at 4 4 medium.now) h medium.now) }
{
    let mut n = h;
    while let Some(seen) = after(medium, n) {
        let Ok((number, _)) = seen else {
            return None;
        };
        n = number;
    }
    end_after(medium, h, n)
}

// Puts the recovered values into zeros, one for each cell; or answers why recovery start refuses the medium. Goes over the entries that count
// twice, once over the table, and once more over each undone row.
pub fn values(medium: &[u8], current: &mut [u64]) -> Result<(), Unread>
    requires { current.old ≡ replicate (head_number 0 medium.now) 0 }
    ensures { Values medium.now result current.new }
{
    if !head_ok(medium) {
        return Err(Unread::Head);
    }
    let cells = number::get4(medium, 0);
    let slots = number::get4(medium, 4);
    let h = number::get4(medium, 8);
    let Some(e) = last_met(medium, h) else {
        return Err(Unread::Row);
    };
    load(medium, slots, current);
    let Ok(()) = replay(medium, slots, cells, h, e, current) else {
        return Err(Unread::Row);
    };
    Ok(())
}
