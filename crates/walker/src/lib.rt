// A walker over the rows of one medium: it holds the medium by reference, and the number of the last entry that it has passed. A walk that begins
// after h meets the entries that recovery start reads, one by one.
#![tactic(auto)]

ghost use Rattle.std.specs.Prelude.{◌≡◌, ◌+◌, ◌<◌};
ghost use Rattle.scope.specs.Recovery.{rows_of};
ghost use Rattle.journal.specs.Entries.{Rows};
ghost use Rattle.walker.specs.Walk.{met, wrong_met, counts, next_in, next_on, wrong_in, wrong_on};

use journal::entry_from;
use medium::head::head_ok;
use medium::layout::row_at;
use row::{Entry, Fault};

#[derive(Clone, Copy)]
pub struct Walker<'a> {
    pub medium: &'a [u8],
    pub at: u32,
}

// What a walker meets next: the next number with its entry, a row with that number that does not read as an entry, or nothing at the
// journal's end.
pub type Seen = Option<Result<(u32, Entry), Fault>>;

// Whether the entry after n may count, for a journal of C rows after h: at most C do, and none past M.
fn counted(slots: u32, h: u32, n: u32) -> bool
    ensures { result ≡ counts slots h n }
{
    h <= n && n < u32::MAX && n - h < slots
}

// What the row after that of entry n holds.
fn row_after(medium: &[u8], slots: u32, cells: u32, n: u32) -> Seen
    requires { (Rows medium.now 32 slots 1) × (n < 4294967295) }
    ensures met { met result ≡ next_in (rows_of slots medium.now) cells n }
    ensures fault { wrong_met result ≡ wrong_in (rows_of slots medium.now) cells n }
{
    let entry = n + 1;
    let at = 32 + row_at(slots, entry);
    if number::get4(medium, at) != entry {
        return None;
    }
    match entry_from(medium, at, cells, entry) {
        Ok(what) => Some(Ok((entry, what))),
        Err(reason) => Some(Err(Fault { reason, entry })),
    }
}

// The work: what stands after entry n of a medium. Costs the head's bytes and a row's.
pub fn next_at(medium: &[u8], n: u32) -> Seen
    ensures met { met result ≡ next_on medium.now n }
    ensures fault { wrong_met result ≡ wrong_on medium.now n }
{
    if !head_ok(medium) {
        return None;
    }
    let slots = number::get4(medium, 4);
    let h = number::get4(medium, 8);
    if !counted(slots, h, n) {
        return None;
    }
    row_after(medium, slots, number::get4(medium, 0), n)
}

// A walker that has passed the entries up to n.
pub fn new<'a>(medium: &'a [u8], n: u32) -> Walker<'a>
    ensures { (result.medium ≡ medium.entry) × (result.at ≡ n) }
{
    Walker { medium, at: n }
}

// What a walker meets next.
pub fn next<'a>(w: Walker<'a>) -> Seen
    ensures met { met result ≡ next_on w.entry.medium.now w.entry.at }
    ensures fault { wrong_met result ≡ wrong_on w.entry.medium.now w.entry.at }
{
    next_at(w.medium, w.at)
}

// What a walker over the medium meets after entry n, for callers that hold no walker.
pub fn after(medium: &[u8], n: u32) -> Seen
    ensures met { met result ≡ next_on medium.now n }
    ensures fault { wrong_met result ≡ wrong_on medium.now n }
{
    next(new(medium, n))
}
