// The workspaces that are lost at power loss: current values, `first` and `last`, and what the waiting rows of the open
// transaction do to them when it is rolled back.
#![tactic(auto)]

ghost use Rattle.std.specs.Prelude.{◌≡◌, ◌-◌, ◌<◌, length};
ghost use Rattle.std.proofs.Math.Option.{some};
ghost use Rattle.scope.specs.Row.{faultless, fault_at, lowest_fault};
ghost use Rattle.scope.specs.Keeper.{first_mark};
ghost use Rattle.scope.specs.Refusals.{any_first};
ghost use Rattle.row.specs.Row.{entry, fault_of};
ghost use Rattle.journal.specs.Entries.{Rows, entry_in};
ghost use Rattle.workspace.specs.Values.{values, Fits, assigned, restored, rolled_from, is_due, wrong_due};

use journal::entry_at;
use medium::layout::index;
use row::{Entry, Fault, Reason};

// What waiting rows must hold, beside their number: any entries, or updates.
#[derive(Clone, Copy, Debug, PartialEq, Eq)]
pub enum Due {
    Entries,
    Updates,
}

impl Due {
    fn admits(self, what: Entry) -> bool
        ensures { result ≡ is_due self (some (entry what)) }
    {
        match self {
            Due::Entries => true,
            Due::Updates => what.is_update(),
        }
    }
}

// A cell's `first` after entry n: set where it was 0.
pub fn first_mark(old: u32, n: u32) -> u32
    ensures { result ≡ first_mark old n }
{
    if old == 0 { n } else { old }
}

// The cell gets the value by entry n, which sets `last`, and `first` where it was 0.
#[inline(always)]
pub fn assign(
    current: &mut [u64],
    first: &mut [u32],
    last: &mut [u32],
    cell: u32,
    value: u64,
    n: u32,
)
    requires { (cell < length current.old) × ((cell < length first.old) × (cell < length last.old)) }
    ensures { let after = values current.new first.new last.new in
        after ≡ assigned n cell value (values current.old first.old last.old) }
{
    let at = index(cell);
    current[at] = value;
    first[at] = first_mark(first[at], n);
    last[at] = n;
}

// The update of waiting row m restored, by entry n.
#[inline(always)]
fn restore(
    waiting: &[u8],
    slots: u32,
    cells: u32,
    m: u32,
    n: u32,
    current: &mut [u64],
    first: &mut [u32],
    last: &mut [u32],
)
    requires { (Rows waiting.now 0 slots m) × (Fits cells current.old first.old last.old) }
    ensures { let after = values current.new first.new last.new in
        after ≡ restored n (entry_in waiting.now 0 slots cells m) (values current.old first.old last.old) }
{
    let Ok(what) = entry_at(waiting, 0, slots, cells, m) else {
        return;
    };
    let Entry::Update { cell, old, .. } = what else {
        return;
    };
    assign(current, first, last, cell, old, n);
}

// The updates of waiting rows l, l - 1, .., o + 1 restored, in falling order, by entry n. Goes once over those rows.
#[inline(always)]
pub fn rollback(
    waiting: &[u8],
    slots: u32,
    cells: u32,
    o: u32,
    l: u32,
    n: u32,
    current: &mut [u64],
    first: &mut [u32],
    last: &mut [u32],
)
    requires { (Rows waiting.now 0 slots 1) × (Fits cells current.old first.old last.old) }
    ensures { let after = values current.new first.new last.new in
        after ≡ rolled_from (entry_in waiting.now 0 slots cells) n (l - o) l (values current.old first.old last.old) }
{
    for m in (o..l).rev() {
        restore(waiting, slots, cells, m + 1, n, current, first, last);
    }
}

// Whether waiting row m holds what is due.
#[inline(always)]
fn is_due(waiting: &[u8], slots: u32, cells: u32, m: u32, due: Due) -> bool
    requires { Rows waiting.now 0 slots m }
    ensures { result ≡ is_due due (entry_in waiting.now 0 slots cells m) }
{
    let Ok(what) = entry_at(waiting, 0, slots, cells, m) else {
        return false;
    };
    due.admits(what)
}

// What is wrong with waiting row m, which must hold what is due.
#[inline(never)]
pub fn row_fault(waiting: &[u8], slots: u32, cells: u32, m: u32, due: Due) -> Option<Fault>
    requires { Rows waiting.now 0 slots m }
    ensures { fault_of result ≡ fault_at m (wrong_due due waiting.now slots cells m) faultless }
{
    match entry_at(waiting, 0, slots, cells, m) {
        Ok(what) if due.admits(what) => None,
        Ok(_) => Some(Fault {
            reason: Reason::NotUpdate,
            entry: m,
        }),
        Err(reason) => Some(Fault { reason, entry: m }),
    }
}

// What is wrong with the lowest of waiting rows from + 1, .., to that doesn't hold what is due. Goes over those rows up to that one. The loop
// asks no more than whether: what is wrong is asked of that row alone.
#[inline(always)]
pub fn lowest_fault(
    waiting: &[u8],
    slots: u32,
    cells: u32,
    from: u32,
    to: u32,
    due: Due,
) -> Option<Fault>
    requires { Rows waiting.now 0 slots 1 }
    ensures { fault_of result ≡ lowest_fault (wrong_due due waiting.now slots cells) (to - from) from }
{
    for m in from..to {
        if !is_due(waiting, slots, cells, m + 1, due) {
            return row_fault(waiting, slots, cells, m + 1, due);
        }
    }
    None
}

// Whether some cell has 0 < `first` <= p. Goes once over all cells: without an exit on the way the loop is quicker.
pub fn any_first(first: &[u32], p: u32) -> bool
    ensures { result ≡ any_first p first.now }
{
    let mut found = false;
    for &mark in first {
        if 0 < mark && mark <= p {
            found = true;
        }
    }
    found
}
