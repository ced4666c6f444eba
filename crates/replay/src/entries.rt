// Replay of a medium's entries over a table of current values. It refuses where a row isn't its entry; behind `scan` each row is.
ghost use Rattle.std.specs.Prelude.{◌≡◌, ◌+◌, ◌-◌, ◌*◌, ◌<◌, ◌≤◌, length};
ghost use Rattle.scope.specs.Keeper.{row_at};
ghost use Rattle.journal.specs.Entries.{Rows, entry_in};
ghost use Rattle.replay.specs.Replay.{undo_entry, undo_from, replay_entry, open_after, opened, replay_from, replayed};

use journal::{entry_at, entry_from, first_row, next_row};
use medium::layout::index;
use row::{Entry, Fault};

// Entry n undone.
fn undo_entry(medium: &[u8], slots: u32, cells: u32, n: u32, current: &mut [u64])
    requires { (Rows medium.now 32 slots n) × (length current.old ≡ cells) }
    ensures { current.new ≡ undo_entry (entry_in medium.now 32 slots cells n) current.old }
{
    if let Ok(Entry::Update { cell, old, new: _ }) = entry_at(medium, 32, slots, cells, n) {
        current[index(cell)] = old;
    }
}

// Entries n, n - 1, .., s + 1 undone, in falling order.
fn undo(medium: &[u8], slots: u32, cells: u32, s: u32, n: u32, current: &mut [u64])
    requires { (Rows medium.now 32 slots 1) × (length current.old ≡ cells) }
    ensures { current.new ≡ undo_from (entry_in medium.now 32 slots cells) s (n - s) current.old }
{
    for k in (s..n).rev() {
        undo_entry(medium, slots, cells, k + 1, current);
    }
}

// Entry n + 1, whose row begins at a place, replayed, where the open transaction's updates come after s: after which number they come then, or
// what is wrong with the row, which isn't that entry.
fn replay_entry(
    medium: &[u8],
    slots: u32,
    cells: u32,
    s: u32,
    n: u32,
    at: usize,
    current: &mut [u64],
) -> Result<u32, Fault>
    requires rows { (Rows medium.now 32 slots 1) × ((length current.old ≡ cells) × (n < 4294967295)) }
    requires place { (at ≡ 32 + row_at slots (n + 1)) × (at ≤ 32 * slots) }
    ensures { (current.new ≡ replay_entry (entry_in medium.now 32 slots cells) (entry_in medium.now 32 slots cells (n + 1)) s n current.old) × (opened result ≡ open_after (entry_in medium.now 32 slots cells (n + 1)) s (n + 1)) }
{
    let next = n + 1;
    match entry_from(medium, at, cells, next) {
        Err(reason) => Err(Fault {
            reason,
            entry: next,
        }),
        Ok(Entry::Update { cell, old: _, new }) => {
            current[index(cell)] = new;
            Ok(s)
        }
        Ok(Entry::Commit) => Ok(next),
        Ok(Entry::Abort) => {
            undo(medium, slots, cells, s, n, current);
            Ok(next)
        }
    }
}

// Entries h + 1 to e replayed, and what is left open undone; or what is wrong with the lowest row that isn't its entry. Goes once over those
// rows, and once more over each undone one.
pub fn replay(
    medium: &[u8],
    slots: u32,
    cells: u32,
    h: u32,
    e: u32,
    current: &mut [u64],
) -> Result<(), Fault>
    requires { (Rows medium.now 32 slots 1) × ((length current.old ≡ cells) × (h ≤ e)) }
    ensures { let after = replayed result current.new in
        after ≡ replay_from (entry_in medium.now 32 slots cells) (e - h) h h current.old }
{
    let mut s = h;
    let mut at = first_row(slots, h);
    for n in h..e {
        s = replay_entry(medium, slots, cells, s, n, at, current)?;
        at = next_row(slots, at);
    }
    undo(medium, slots, cells, s, e, current);
    Ok(())
}
