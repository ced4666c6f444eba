// The journal: the rows of a medium, from byte 32 on, or the waiting rows, from byte 0 on. Entry n has row (n-1) mod C.
// The row of one entry is read, appended or stored.
#![tactic(auto)]

ghost use Rattle.std.specs.Prelude.{◌≡◌, ℕ, ◌+◌, ◌*◌, ◌<◌, ◌≤◌, length, take, drop};
ghost use Rattle.scope.specs.Bytes.{put};
ghost use Rattle.scope.specs.Row.{row_bytes, read_row, wrong_entry};
ghost use Rattle.scope.specs.Keeper.{row_at};
ghost use Rattle.row.specs.Row.{entry, meaning, reason_of};
ghost use Rattle.journal.specs.Entries.{Rows, entry_in, wrong_in};

use medium::layout::{index, row_at};
use row::{Entry, Reason};

// The row that begins at a place, as entry n of a table of N cells.
#[inline(always)]
pub fn entry_from(rows: &[u8], at: usize, cells: u32, n: u32) -> Result<Entry, Reason>
    requires { at + 32 ≤ length rows.now }
    ensures entry { meaning result ≡ read_row cells n (take 32 (drop at rows.now)) }
    ensures reason { reason_of result ≡ wrong_entry cells n (take 32 (drop at rows.now)) }
{
    row::read_row(&rows[at..at + 32], cells, n)
}

// The row of entry n, of C rows that begin at a place, as that entry of a table of N cells.
#[inline(always)]
pub fn entry_at(rows: &[u8], base: usize, slots: u32, cells: u32, n: u32) -> Result<Entry, Reason>
    requires { Rows rows.now base slots n }
    ensures entry { meaning result ≡ entry_in rows.now base slots cells n }
    ensures reason { reason_of result ≡ wrong_in rows.now base slots cells n }
{
    entry_from(rows, base + row_at(slots, n), cells, n)
}

// Where the row of entry h+1 begins on a medium.
pub fn first_row(slots: u32, h: u32) -> usize
    requires { 0 < slots }
    ensures { (result ≡ 32 + row_at slots (h + 1)) × (result ≤ 32 * slots) }
{
    32 + 32 * index(h % slots)
}

// Where the row after that of an entry begins on a medium, without a division: after the last comes the first.
pub fn next_row(slots: u32, at: usize) -> usize
    requires { at ≤ 32 * slots }
    ensures { (n : ℕ) → 0 < n → at ≡ 32 + row_at slots n → (result ≡ 32 + row_at slots (n + 1)) × (result ≤ 32 * slots) }
{
    if at == 32 * index(slots) { 32 } else { at + 32 }
}

// Entry n, built in its waiting row.
#[inline(always)]
pub fn append(waiting: &mut [u8], slots: u32, n: u32, what: Entry)
    requires { Rows waiting.old 0 slots n }
    ensures { waiting.new ≡ put waiting.old (row_at slots n) (row_bytes n (entry what)) }
{
    row::put_entry(waiting, row_at(slots, n), n, what);
}

// The waiting row of entry n, stored on the medium. As four words: copy_from_slice asks first whether the two overlap, and force is at its bar.
#[inline(always)]
pub fn store_row(medium: &mut [u8], waiting: &[u8], slots: u32, n: u32)
    requires { (Rows medium.old 32 slots n) × (Rows waiting.now 0 slots n) }
    ensures { medium.new ≡ put medium.old (32 + row_at slots n) (take 32 (drop (row_at slots n) waiting.now)) }
{
    let from = row_at(slots, n);
    let a = number::get8(waiting, from);
    let b = number::get8(waiting, from + 8);
    let c = number::get8(waiting, from + 16);
    let d = number::get8(waiting, from + 24);
    number::put8(medium, from + 32, a);
    number::put8(medium, from + 40, b);
    number::put8(medium, from + 48, c);
    number::put8(medium, from + 56, d);
}
