// A row of the journal, 32 bytes:
//
//   offset  bytes  field
//        0      4  number, 1 to M
//        4      1  kind: 1 update, 2 commit, 3 abort
//        5      3  zero
//        8      4  cell, below N; zero in a commit and an abort
//       12      4  zero
//       16      8  old value; zero in a commit and an abort
//       24      8  new value; zero in a commit and an abort
//
// Only the answer of reading a row, the entry or the first thing wrong, says what a row means.
#![tactic(auto)]

ghost use Rattle.std.specs.Prelude.{◌≡◌, ◌+◌, ◌<◌, ◌≤◌, length, Some};
ghost use Rattle.std.proofs.Math.Option.{some};
ghost use Rattle.scope.specs.Bytes.{put};
ghost use Rattle.scope.specs.Row.{row_bytes, entry_of, read_row, wrong_entry, is_update, is_writable, write_row};
ghost use Rattle.row.specs.Row.{entry, reason, meaning, reason_of, bare_end, left_over, unread_as, wrong_of};
ghost use Rattle.row.specs.Words.{reason_text, fault_text};

use std::fmt;

// An entry of the journal, without its number.
#[derive(Clone, Copy, Debug, PartialEq, Eq)]
pub enum Entry {
    Update { cell: u32, old: u64, new: u64 },
    Commit,
    Abort,
}

impl Entry {
    pub fn is_update(self) -> bool
        ensures { result ≡ is_update (some (entry self)) }
    {
        matches!(self, Entry::Update { .. })
    }
}

// What is wrong with a row, in the order in which it is judged. "Not an update" is asked of the open transaction's rows alone; a hole is a
// row that does not hold its number where a later one does, and recovery's alone.
#[derive(Clone, Copy, Debug, PartialEq, Eq)]
pub enum Reason {
    TooShort,
    OtherNumber,
    UnknownKind,
    FillerNotZero,
    CellOutOfRange,
    CellLeft,
    OldLeft,
    NewLeft,
    NotUpdate,
    Hole,
}

// In words for people.
impl fmt::Display for Reason {
    ghost output = { λ reason. Some (reason_text reason) };

    fn fmt<W: fmt::Write>(&self, f: &mut fmt::Formatter<W>) -> fmt::Result {
        f.write_str(match self {
            Reason::TooShort => "too short",
            Reason::OtherNumber => "other number",
            Reason::UnknownKind => "unknown kind",
            Reason::FillerNotZero => "filler not zero",
            Reason::CellOutOfRange => "cell out of range",
            Reason::CellLeft => "cell left in an end entry",
            Reason::OldLeft => "old left in an end entry",
            Reason::NewLeft => "new left in an end entry",
            Reason::NotUpdate => "not an update",
            Reason::Hole => "hole",
        })
    }
}

// What is told of rows: what is wrong with one, and the number of the entry expected there.
#[derive(Clone, Copy, Debug, PartialEq, Eq)]
pub struct Fault {
    pub reason: Reason,
    pub entry: u32,
}

// `entry 3: cell out of range`.
impl fmt::Display for Fault {
    ghost output = { λ fault. Some (fault_text fault) };

    fn fmt<W: fmt::Write>(&self, f: &mut fmt::Formatter<W>) -> fmt::Result {
        let Fault { reason, entry } = *self;
        write!(f, "entry {entry}: {reason}")
    }
}

// An end, in whose row cell, old and new are zero.
pub fn ended(what: Entry, cell: u32, old: u64, new: u64) -> Result<Entry, Reason>
    ensures { (meaning result ≡ bare_end (entry what) cell old new) × (reason_of result ≡ left_over cell old new) }
{
    if cell != 0 {
        return Err(Reason::CellLeft);
    }
    if old != 0 {
        return Err(Reason::OldLeft);
    }
    if new != 0 {
        return Err(Reason::NewLeft);
    }
    Ok(what)
}

// What is wrong with a row, where it is the kind, the filler or the cell's range.
fn unread(row: &[u8]) -> Reason
    requires { 32 ≤ length row.now }
    ensures { reason result ≡ unread_as row.now }
{
    let kind = row[4];
    if kind == 0 || 3 < kind {
        return Reason::UnknownKind;
    }
    if number::get4(row, 4) != u32::from(kind) || number::get4(row, 12) != 0 {
        return Reason::FillerNotZero;
    }
    Reason::CellOutOfRange
}

// A row whose cell is in range, by the four bytes from its kind on.
fn of_kind(row: &[u8], kind: u32, cell: u32, old: u64, new: u64) -> Result<Entry, Reason>
    requires { 32 ≤ length row.now }
    ensures { (meaning result ≡ entry_of kind cell old new) × (reason_of result ≡ wrong_of row.now kind cell old new) }
{
    match kind {
        1 => Ok(Entry::Update { cell, old, new }),
        2 => ended(Entry::Commit, cell, old, new),
        3 => ended(Entry::Abort, cell, old, new),
        _ => Err(unread(row)),
    }
}

// Reads the first 32 bytes of a slice as entry `number` of a table of `cells` cells. Costs the row's bytes, once; a row that reads is
// judged by words, and only in one that does not are kind, filler and cell told apart.
pub fn read_row(row: &[u8], cells: u32, number: u32) -> Result<Entry, Reason>
    ensures entry { meaning result ≡ read_row cells number row.now }
    ensures reason { reason_of result ≡ wrong_entry cells number row.now }
{
    if row.len() < 32 {
        return Err(Reason::TooShort);
    }
    if number == 0 || number::get4(row, 0) != number {
        return Err(Reason::OtherNumber);
    }
    // the kind byte with the three after it: only 1, 2 and 3 are kinds
    let kind = number::get4(row, 4);
    // the cell with the four bytes after it: below N only where those are zero
    let cell = number::get8(row, 8);
    if u64::from(cells) <= cell {
        return Err(unread(row));
    }
    let old = number::get8(row, 16);
    let new = number::get8(row, 24);
    of_kind(row, kind, cell as u32, old, new)
}

// Writes entry `number` into the first 32 bytes of a slice, and answers whether it did: a shorter slice and number 0 are
// refused, and nothing is written. Costs the row's bytes, once.
pub fn write_row(row: &mut [u8], number: u32, what: Entry) -> bool
    ensures written { result ≡ is_writable number row.old }
    ensures bytes { row.new ≡ write_row number (entry what) row.old }
{
    if row.len() < 32 || number == 0 {
        return false;
    }
    put_entry(row, 0, number, what);
    true
}

// The 32 bytes of entry `number`, stored from a place on.
pub fn put_entry(rows: &mut [u8], at: usize, number: u32, what: Entry)
    requires { at + 32 ≤ length rows.old }
    ensures { rows.new ≡ put rows.old at (row_bytes number (entry what)) }
{
    match what {
        Entry::Update { cell, old, new } => number::put_record(
            rows, at, number, 1, cell, 0, old, new,
        ),
        Entry::Commit => number::put_record(rows, at, number, 2, 0, 0, 0, 0),
        Entry::Abort => number::put_record(rows, at, number, 3, 0, 0, 0, 0),
    }
}
