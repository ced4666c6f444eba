// A row of its own, read and written.
ghost use Rattle.std.specs.Prelude.{◌≡◌, [], ◌∷◌, length};
ghost use Rattle.scope.specs.Row.{read_row, wrong_entry, entry_of};
ghost use Rattle.row.specs.Row.{meaning, reason_of};
ghost use Rattle.boundary.specs.Rows.{kind_of, fields_of, row_read, row_written};

use crate::numbers::reason_number;
use row::{Entry, Reason, ended};

// The kind of what a row reads as, 0 for nothing; and the fields of an update, else zeros, with the reason where it reads as nothing.
#[inline(always)]
fn fields_of(read: Result<Entry, Reason>) -> (u32, [u64; 4])
    ensures kind { result.0 ≡ kind_of (meaning read) }
    ensures fields { result.1 ≡ fields_of (meaning read) (reason_of read) }
{
    match read {
        Ok(Entry::Update { cell, old, new }) => (1, [u64::from(cell), old, new, 0]),
        Ok(Entry::Commit) => (2, [0, 0, 0, 0]),
        Ok(Entry::Abort) => (3, [0, 0, 0, 0]),
        Err(reason) => (0, [0, 0, 0, u64::from(reason_number(reason))]),
    }
}

// The four fields, put store by store: as an array copied they are first built in memory, and a row took a third longer to read.
#[inline(always)]
fn put_fields(fields: &mut [u64], cell: u64, old: u64, new: u64, reason: u64)
    requires { length fields.old ≡ 4 }
    ensures { fields.new ≡ cell ∷ old ∷ new ∷ reason ∷ [] }
{
    fields[0] = cell;
    fields[1] = old;
    fields[2] = new;
    fields[3] = reason;
}

#[unsafe(no_mangle)]
pub extern "C" fn keeper_read_row(row: &[u8], cells: u32, number: u32, fields: &mut [u64]) -> u32
    ensures { record { kind = result; fields = fields.new } ≡ row_read (read_row cells number row.now) (wrong_entry cells number row.now) fields.old }
{
    if fields.len() != 4 {
        return 0;
    }
    let (kind, [cell, old, new, reason]) = fields_of(row::read_row(row, cells, number));
    put_fields(fields, cell, old, new, reason);
    kind
}

// What fields are as an entry.
fn entry_in(kind: u32, cell: u32, old: u64, new: u64) -> Result<Entry, Reason>
    ensures { meaning result ≡ entry_of kind cell old new }
{
    match kind {
        1 => Ok(Entry::Update { cell, old, new }),
        2 => ended(Entry::Commit, cell, old, new),
        3 => ended(Entry::Abort, cell, old, new),
        _ => Err(Reason::UnknownKind),
    }
}

#[unsafe(no_mangle)]
pub extern "C" fn keeper_write_row(
    row: &mut [u8],
    number: u32,
    kind: u32,
    cell: u32,
    old: u64,
    new: u64,
) -> u32
    ensures { record { number = result; row = row.new } ≡ row_written number (entry_of kind cell old new) row.old }
{
    let Ok(what) = entry_in(kind, cell, old, new) else {
        return 1;
    };
    if row::write_row(row, number, what) {
        0
    } else {
        1
    }
}
