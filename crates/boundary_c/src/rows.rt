// A row of its own, read and written.
ghost use Rattle.std.specs.Prelude.{◌≡◌};
ghost use Rattle.scope.specs.Row.{read_row, wrong_entry, entry_of};
ghost use Rattle.boundary.specs.Rows.{row_read, row_written};

#[unsafe(no_mangle)]
pub extern "C" fn keeper_read_row(row: &[u8], cells: u32, number: u32, fields: &mut [u64]) -> u32
    ensures { record { kind = result; fields = fields.new } ≡ row_read (read_row cells number row.now) (wrong_entry cells number row.now) fields.old }
{
    boundary::rows::keeper_read_row(row, cells, number, fields)
}

#[unsafe(no_mangle)]
pub extern "C" fn keeper_write_row(
    row: &mut [u8],
    number: u32,
    kind: u32,
    cell: u32,
    old: u64,
    new: u64,
) -> u32
    ensures { record { number = result; row = row.new } ≡ row_written number (entry_of kind cell old new) row.old }
{
    boundary::rows::keeper_write_row(row, number, kind, cell, old, new)
}
